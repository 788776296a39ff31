//! The command `gate`: many rounds at a gate with no lock.

ghost use Rattle.page_commands.specs.GateText.{gate_text};
ghost use Rattle.io_edges.specs.Faults.{HasRisen};
ghost use Rattle.page_commands.specs.inner.Commands.{IsTextGiven};
ghost use Rattle.std.specs.Prelude.{◌≡◌, ◌≤◌};

use crate::gate_counts::give_counts;
use crate::status::Status;
use io_edges::sinks::Sink;
use std::alloc::Global;
use std::sync::Wait;
use std::thread::Threads;
use trace_pieces::ungiven::Ungiven;

/// Lets four processors and a pager make so many rounds at a new gate, and gives how often they entered.
pub(crate) fn rounds_command<R: Threads + Wait + Sync, K: Sink>(
    rt: &R,
    alloc: Global,
    rounds: u32,
    out: &mut K,
) -> Status
    requires { rounds ≤ 100000 }
    ensures told { IsTextGiven (gate_text rounds) result (K.given out.old) (K.given out.new) }
    ensures memory { result ≡ Status.Memory → out.new ≡ out.old }
    ensures failed { result ≡ Status.WriteFault → HasRisen (K.faults out.old) (K.faults out.new) }
{
    match give_counts(rt, alloc, rounds, out) {
        Ok(()) => Status::Done,
        Err(Ungiven::Failed) => Status::WriteFault,
        Err(Ungiven::Memory) => Status::Memory,
    }
}
