//! What came of many rounds at a gate with no lock, given as a text.

ghost use Rattle.std.specs.Prelude.{◌≡◌, ◌≤◌, IfOk, IsErrOf, OnOk};
ghost use Rattle.io_edges.specs.Faults.{HasRisen};
ghost use Rattle.io_edges.specs.Sinks.{GivesPart, followed_by};
ghost use Rattle.page_commands.specs.GateText.{counts_text, gate_text};

use frame_gate::rounds::count_entries;
use io_edges::giving::give_all;
use io_edges::sinks::Sink;
use sgx_types::names::Memory;
use std::alloc::Global;
use std::sync::Wait;
use std::thread::Threads;
use text_words::words::Word::{Decimal, Name};
use text_words::words::push_line;
use trace_pieces::ungiven::Ungiven;

/// The frames and the processors of the gate.
const FRAMES: u32 = 8;

const PROCESSORS: u32 = 4;

/// Runs four processors and a pager at a new gate of eight frames, each so many rounds (at most 100,000), beside one another
/// in threads where these can be made. Then it gives the number of all entries, and that of stale uses, which is 0: a
/// processor's use of a frame finds the generation that its seat holds (this project's own).
pub fn give_counts<R: Threads + Wait + Sync, K: Sink>(
    rt: &R,
    alloc: Global,
    rounds: u32,
    out: &mut K,
) -> Result<(), Ungiven>
    requires { rounds ≤ 100000 }
    ensures gave { OnOk result (K.given out.new ≡ followed_by (K.given out.old) (gate_text rounds)) }
    ensures memory { IsErrOf result Ungiven.Memory → out.new ≡ out.old }
    ensures broke { IsErrOf result Ungiven.Failed → GivesPart (K.given out.old) (K.given out.new) (gate_text rounds) }
    ensures failed { IsErrOf result Ungiven.Failed → HasRisen (K.faults out.old) (K.faults out.new) }
{
    let entries = count_entries(rt, alloc, FRAMES, PROCESSORS, rounds)?;
    let text = print_counts(alloc, entries)?;
    give_all(out, &text)?;
    Ok(())
}

// The text on so many entries.
fn print_counts(alloc: Global, entries: u64) -> Result<Vec<u8>, Memory>
    ensures { IfOk result (λ text. text.items ≡ counts_text entries) }
{
    let mut text = Vec::new(alloc);
    push_line(Name("enters"), &[Decimal(entries)], &mut text)?;
    push_line(Name("stale"), &[Decimal(0)], &mut text)?;
    Ok(text)
}
