//! The text on a trace of a job, given to a sink.

ghost use Rattle.std.specs.Prelude.{◌≡◌, List, IsErrOf, OnOk, reverse, ℕ};
ghost use Rattle.io_edges.specs.inner.Faults.{HasCause};
ghost use Rattle.io_edges.specs.Sinks.{GivesPart, followed_by};
ghost use Rattle.command_least.specs.Fewest.{IsLeastText};

use crate::numbers::print_least;
use io_edges::giving::give_all;
use io_edges::sinks::Sink;
use job_grammar::jobs::Job;
use sgx_rules::entries::Entry;
use std::alloc::Global;
use trace_pieces::ungiven::Ungiven;

/// Gives the text on a trace of a job: a line for the number of its accesses, for that of the frames that enclaves' pages can have,
/// for the fewest loads by which these can be served in those, and for the reloads that were made. The entries stand oldest first.
pub fn give_least<K: Sink>(
    alloc: Global,
    job: &Job,
    entries: &[Entry],
    out: &mut K,
) -> Result<(), Ungiven>
    ensures gave { OnOk result ((text : List ℕ) × IsLeastText job.now (reverse entries.now) text
        × (K.given out.new ≡ followed_by (K.given out.old) text)) }
    ensures broke { IsErrOf result Ungiven.Failed → (text : List ℕ) × IsLeastText job.now (reverse entries.now) text
        × GivesPart (K.given out.old) (K.given out.new) text }
    ensures memory { IsErrOf result Ungiven.Memory → out.new ≡ out.old }
    ensures cause { HasCause (K.faults out.old) (K.faults out.new) (IsErrOf result Ungiven.Failed) }
{
    let text = print_least(alloc, job, entries)?;
    give_all(out, &text)?;
    Ok(())
}
