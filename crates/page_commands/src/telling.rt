//! The commands of a job and an old trace: `least`, `audit`, `check`, `query` and `moves`.

ghost use Rattle.std.specs.Prelude.{◌≡◌, ◌+◌, ◌^◌, ◌⊎◌, IfOk, IsErrOf, ℕ, List, reverse};
ghost use Rattle.io_edges.specs.Faults.{HasRisen};
ghost use Rattle.io_edges.specs.Sinks.{GivesPart, followed_by};
ghost use Rattle.io_edges.specs.Sources.{TakesAtMost};
ghost use Rattle.trace_file.specs.Reading.{OfRead};
ghost use Rattle.page_commands.specs.Runs.{HasJob};
ghost use Rattle.page_commands.specs.Says.{Ends, Tells, TellsOf};

use crate::judging::give_verdict;
use crate::status::Status;
use crate::traces::{Traced, read_traced};
use crate::verdicts::Verdict;
use audit_check::watch::Watch;
use command_least::giving::give_least;
use command_query::giving::give_answer;
use command_words::telling::Telling;
use io_edges::sinks::Sink;
use io_edges::sources::Source;
use std::alloc::Global;
use trace_pieces::ungiven::Ungiven;

/// Reads a job and then an old trace, whoever made it, and gives the text that is asked for. Where either text is none, `out` gets the
/// line on that.
pub(crate) fn tell_of_both<J: Source, O: Source, K: Sink, W: Watch>(
    alloc: Global,
    telling: Telling,
    job: &mut J,
    old: &mut O,
    out: &mut K,
    watch: &W,
) -> Status
    ensures reads_job { TakesAtMost (2 ^ 24 + 1) (J.left job.old) (J.left job.new) }
    ensures reads_old { TakesAtMost (2 ^ 30 + 1) (O.left old.old) (O.left old.new) }
    ensures says { OfRead (J.left job.old) (λ bytes. (HasJob bytes ⊎ (old.new ≡ old.old)) × OfRead (O.left old.old) (λ old_bytes.
        Ends (TellsOf telling bytes old_bytes) result (K.given out.old) (K.given out.new))) }
    ensures read_fault { result ≡ Status.ReadFault →
        (HasRisen (J.faults job.old) (J.faults job.new) × (old.new ≡ old.old)
        ⊎ OfRead (J.left job.old) HasJob × HasRisen (O.faults old.old) (O.faults old.new)) × (out.new ≡ out.old) }
    ensures write_fault { result ≡ Status.WriteFault → HasRisen (K.faults out.old) (K.faults out.new) }
    ensures memory { result ≡ Status.Memory → out.new ≡ out.old }
{
    let traced = match read_traced(alloc, job, old, out) {
        Ok(traced) => traced,
        Err(status) => return status,
    };
    match give(alloc, telling, &traced, watch, out) {
        Ok(status) => status,
        Err(Ungiven::Failed) => Status::WriteFault,
        Err(Ungiven::Memory) => Status::Memory,
    }
}

fn give<K: Sink, W: Watch>(
    alloc: Global,
    telling: Telling,
    traced: &Traced,
    watch: &W,
    out: &mut K,
) -> Result<Status, Ungiven>
    ensures gave { IfOk result (λ status. (text : List ℕ) × Tells telling traced.now.job (reverse traced.now.entries.items) status text
        × (K.given out.new ≡ followed_by (K.given out.old) text)) }
    ensures broke { IsErrOf result Ungiven.Failed → (status : Status) × (text : List ℕ)
        × Tells telling traced.now.job (reverse traced.now.entries.items) status text × GivesPart (K.given out.old) (K.given out.new) text }
    ensures memory { IsErrOf result Ungiven.Memory → out.new ≡ out.old }
    ensures failed { IsErrOf result Ungiven.Failed → HasRisen (K.faults out.old) (K.faults out.new) }
{
    match telling {
        Telling::Least => {
            give_least(alloc, &traced.job, &traced.entries, out)?;
            Ok(Status::Done)
        }
        Telling::Judge(rules) => match give_verdict(
            alloc,
            rules,
            &traced.job,
            &traced.entries,
            watch,
            out,
        )? {
            Verdict::Yes => Ok(Status::Done),
            Verdict::No { .. } => Ok(Status::AuditNo),
        },
        Telling::Ask(question) => {
            give_answer(alloc, &traced.job, &traced.entries, question, out)?;
            Ok(Status::Done)
        }
    }
}
