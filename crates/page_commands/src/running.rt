//! The command `run`: a job to its trace and its output.

ghost use Rattle.std.specs.Prelude.{◌≡◌, ◌+◌, ◌^◌, ◌⊎◌, [], is_some, reverse, IfSome, IsErrOf, IsSomeAnd, None, OnOk, Some};
ghost use Rattle.io_edges.specs.Faults.{HasRisen};
ghost use Rattle.io_edges.specs.Sources.{TakesAtMost};
ghost use Rattle.trace_file.specs.Reading.{OfRead};
ghost use Rattle.page_commands.specs.Commands.{HasEnded, IsRunEnd, MayStandIn, NoFault, status_of};
ghost use Rattle.page_commands.specs.inner.Commands.{IsGiven};
ghost use Rattle.page_commands.specs.Runs.{BothGiven, HalfGiven, HasFault, HasJob, RanBy};
ghost use Rattle.page_commands.specs.Says.{Ends, OfJob};
ghost use Rattle.run_jobs.specs.declared.ends.End.{End};

use crate::ended::{Ended, unrun};
use crate::jobs::{read, tell};
use crate::status::Status;
use backing_store::backing::Backing;
use io_edges::giving::give_all;
use io_edges::sinks::Sink;
use io_edges::sources::Source;
use job_grammar::jobs::Job;
use run_crew::gate::Gate;
use run_jobs::run::{Run, run_job};
use run_replies::replies::print_out;
use sgx_rules::entries::Entry;
use sgx_types::names::Memory;
use std::alloc::Global;
use std::sync::Wait;
use std::thread::Threads;
use trace_pieces::pieces::give_trace;
use trace_pieces::ungiven::Ungiven;

/// Runs the job that `job` gives, over this store, which has told no calls yet. The text of its trace goes to `trace`, and then its replies
/// go to `out`. Where the text is no job's, `out` gets its first faulty line and what is wrong there.
pub(crate) fn run_command<
    R: Threads + Wait + Sync,
    J: Source,
    K: Sink,
    L: Sink,
    B: Backing + Send,
    G: Gate + Sync,
>(rt: &R, alloc: Global, job: &mut J, out: &mut K, trace: &mut L, store: B, gate: &G) -> Ended<B>
    requires { IfSome (B.told store) (λ calls. calls ≡ []) }
    ensures kind { IsRunEnd result.status }
    ensures reads { TakesAtMost (2 ^ 24 + 1) (J.left job.old) (J.left job.new) }
    ensures read_fault { result.status ≡ Status.ReadFault →
        HasRisen (J.faults job.old) (J.faults job.new) × (out.new ≡ out.old) × (trace.new ≡ trace.old) × (result.store ≡ None) }

    // Without a run the output gets the line on a text that is no job's, and nothing else.
    ensures unrun { result.store ≡ None →
        OfRead (J.left job.old) (λ bytes. Ends (OfJob bytes (λ j status text. ⊥)) result.status (K.given out.old) (K.given out.new))
        × (trace.new ≡ trace.old) }
    ensures bad_job { result.status ≡ Status.BadJob → result.store ≡ None }
    ensures no_job { IsSomeAnd (J.left job.old) HasFault →
        (result.status ≡ Status.BadJob) ⊎ MayStandIn result.status }

    // Whatever the store gave: a whole run of the job, with its texts, that ended as the status says.
    ensures ran { (end : End) → result.status ≡ status_of end →
        OfRead (J.left job.old) (λ bytes. IsSomeAnd result.store (λ store. RanBy bytes end (B.told store) (B.plans store)
        (λ j past. BothGiven j past (K.given out.old) (K.given out.new) (L.given trace.old) (L.given trace.new)))) }
    // A run that meets no fault is complete.
    ensures complete { IsSomeAnd (J.left job.old) HasJob →
        NoFault (J.faults job.old) (J.faults job.new) →
        NoFault (K.faults out.old) (K.faults out.new) →
        NoFault (L.faults trace.old) (L.faults trace.new) →
        HasEnded result.status ⊎ (result.status ≡ Status.Memory) }

    ensures write_fault { result.status ≡ Status.WriteFault →
        HasRisen (K.faults out.old) (K.faults out.new) ⊎ HasRisen (L.faults trace.old) (L.faults trace.new) }
    ensures broke { result.status ≡ Status.WriteFault → (result.store ≡ None)
        ⊎ OfRead (J.left job.old) (λ bytes. (end : End) × IsSomeAnd result.store (λ store. RanBy bytes end (B.told store) (B.plans store)
        (λ j past. HalfGiven j past (K.given out.old) (K.given out.new) (L.given trace.old) (L.given trace.new)))) }
    ensures memory { result.status ≡ Status.Memory → (out.new ≡ out.old) × (trace.new ≡ trace.old) }
    // The store comes back from a run that came to its end, whatever the status, and from no other.
    ensures back { IfSome result.store (λ store. OfRead (J.left job.old) (λ bytes.
        (end : End) × RanBy bytes end (B.told store) (B.plans store) (λ j past. Unit {0}))) }
    // A store that tells its calls goes on to.
    ensures tells { IfSome result.store (λ back. is_some (B.told back) ≡ is_some (B.told store)) }
{
    let job = match read(alloc, job) {
        Ok(job) => job,
        Err(unread) => return unrun(tell(alloc, out, unread)),
    };
    match run_job(rt, alloc, job, store, gate) {
        Ok(run) => give_run(alloc, run, out, trace),
        Err(Memory) => unrun(Status::Memory),
    }
}

// Gives the texts of a run.
fn give_run<K: Sink, L: Sink, B: Backing>(
    alloc: Global,
    run: Run<B>,
    out: &mut K,
    trace: &mut L,
) -> Ended<B>
    ensures store { result.store ≡ Some run.store }
    ensures gave { IsGiven run.end result.status
        (BothGiven run.job (reverse run.entries.items) (K.given out.old) (K.given out.new) (L.given trace.old) (L.given trace.new)) }
    ensures broke { result.status ≡ Status.WriteFault →
        HalfGiven run.job (reverse run.entries.items) (K.given out.old) (K.given out.new) (L.given trace.old) (L.given trace.new) }
    ensures memory { result.status ≡ Status.Memory → (out.new ≡ out.old) × (trace.new ≡ trace.old) }
    ensures failed { result.status ≡ Status.WriteFault
        → HasRisen (K.faults out.old) (K.faults out.new) ⊎ HasRisen (L.faults trace.old) (L.faults trace.new) }
{
    let Run {
        job,
        entries,
        store,
        end,
    } = run;
    let status = match give_texts(alloc, &job, &entries, out, trace) {
        Ok(()) => Status::of_run(end),
        Err(Ungiven::Failed) => Status::WriteFault,
        Err(Ungiven::Memory) => Status::Memory,
    };
    Ended {
        status,
        store: Some(store),
    }
}

// The trace of these entries, which stand oldest first, and then the replies.
fn give_texts<K: Sink, L: Sink>(
    alloc: Global,
    job: &Job,
    entries: &[Entry],
    out: &mut K,
    trace: &mut L,
) -> Result<(), Ungiven>
    ensures gave { OnOk result
        (BothGiven job.now (reverse entries.now) (K.given out.old) (K.given out.new) (L.given trace.old) (L.given trace.new)) }
    ensures broke { IsErrOf result Ungiven.Failed
        → HalfGiven job.now (reverse entries.now) (K.given out.old) (K.given out.new) (L.given trace.old) (L.given trace.new) }
    ensures memory { IsErrOf result Ungiven.Memory → (out.new ≡ out.old) × (trace.new ≡ trace.old) }
    ensures failed { IsErrOf result Ungiven.Failed
        → HasRisen (K.faults out.old) (K.faults out.new) ⊎ HasRisen (L.faults trace.old) (L.faults trace.new) }
{
    let out_text = print_out(alloc, job, entries)?;
    give_trace(alloc, trace, entries)?;
    give_all(out, &out_text)?;
    Ok(())
}
