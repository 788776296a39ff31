//! The commands `make` and `demo`, of a job that is made of a number and a size.

ghost use Rattle.std.specs.Prelude.{◌≡◌, ◌≤◌, [], is_some, IfSome, IsErrOf, IsSomeAnd, OnOk, Some};
ghost use Rattle.io_edges.specs.Faults.{HasRisen};
ghost use Rattle.io_edges.specs.Sinks.{GivesPart, followed_by};
ghost use Rattle.job_make.specs.MadeJob.{made_job};
ghost use Rattle.job_print.specs.JobText.{job_text};
ghost use Rattle.page_commands.specs.Summary.{summary_of};
ghost use Rattle.page_commands.specs.Commands.{IsDemoEnd, status_of};
ghost use Rattle.page_commands.specs.inner.Commands.{IsGiven, IsTextGiven};
ghost use Rattle.page_commands.specs.Runs.{DemoBy};
ghost use Rattle.run_jobs.specs.declared.ends.End.{End};

use crate::ended::{Ended, unrun};
use crate::status::Status;
use crate::summary::print_summary;
use backing_store::backing::Backing;
use io_edges::giving::give_all;
use io_edges::sinks::Sink;
use job_grammar::jobs::Job;
use job_make::maker::make_job;
use job_print::printer::print_job;
use run_crew::gate::Gate;
use run_jobs::run::{Run, run_job};
use sgx_rules::entries::Entry;
use sgx_types::names::Memory;
use std::alloc::Global;
use std::sync::Wait;
use std::thread::Threads;
use trace_pieces::ungiven::Ungiven;

/// Gives the text of the job that is made of a number and a size.
pub(crate) fn make_command<K: Sink>(alloc: Global, number: u64, size: u32, out: &mut K) -> Status
    requires least { 4 ≤ size }
    requires most { size ≤ 2000 }
    ensures made { IsTextGiven (job_text (made_job number size)) result (K.given out.old) (K.given out.new) }
    ensures memory { result ≡ Status.Memory → out.new ≡ out.old }
    ensures failed { result ≡ Status.WriteFault → HasRisen (K.faults out.old) (K.faults out.new) }
{
    match give_made(alloc, number, size, out) {
        Ok(()) => Status::Done,
        Err(Ungiven::Failed) => Status::WriteFault,
        Err(Ungiven::Memory) => Status::Memory,
    }
}

fn give_made<K: Sink>(alloc: Global, number: u64, size: u32, out: &mut K) -> Result<(), Ungiven>
    requires least { 4 ≤ size }
    requires most { size ≤ 2000 }
    ensures gave { OnOk result (K.given out.new ≡ followed_by (K.given out.old) (job_text (made_job number size))) }
    ensures memory { IsErrOf result Ungiven.Memory → out.new ≡ out.old }
    ensures broke { IsErrOf result Ungiven.Failed → GivesPart (K.given out.old) (K.given out.new) (job_text (made_job number size)) }
    ensures failed { IsErrOf result Ungiven.Failed → HasRisen (K.faults out.old) (K.faults out.new) }
{
    let job = make_job(alloc, number, size)?;
    let text = print_job(alloc, &job)?;
    give_all(out, &text)?;
    Ok(())
}

/// Runs the job that is made of a number and a size, over this store, which has told no calls yet, and gives the summary of that run.
pub(crate) fn demo_command<R: Threads + Wait + Sync, K: Sink, B: Backing + Send, G: Gate + Sync>(
    rt: &R,
    alloc: Global,
    number: u64,
    size: u32,
    out: &mut K,
    store: B,
    gate: &G,
) -> Ended<B>
    requires least { 4 ≤ size }
    requires most { size ≤ 2000 }
    requires told { IfSome (B.told store) (λ calls. calls ≡ []) }
    ensures kind { IsDemoEnd result.status }
    ensures ran { (end : End) → result.status ≡ status_of end → IsSomeAnd result.store (λ store.
        DemoBy number size end (B.told store) (B.plans store) (λ entries.
        K.given out.new ≡ followed_by (K.given out.old) (summary_of (made_job number size) size entries))) }
    ensures broke { result.status ≡ Status.WriteFault → (end : End) × IsSomeAnd result.store (λ store.
        DemoBy number size end (B.told store) (B.plans store) (λ entries.
        GivesPart (K.given out.old) (K.given out.new) (summary_of (made_job number size) size entries))) }
    ensures memory { result.status ≡ Status.Memory → out.new ≡ out.old }
    ensures failed { result.status ≡ Status.WriteFault → HasRisen (K.faults out.old) (K.faults out.new) }
    // The store comes back from a run that came to its end, whatever the status, and from no other.
    ensures back { IfSome result.store (λ store.
        (end : End) × DemoBy number size end (B.told store) (B.plans store) (λ entries. Unit {0})) }
    // A store that tells its calls goes on to.
    ensures tells { IfSome result.store (λ back. is_some (B.told back) ≡ is_some (B.told store)) }
{
    let job = match make_job(alloc, number, size) {
        Ok(job) => job,
        Err(Memory) => return unrun(Status::Memory),
    };
    match run_job(rt, alloc, job, store, gate) {
        Ok(run) => sum_up(alloc, size, run, out),
        Err(Memory) => unrun(Status::Memory),
    }
}

// Gives the summary of a run.
fn sum_up<K: Sink, B: Backing>(alloc: Global, size: u32, run: Run<B>, out: &mut K) -> Ended<B>
    requires most { size ≤ 2000 }
    ensures store { result.store ≡ Some run.store }
    ensures gave { IsGiven run.end result.status
        (K.given out.new ≡ followed_by (K.given out.old) (summary_of run.job size run.entries.items)) }
    ensures broke { result.status ≡ Status.WriteFault →
        GivesPart (K.given out.old) (K.given out.new) (summary_of run.job size run.entries.items) }
    ensures memory { result.status ≡ Status.Memory → out.new ≡ out.old }
    ensures failed { result.status ≡ Status.WriteFault → HasRisen (K.faults out.old) (K.faults out.new) }
{
    let Run {
        job,
        entries,
        store,
        end,
    } = run;
    let status = match give_summary(alloc, &job, size, &entries, out) {
        Ok(()) => Status::of_run(end),
        Err(Ungiven::Failed) => Status::WriteFault,
        Err(Ungiven::Memory) => Status::Memory,
    };
    Ended {
        status,
        store: Some(store),
    }
}

fn give_summary<K: Sink>(
    alloc: Global,
    job: &Job,
    size: u32,
    entries: &[Entry],
    out: &mut K,
) -> Result<(), Ungiven>
    requires most { size ≤ 2000 }
    ensures gave { OnOk result (K.given out.new ≡ followed_by (K.given out.old) (summary_of job.now size entries.now)) }
    ensures memory { IsErrOf result Ungiven.Memory → out.new ≡ out.old }
    ensures broke { IsErrOf result Ungiven.Failed → GivesPart (K.given out.old) (K.given out.new) (summary_of job.now size entries.now) }
    ensures failed { IsErrOf result Ungiven.Failed → HasRisen (K.faults out.old) (K.faults out.new) }
{
    let text = print_summary(alloc, job, size, entries)?;
    give_all(out, &text)?;
    Ok(())
}
