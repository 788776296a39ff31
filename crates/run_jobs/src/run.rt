//! A whole run of a job.

ghost use Rattle.run_jobs.specs.Runs.{WholeRun};
ghost use Rattle.std.specs.Prelude.{◌≡◌, [], IfOk, IfSome, is_some, reverse};

use crate::ends::End;
use backing_store::backing::Backing;
use epoch_words::words::Words;
use job_grammar::jobs::Job;
use run_crew::gate::Gate;
use run_crew::run::{MachineBook, Parts, run_workers};
use sgx_rules::entries::Entry;
use sgx_types::names::Memory;
use std::alloc::Global;
use std::sync::Wait;
use std::thread::Threads;

/// A run that has ended.
#[derive(Drop)]
pub struct Run<B: Backing> {
    pub job: Job,
    /// Oldest first.
    pub entries: Vec<Entry>,
    pub store: B,
    pub end: End,
}

/// Runs a job over a store that has told no calls yet, with a thread for the builder, for each processor and for the reclaimer, until the
/// run is at its end. Whatever the store gives, and in whatever order the threads take their turns, the entries keep the promises of a
/// whole run. A run whose store fails for ever may not return.
pub fn run_job<R: Threads + Wait + Sync, B: Backing + Send, G: Gate + Sync>(
    rt: &R,
    alloc: Global,
    job: Job,
    store: B,
    gate: &G,
) -> Result<Run<B>, Memory>
    requires { IfSome (B.told store) (λ calls. calls ≡ []) }
    ensures job { IfOk result (λ run. run.job ≡ job) }
    // A store that tells its calls goes on to.
    ensures tells { IfOk result (λ run. is_some (B.told run.store) ≡ is_some (B.told store)) }
    ensures run { IfOk result (λ run.
        WholeRun run.job (reverse run.entries.items) run.end (B.told run.store) (B.plans run.store)) }
{
    let (words, seat, pass) = Words::new(alloc, &job)?;
    let book = MachineBook::start(alloc, job, store, seat)?;
    let book = run_workers(rt, alloc, book, &words, pass, gate)?;
    let end = End::of(book.is_spent(), book.has_loss());
    let Parts {
        job,
        entries,
        store,
    } = book.into_parts();
    Ok(Run {
        job,
        entries,
        store,
        end,
    })
}
