//! Runs with threads, from the text of a job to what is looked at.

ghost use Rattle.std.specs.Prelude.{◌≡◌, [], IfSome, length, replicate};
ghost use Rattle.epoch_words.specs.inner.Known.{enclaves};
ghost use Rattle.epoch_words.specs.inner.Seen.{starting_at};

use backing_store::backing::Backing;
use epoch_words::seen::Seen;
use epoch_words::words::{HardwareSeat, Pass, Words};
use job_grammar::jobs::Job;
use job_text::reader::read_job;
use run_crew::gate::Gate;
use run_crew::run::{MachineBook, run_crew};
use sgx_rules::entries::Entry;
use std::alloc::Global;
use std::process::Abort;
use std::sync::Wait;
use std::test::Fail;
use std::thread::Threads;

/// What is looked at of a run.
#[derive(Drop)]
pub struct Ran {
    pub entries: Vec<Entry>,
    /// For how many processors the entries were counted.
    pub cpus: usize,
    /// How many entries the reclaimer made.
    pub reclaimer: u64,
    /// How many enclaves have a word.
    pub words: usize,
    /// What the first of these words says at the end.
    pub first: Seen,
}

/// Runs the job of this text.
pub fn run_of<R: Abort + Threads + Wait + Sync, B: Backing + Send, G: Gate + Sync>(
    rt: &R,
    alloc: Global,
    text: &str,
    store: B,
    gate: &G,
) -> Result<Ran, Fail>
    requires told { IfSome (B.told store) (λ calls. calls ≡ []) }
{
    let job = Box::new(alloc, read_job(alloc, text.as_bytes())?)?;
    let (words, seat, pass) = Words::new(alloc, &job)?;
    run_over(rt, alloc, job, store, &words, seat, pass, gate)
}

// The same over these words. The book is in a box wherever this can end.
fn run_over<R: Abort + Threads + Wait + Sync, B: Backing + Send, G: Gate + Sync>(
    rt: &R,
    alloc: Global,
    job: Box<Job>,
    store: B,
    words: &Words,
    seat: HardwareSeat,
    pass: Pass,
    gate: &G,
) -> Result<Ran, Fail>
    requires told { IfSome (B.told store) (λ calls. calls ≡ []) }
    requires enclaves { enclaves seat.words ≡ length job.value.enclaves }
    requires seen { seat.seen ≡ replicate (length job.value.enclaves) (starting_at job.value.start_epoch) }
    requires words { seat.words ≡ words.now }
    requires pass { pass.words ≡ words.now }
{
    let mut pass = pass;
    let mut after = words.split_pass(&mut pass);
    let book = MachineBook::start(alloc, Box::into_inner(job), store, seat)?;
    let (book, tally) = run_crew(rt, alloc, book, words, pass, gate)?;
    let book = Box::new(alloc, book)?;
    assert!(rt; words.enclaves() >= 1);
    let first = words.observe(&mut after, 1);
    Ok(Ran {
        entries: book.entries().to_vec(alloc)?,
        cpus: tally.cpus.len(),
        reclaimer: tally.reclaimer,
        words: words.enclaves(),
        first,
    })
}
