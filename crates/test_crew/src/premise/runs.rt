//! Runs of a job.

ghost use Rattle.std.specs.Prelude.{◌≡◌, [], IfSome};

use backing_store::backing::Backing;
use epoch_words::words::Words;
use job_grammar::jobs::Job;
use run_rounds::run::{MachineBook, Parts, run};
use sgx_types::names::Memory;
use std::alloc::Global;
use std::sync::Wait;

/// A run by rounds of turns on one thread. It is the same each time.
pub fn by_rounds<R: Wait, B: Backing>(
    rt: &R,
    alloc: Global,
    job: Box<Job>,
    store: B,
) -> Result<Box<Parts<B>>, Memory>
    requires { IfSome (B.told store) (λ calls. calls ≡ []) }
{
    let (words, seat, _) = Words::new(alloc, &job)?;
    let book = MachineBook::start(alloc, Box::into_inner(job), store, seat)?;
    let mut book = Box::new(alloc, book)?;
    run(rt, alloc, &mut *book, &words)?;
    Ok(Box::new(alloc, Box::into_inner(book).into_parts())?)
}
