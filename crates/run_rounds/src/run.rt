//! A run of a book on one thread.

ghost use Rattle.driver_rules.specs.Scripts.{IsEnded};
ghost use Rattle.run_rounds.specs.inner.Rests.{CpusRest, IsSameRun};
ghost use Rattle.std.specs.Prelude.{◌≡◌, OnOk, IfOk, false, is_some, length, true};

use crate::turns::{build, reclaim, run_cpu};
use backing_store::backing::Backing;
use epoch_words::words::Words;
pub use run_book::book::{MachineBook, Parts, Turn};
use sgx_types::names::{Cpu, Memory};
use std::alloc::Global;
use std::sync::Wait;

/// Takes rounds of turns of a book on one thread, each with its work done and committed at once: the builder, the reclaimer and each
/// processor, until a round in which nobody had anything more to do, or the run was stopped for want of an epoch or a version.
/// A run whose store fails for ever may not return.
pub fn run<R: Wait, B: Backing>(
    rt: &R,
    alloc: Global,
    book: &mut MachineBook<B>,
    words: &Words,
) -> Result<(), Memory>
    requires out_of_memory { book.old.book.out_of_memory ≡ false }
    requires words { book.old.words ≡ words.now }
    ensures job { book.new.book.job ≡ book.old.book.job }
    ensures words { book.new.words ≡ book.old.words }
    ensures out_of_memory { book.new.book.out_of_memory ≡ false }
    // A store that tells its calls goes on to.
    ensures tells { is_some book.new.book.told ≡ is_some book.old.book.told }
    ensures ended { OnOk result (IsEnded book.new.book.job book.new.book.past) }
{
    for _ in rt.forever() {
        if is_last_round(alloc, book, words)? {
            return Ok(());
        }
    }
    unreachable!()
}

// One round. Whether nobody had anything more to do.
fn is_last_round<B: Backing>(
    alloc: Global,
    book: &mut MachineBook<B>,
    words: &Words,
) -> Result<bool, Memory>
    requires out_of_memory { book.old.book.out_of_memory ≡ false }
    requires words { book.old.words ≡ words.now }
    ensures run { IsSameRun book.old book.new }
    ensures ended { IfOk result (λ is_last. is_last ≡ true → IsEnded book.new.book.job book.new.book.past) }
{
    let is_built = build(alloc, book)?;
    let is_calm = reclaim(alloc, book, words)?;
    let is_done = run_cpus(alloc, book, words)?;
    prove!(book.entries().len() < 1 << 63);
    Ok(is_built && is_calm && is_done)
}

// A turn of each processor. Whether none has anything more to do.
fn run_cpus<B: Backing>(
    alloc: Global,
    book: &mut MachineBook<B>,
    words: &Words,
) -> Result<bool, Memory>
    requires out_of_memory { book.old.book.out_of_memory ≡ false }
    requires words { book.old.words ≡ words.now }
    ensures run { IsSameRun book.old book.new }
    ensures rest { IfOk result (λ is_done. is_done ≡ true
        → (book.new.book ≡ book.old.book) × CpusRest book.new.book (length book.new.book.job.scripts)) }
{
    let mut is_done = true;
    for number in 0..book.cpus() {
        if !run_cpu(alloc, book, words, Cpu(number))? {
            is_done = false;
        }
    }
    Ok(is_done)
}
