//! A turn of each actor, with its work done and committed at once.

ghost use Rattle.run_rounds.specs.inner.Rests.{BuilderRests, CpuRests, IsSameRun};
ghost use Rattle.std.specs.Prelude.{◌≡◌, ◌<◌, IfOk, false, length, true};

use backing_store::backing::Backing;
use epoch_words::words::Words;
use run_book::book::{MachineBook, Turn};
use seal_record::seal::seal;
use seal_record::unseal::unseal;
use sgx_types::names::{Cpu, Memory};
use std::alloc::Global;

/// A turn of the builder. Whether it has nothing more to do.
pub(crate) fn build<B: Backing>(alloc: Global, book: &mut MachineBook<B>) -> Result<bool, Memory>
    requires { book.old.book.out_of_memory ≡ false }
    ensures run { IsSameRun book.old book.new }
    ensures rests { IfOk result (λ is_built. is_built ≡ true → (book.new.book ≡ book.old.book) × BuilderRests book.new.book) }
{
    match book.build_turn(alloc)? {
        Turn::Finished | Turn::Stopped => Ok(true),
        Turn::Did { .. } | Turn::Seal(_) | Turn::Unseal(_) | Turn::Again(_) => Ok(false),
    }
}

/// A turn of the reclaimer. Whether it has nothing more to do.
pub(crate) fn reclaim<B: Backing>(
    alloc: Global,
    book: &mut MachineBook<B>,
    words: &Words,
) -> Result<bool, Memory>
    requires out_of_memory { book.old.book.out_of_memory ≡ false }
    requires words { book.old.words ≡ words.now }
    ensures run { IsSameRun book.old book.new }
    ensures rests { IfOk result (λ is_calm. is_calm ≡ true → book.new.book ≡ book.old.book) }
{
    match book.reclaim_turn(alloc, words)? {
        Turn::Seal(work) => {
            let _ = book.commit_sealed(seal(Box::into_inner(work)));
            Ok(false)
        }
        Turn::Finished | Turn::Stopped => Ok(true),
        Turn::Did { .. } | Turn::Unseal(_) | Turn::Again(_) => Ok(false),
    }
}

/// A turn of a processor of the job. Whether it has nothing more to do.
pub(crate) fn run_cpu<B: Backing>(
    alloc: Global,
    book: &mut MachineBook<B>,
    words: &Words,
    cpu: Cpu,
) -> Result<bool, Memory>
    requires out_of_memory { book.old.book.out_of_memory ≡ false }
    requires words { book.old.words ≡ words.now }
    requires low { cpu.0 < length book.old.book.job.scripts }
    ensures run { IsSameRun book.old book.new }
    ensures rests { IfOk result (λ is_done. is_done ≡ true → (book.new.book ≡ book.old.book) × CpuRests book.new.book cpu.0) }
{
    match book.turn(alloc, words, cpu)? {
        Turn::Unseal(work) => {
            let _ = book.commit_opened(cpu, unseal(Box::into_inner(work)));
            Ok(false)
        }
        Turn::Finished | Turn::Stopped => Ok(true),
        Turn::Did { .. } | Turn::Seal(_) | Turn::Again(_) => Ok(false),
    }
}
