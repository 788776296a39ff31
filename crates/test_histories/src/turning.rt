//! Rounds of turns on one thread.

ghost use Rattle.std.specs.Prelude.{◌<◌, length};

use backing_store::planned_store::PlannedStore;
use run_course::book::Book;
use run_course::turn::Turn;
use seal_record::seal::{SealWork, seal};
use seal_record::unseal::{UnsealWork, unseal};
use sgx_types::names::{Cpu, Memory};
use std::alloc::Global;

// So many rounds are enough for each of these jobs.
const ROUNDS: u32 = 10_000;

// No job has more processors.
const MOST_CPUS: u8 = 16;

/// How the work between a start and its end is done.
#[derive(Clone, Copy, Debug, PartialEq, Eq)]
pub enum Work {
    /// As it was given.
    Given,

    /// Over zeros. The book does not trust it.
    Zeros,
}

/// Takes rounds of turns, with their work done at once, until one in which nobody has anything more to do, or the run is stopped.
pub fn run(alloc: Global, book: &mut Book<PlannedStore>, how: Work) -> Result<(), Memory> {
    for _ in 0..ROUNDS {
        if is_last_round(alloc, book, how)? {
            return Ok(());
        }
    }
    Ok(())
}

// One round: the builder, the reclaimer, each processor.
fn is_last_round(alloc: Global, book: &mut Book<PlannedStore>, how: Work) -> Result<bool, Memory> {
    let mut is_last = is_built(book.build_turn(alloc)?);
    reclaim(alloc, book, how)?;
    for number in 0..MOST_CPUS {
        if goes_on(alloc, book, Cpu(number), how)? {
            is_last = false;
        }
    }
    Ok(is_last)
}

// Whether the builder has nothing more to do.
fn is_built(turn: Turn) -> bool {
    matches!(turn, Turn::Finished | Turn::Stopped)
}

// A turn of a processor, with its work. Whether it had something to do: one that the job has not has nothing.
fn goes_on(
    alloc: Global,
    book: &mut Book<PlannedStore>,
    cpu: Cpu,
    how: Work,
) -> Result<bool, Memory> {
    if usize::from(cpu.0) >= book.job().scripts().len() {
        return Ok(false);
    }
    let turn = book.turn(alloc, cpu)?;
    let goes_on = !matches!(turn, Turn::Finished | Turn::Stopped);
    open_in(book, cpu, turn, how);
    Ok(goes_on)
}

/// Ends the load of a processor of the job, where the answer of its turn is one that has started.
pub fn open_in(book: &mut Book<PlannedStore>, cpu: Cpu, turn: Turn, how: Work)
    requires { cpu.0 < length book.old.job.scripts }
{
    if let Turn::Unseal(work) = turn {
        let _ = book.commit_opened(cpu, unseal(opened(Box::into_inner(work), how)));
    }
}

// A turn of the reclaimer.
fn reclaim(alloc: Global, book: &mut Book<PlannedStore>, how: Work) -> Result<(), Memory> {
    let turn = book.reclaim_turn(alloc)?;
    seal_out(book, turn, how);
    Ok(())
}

/// Ends the write-out, where the answer of a turn is one that has started.
pub fn seal_out(book: &mut Book<PlannedStore>, turn: Turn, how: Work) {
    if let Turn::Seal(work) = turn {
        let _ = book.commit_sealed(seal(sealed(Box::into_inner(work), how)));
    }
}

fn opened(work: UnsealWork, how: Work) -> UnsealWork {
    if how == Work::Given {
        return work;
    }
    let mut work = work;
    for byte in &mut work.rec.cipher {
        *byte = 0;
    }
    work
}

fn sealed(work: SealWork, how: Work) -> SealWork {
    if how == Work::Given {
        return work;
    }
    let mut work = work;
    for byte in &mut work.plain {
        *byte = 0;
    }
    work
}
