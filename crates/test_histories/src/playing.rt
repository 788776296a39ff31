//! Traces that are played turn by turn.

use crate::turning::{Work, open_in, seal_out};
use backing_store::planned_store::PlannedStore;
use run_course::book::Book;
use sgx_rules::entries::Entry;
use sgx_types::names::{Actor, Cpu, Memory};
use std::alloc::Global;

/// How many of these entries, from the first on, a book makes where the actor of each has its turn.
pub fn play(
    alloc: Global,
    book: &mut Book<PlannedStore>,
    entries: &[Entry],
) -> Result<usize, Memory> {
    for (at, entry) in entries.iter().enumerate() {
        if !makes(alloc, book, at, entry)? {
            return Ok(at);
        }
    }
    Ok(entries.len())
}

// Whether a book has this entry at a place, once its actor had its turn. A turn of kicks that finds nobody to kick makes none, so there
// may be a second one.
fn makes(
    alloc: Global,
    book: &mut Book<PlannedStore>,
    at: usize,
    entry: &Entry,
) -> Result<bool, Memory> {
    for _ in 0..2 {
        if book.entries().len() <= at {
            take_turn(alloc, book, entry.actor)?;
        }
    }
    match book.entries().get(at) {
        Some(made) => Ok(*made == *entry),
        None => Ok(false),
    }
}

fn take_turn(alloc: Global, book: &mut Book<PlannedStore>, actor: Actor) -> Result<(), Memory> {
    match actor {
        Actor::Builder => build(alloc, book),
        Actor::Reclaimer => reclaim(alloc, book),
        Actor::Cpu(cpu) => go_on(alloc, book, cpu),
    }
}

fn build(alloc: Global, book: &mut Book<PlannedStore>) -> Result<(), Memory> {
    let _ = book.build_turn(alloc)?;
    Ok(())
}

// A turn of the reclaimer; where it finds a write-out that has started, the end of it.
fn reclaim(alloc: Global, book: &mut Book<PlannedStore>) -> Result<(), Memory> {
    let before = book.entries().len();
    let turn = book.reclaim_turn(alloc)?;
    if book.entries().len() == before {
        seal_out(book, turn, Work::Given);
    }
    Ok(())
}

// A turn of a processor; where it finds a load that has started, the end of it.
fn go_on(alloc: Global, book: &mut Book<PlannedStore>, cpu: Cpu) -> Result<(), Memory> {
    if usize::from(cpu.0) >= book.job().scripts().len() {
        return Ok(());
    }
    let before = book.entries().len();
    let turn = book.turn(alloc, cpu)?;
    if book.entries().len() == before {
        open_in(book, cpu, turn, Work::Given);
    }
    Ok(())
}
