//! What is told on standard error of a long command while it goes on.

use audit_check::watch::Watch;
use run_crew::gate::Gate;
use sgx_types::names::Actor;
use std::io::Eprint;
use std::sync::atomic::{AtomicU64, Ordering};

// Something is told behind so many turns or entries.
const EACH: u64 = 1 << 18;

/// Tells of a run how many turns its workers took, and of a trace that is judged how many of its entries were: a line at each 2^18th, as
/// `sgxpage: 262144 turns`. Most turns make an entry. This project's own.
#[derive(Drop)]
pub struct Progress<'a, E: Eprint> {
    to: &'a E,
    turns: AtomicU64,
}

impl<'a, E: Eprint> Progress<'a, E> {
    pub fn new(to: &'a E) -> Self {
        Progress {
            to,
            turns: AtomicU64::new(0),
        }
    }
}

impl<E: Eprint> Gate for Progress<'_, E> {
    fn before_turn(&self, _who: Actor) {}

    fn after_turn(&self, _who: Actor) {
        let turns = self.turns.fetch_add(1, Ordering::SeqCst).wrapping_add(1);
        if turns % EACH == 0 {
            // A run goes on where nothing can be told.
            let _ = eprintln!(self.to; "sgxpage: {turns} turns");
        }
    }
}

impl<E: Eprint> Watch for Progress<'_, E> {
    fn judging(&self, place: usize) {
        let place = place as u64;
        if place > 0 && place % EACH == 0 {
            let _ = eprintln!(self.to; "sgxpage: {place} entries");
        }
    }
}
