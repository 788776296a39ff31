//! How a worker takes the lock.

use crate::locked::{Locked, Run};
use crate::waiting::Made;
use backing_store::backing::Backing;
use std::hint::spin_loop;
use std::sync::{Mutex, MutexGuard, Wait};

// How often a worker that finds the lock taken tries, before it looks at what the others make.
const TRIES: u32 = 4;

// How many pauses it makes between two tries.
const PAUSES: u32 = 16;

// How often it looks before it sleeps even where the others make nothing: whoever holds the lock was put aside, or takes long.
const LOOKS: u32 = 32;

/// Takes the lock. It is left for a while to whoever makes turn after turn: each time that it goes from hand to hand costs more than a
/// turn. Nobody sleeps here at the lock itself, for then whoever frees it has to wake the sleeper, who finds it taken again.
pub(crate) fn take<'b, R: Wait, B: Backing, N: Run>(
    rt: &R,
    shared: &'b Mutex<Locked<B, N>>,
    made: &Made,
) -> MutexGuard<'b, Locked<B, N>> {
    let mut looks: u32 = 0;
    let mut naps: u32 = 0;
    for _ in rt.forever() {
        let before = made.turns();
        if let Some(guard) = tried(shared) {
            return guard;
        }
        looks = looks.saturating_add(1);
        if looks > LOOKS || made.turns() != before {
            made.nap(rt, naps);
            naps = naps.saturating_add(1);
        }
    }
    unreachable!()
}

// The lock, where it is free at one of some moments.
fn tried<B: Backing, N: Run>(shared: &Mutex<Locked<B, N>>) -> Option<MutexGuard<'_, Locked<B, N>>> {
    for _ in 0..TRIES {
        if let Some(guard) = shared.try_lock() {
            return Some(guard);
        }
        for _ in 0..PAUSES {
            spin_loop();
        }
    }
    None
}
