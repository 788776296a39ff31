//! A gate at which two processors wait for each other.

ghost use Rattle.std.specs.Prelude.{◌<◌};

use audit_check::watch::Watch;
use run_crew::gate::Gate;
use sgx_types::names::{Actor, Cpu};
use std::sync::atomic::{AtomicU64, Ordering};

/// Holds the first turns of processors 0 and 1, each until the other came too.
#[derive(Drop)]
pub struct Meeting {
    /// Who of them came.
    pub came: [AtomicU64; 2],
    /// Who gave up.
    pub late: AtomicU64,
    /// How many workers are between the two calls of the gate.
    pub inside: AtomicU64,
}

impl Meeting {
    pub fn new() -> Meeting {
        Meeting {
            came: [AtomicU64::new(0), AtomicU64::new(0)],
            late: AtomicU64::new(0),
            inside: AtomicU64::new(0),
        }
    }

    /// Whether each of the two came, whether one gave up, and how many are inside.
    pub fn counts(&self) -> [u64; 4] {
        [
            self.came[0].load(Ordering::SeqCst),
            self.came[1].load(Ordering::SeqCst),
            self.late.load(Ordering::SeqCst),
            self.inside.load(Ordering::SeqCst),
        ]
    }

    fn meet(&self, me: usize, other: usize)
        requires { (me < 2) × (other < 2) }
    {
        self.came[me].store(1, Ordering::SeqCst);
        for _ in 0..1_000_000_000u64 {
            if self.came[other].load(Ordering::SeqCst) == 1 {
                return;
            }
        }
        self.late.store(1, Ordering::SeqCst);
    }
}

impl Gate for Meeting {
    fn before_turn(&self, who: Actor) {
        self.inside.fetch_add(1, Ordering::SeqCst);
        match who {
            Actor::Cpu(Cpu(0)) => self.meet(0, 1),
            Actor::Cpu(Cpu(1)) => self.meet(1, 0),
            _ => {}
        }
    }

    fn after_turn(&self, _who: Actor) {
        self.inside.fetch_sub(1, Ordering::SeqCst);
    }
}

impl Watch for Meeting {
    fn judging(&self, _place: usize) {}
}
