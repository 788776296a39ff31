//! The seats of a gate, with what each knows.

ghost use Rattle.std.specs.Prelude.{◌≡◌, ◌<◌, ◌↔◌, length, IsTrue};
ghost use Rattle.frame_gate.specs.declared.limits.TheConstants.{MOST_PAIRS};
ghost use Rattle.frame_gate.specs.inner.Words.{IsFrame, IsFree, IsHeld, IsBlocked};
ghost use Rattle.frame_gate.specs.inner.Views.{generation_of};
ghost use Rattle.frame_gate.specs.inner.Known.{word_now};

use crate::limits::MOST_PAIRS;
use crate::view::{Ledger, Pair, View, Visit, Written};
use atomic_table::Seat;
use std::marker::Model;

/// The states of a frame, bits 1 and 0 of its word.
pub(crate) const STATES: u64 = 4;

pub(crate) const FREE: u64 = 0;

pub(crate) const HELD: u64 = 1;

pub(crate) const BLOCKED: u64 = 2;

/// One processor's seat. Contracts see its gate, its visit, which frames it holds and the steps that it has made.
#[derive(Drop)]
pub struct ProcSeat {
    pub(crate) visit: Visit,
    pub(crate) pairs: Vec<Pair>,
    pub(crate) seat: Seat<(), View>,
}

impl Model for ProcSeat {
    ghost use Rattle.std.specs.Prelude.{◌≡◌, ◌≤◌, [], None, vec_capacity};
    ghost use Rattle.frame_gate.specs.declared.view.Role.TheVariants.{Processor};
    ghost use Rattle.frame_gate.specs.declared.limits.TheConstants.{MOST_ENTRIES, MOST_PAIRS};
    ghost use Rattle.frame_gate.specs.inner.Known.{ProcKnown};

    ghost Value = { ProcKnown };

    ghost view = { λ p. record { gate = p.seat.table_id; visit = p.visit; pairs = p.pairs.items; counter = p.seat.me.0.counter } };

    ghost invariant = { λ p. (p.seat.me.0.role ≡ Processor p.visit p.pairs.items) × (p.visit.entries ≤ MOST_ENTRIES)
        × (MOST_PAIRS ≤ vec_capacity p.pairs) × (p.visit.epoch ≡ None → p.pairs.items ≡ []) };
}

/// The one pager's seat. Contracts see its gate, what it knows of the epochs and of each frame, and the steps that it has
/// made.
#[derive(Drop)]
pub struct PagerSeat {
    pub(crate) ledger: Ledger,
    pub(crate) frames: Vec<Written>,
    pub(crate) seat: Seat<(), View>,
}

impl Model for PagerSeat {
    ghost use Rattle.std.specs.Prelude.{◌≡◌, ◌≤◌, ◌<◌, ◌+◌, length};
    ghost use Rattle.frame_gate.specs.declared.view.Role.TheVariants.{Pager};
    ghost use Rattle.frame_gate.specs.declared.limits.TheConstants.{LAST_EPOCH};
    ghost use Rattle.frame_gate.specs.inner.Known.{PagerKnown, AreMarked};

    ghost Value = { PagerKnown };

    ghost view = { λ p. record { gate = p.seat.table_id; ledger = p.ledger; frames = p.frames.items; counter = p.seat.me.0.counter } };

    ghost invariant = { λ p. (p.seat.me.0.role ≡ Pager p.ledger p.frames.items) × (0 < p.ledger.epoch) × (p.ledger.epoch ≤ LAST_EPOCH)
        × (3 + length p.frames.items ≡ p.seat.table_id.words) × AreMarked p.ledger.epoch p.frames.items };
}

/// The generation that the pairs have for a frame.
pub(crate) fn find_generation(pairs: &[Pair], frame: u32) -> Option<u64>
    ensures { result ≡ generation_of pairs.now frame }
{
    for pair in pairs {
        if pair.frame == frame {
            return Some(pair.generation);
        }
    }
    None
}

impl ProcSeat {
    /// The epoch in which the processor entered, where it is inside.
    pub fn epoch(&self) -> Option<u64>
        ensures { result ≡ self.now.visit.epoch }
    {
        self.visit.epoch
    }

    /// How often the seat has entered.
    pub fn entered(&self) -> u64
        ensures { result ≡ self.now.visit.entries }
    {
        self.visit.entries
    }

    /// Whether it can take a frame that it does not hold: it holds fewer than 64.
    pub fn has_room(&self) -> bool
        ensures { IsTrue result ↔ (length self.now.pairs < MOST_PAIRS) }
    {
        self.pairs.len() < MOST_PAIRS
    }

    /// The generation with which it holds a frame, where it does.
    pub fn holds(&self, frame: u32) -> Option<u64>
        ensures { result ≡ generation_of self.now.pairs frame }
    {
        find_generation(self.pairs.as_slice(), frame)
    }
}

impl PagerSeat {
    /// The present epoch.
    pub fn epoch(&self) -> u64
        ensures { result ≡ self.now.ledger.epoch }
    {
        self.ledger.epoch
    }

    /// The word of a frame: 4 times its generation, plus 0 where it is free, 1 where it is held and 2 where it is blocked.
    pub fn word(&self, frame: u32) -> u64
        requires { IsFrame self.now.gate frame }
        ensures { result ≡ word_now self.now frame }
    {
        self.frames[frame as usize].word
    }

    /// Whether a page can be placed in a frame.
    pub fn is_free(&self, frame: u32) -> bool
        requires { IsFrame self.now.gate frame }
        ensures { IsTrue result ↔ IsFree (word_now self.now frame) }
    {
        self.word(frame) % STATES == FREE
    }

    /// Whether a frame can be blocked.
    pub fn is_held(&self, frame: u32) -> bool
        requires { IsFrame self.now.gate frame }
        ensures { IsTrue result ↔ IsHeld (word_now self.now frame) }
    {
        self.word(frame) % STATES == HELD
    }

    /// Whether a frame is blocked.
    pub fn is_blocked(&self, frame: u32) -> bool
        requires { IsFrame self.now.gate frame }
        ensures { IsTrue result ↔ IsBlocked (word_now self.now frame) }
    {
        self.word(frame) % STATES == BLOCKED
    }
}
