//! The slots of one version array page that are handed out.

ghost use Rattle.std.specs.Prelude.{◌≡◌, ◌≢◌, ◌+◌, ◌<◌, ◌≤◌, ◌==◌, ℕ, true, false, slice_set, position, nat_le, count_by};
ghost use Rattle.std.specs.Prelude.{slice_index_or, length};
ghost use Rattle.driver_slots.specs.inner.Keeper.{all_free, ArrayView, free_of, is_free_at};

use free_map::map::FreeMap;
use sgx_types::names::SLOTS;
use std::marker::Model;

/// The slots of a version array page that are handed out: those from its first one on. One that was taken is out until it is given
/// back.
#[derive(Drop)]
pub(crate) struct ArraySlots {
    va: u32,
    first: u16,
    free: FreeMap,
}

impl Model for ArraySlots {
    ghost use Rattle.driver_slots.specs.inner.Keeper.{ArrayView};

    ghost Value = { ArrayView };

    ghost use Rattle.driver_slots.specs.inner.KeeperKept.{array_of, IsArrayKept};

    ghost view = { array_of };

    ghost invariant = { IsArrayKept };
}

impl ArraySlots {
    /// The slots of a page from one on, none of which is out, in a map of all 512.
    pub(crate) fn new(va: u32, first: u16, all: FreeMap) -> ArraySlots
        requires within { first ≤ 512 }
        requires all { all ≡ all_free }
        ensures va { result.va ≡ va }
        ensures first { result.first ≡ first }
        ensures free { (index : ℕ) → index < 512 → is_free_at result index ≡ nat_le first index }
        ensures counted { free_of result + first ≡ 512 }
        ensures sized { length result.free ≡ 512 }
    {
        let mut free = all;
        for index in 0..u32::from(first) {
            free.update(index, true, false);
        }
        ArraySlots { va, first, free }
    }

    /// The page's number.
    pub(crate) fn va(&self) -> u32
        ensures { result ≡ self.now.va }
    {
        self.va
    }

    /// Whether each of these slots is out.
    pub(crate) fn is_full(&self) -> bool
        ensures { result ≡ (free_of self.now == 0) }
    {
        self.free.count() == 0
    }

    /// Takes the least slot that is not out.
    pub(crate) fn take_least(&mut self) -> u16
        requires { (free_of self.old == 0) ≡ false }
        ensures least { position (λ b. b) self.old.free ≡ Some result }
        ensures new { self.new ≡ record self.old { free = slice_set self.old.free result false } }
    {
        let Some(index) = self.free.first() else {
            unreachable!();
        };
        self.free.update(index, true, false);
        index as u16
    }

    /// Takes a slot that is not out.
    pub(crate) fn take_at(&mut self, index: u16)
        requires within { index < 512 }
        requires free { is_free_at self.old index ≡ true }
        ensures { self.new ≡ record self.old { free = slice_set self.old.free index false } }
    {
        self.free.update(u32::from(index), true, false);
    }

    /// Gives back a slot that is out.
    pub(crate) fn give(&mut self, index: u16)
        requires within { index < 512 }
        requires first { self.old.first ≤ index }
        requires out { is_free_at self.old index ≡ false }
        ensures { self.new ≡ record self.old { free = slice_set self.old.free index true } }
    {
        self.free.update(u32::from(index), false, true);
    }
}
