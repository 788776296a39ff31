//! Which slots of version array pages are in use.

ghost use Rattle.std.specs.Prelude.{◌≡◌, ◌+◌, ◌<◌, ◌≤◌, ◌==◌, ℕ, List, true, false, length, nat_lt, get_or, IfOk, IfSome, IfNone};
ghost use Rattle.std.specs.Prelude.{is_some, Some, Option};
ghost use Rattle.std.specs.List.{find};
ghost use Rattle.driver_slots.specs.inner.Keeper.{Adds, AllOut, ArrayView, count_all, count_out, free_of, Gives, is_added, is_full};
ghost use Rattle.driver_slots.specs.inner.Keeper.{is_of, is_ours, is_out, IsLeast, new_keeper, Takes};
ghost use Rattle.driver_slots.specs.inner.Least.{IsLeastBelow};

use crate::array_slots::ArraySlots;
use free_map::map::FreeMap;
use sgx_types::names::{Memory, SLOTS, VaSlot};
use std::alloc::Global;
use std::marker::Model;

/// Which slots of version array pages are in use: it hands them out, each to one user at a time, the least first. A slot that was taken
/// is out until it is given back. Only `new` takes memory, and each other call looks at each page once at most, and at one machine word
/// for 64 slots of one page.
#[derive(Drop)]
pub struct SlotKeeper {
    // The pages that were added, in their order.
    arrays: Vec<ArraySlots>,
    // A map of all slots for each page that can still be added.
    maps: Vec<FreeMap>,
}

impl Model for SlotKeeper {
    ghost use Rattle.driver_slots.specs.inner.Keeper.{Keeper};

    ghost Value = { Keeper };

    ghost use Rattle.driver_slots.specs.inner.KeeperKept.{keeper_of, IsKeeperKept};

    ghost view = { keeper_of };

    ghost invariant = { IsKeeperKept };
}

impl SlotKeeper {
    /// A keeper without slots, with room for those of so many version array pages.
    pub fn new(alloc: Global, pages: u32) -> Result<SlotKeeper, Memory>
        ensures { IfOk result (λ keeper. keeper ≡ new_keeper pages) }
    {
        let arrays = Vec::with_capacity(alloc, pages as usize)?;
        let mut maps = Vec::with_capacity(alloc, pages as usize)?;
        for _ in 0..pages {
            maps.push_reserved(FreeMap::full(alloc, u32::from(SLOTS))?);
        }
        Ok(SlotKeeper { arrays, maps })
    }

    /// Adds the slots of a version array page, by its number, from one on. None of them is out.
    pub fn add(&mut self, va: u32, first: u16)
        requires room { length self.old.arrays < self.old.room }
        requires fresh { is_added self.old va ≡ false }
        requires within { first ≤ 512 }
        ensures { Adds self.old va first self.new }
    {
        let Some(all) = self.maps.pop() else {
            unreachable!();
        };
        self.arrays.push_reserved(ArraySlots::new(va, first, all));
    }

    /// Takes the least slot that is not out, by page and then by index. It is out from then on. None where all are out.
    pub fn take(&mut self) -> Option<VaSlot>
        ensures answer { is_some result ≡ nat_lt (count_out self.old) (count_all self.old) }
        ensures taken { IfSome result (λ slot. Takes self.old slot self.new) }
        ensures least { IfSome result (IsLeast self.old) }
        ensures none { IfNone result (AllOut self.old) }
        ensures same { IfNone result (self.new ≡ self.old) }
    {
        let place = least_with_room(&self.arrays)?;
        let array = &mut self.arrays[place];
        let va = array.va();
        let index = array.take_least();
        Some(VaSlot { va, index })
    }

    /// Takes this slot, which is not out.
    pub fn take_at(&mut self, at: VaSlot)
        requires ours { is_ours self.old at ≡ true }
        requires free { is_out self.old at ≡ false }
        ensures { Takes self.old at self.new }
    {
        let place = place_of(&self.arrays, at.va);
        self.arrays[place].take_at(at.index);
    }

    /// Gives a slot back, which is out no more.
    pub fn give(&mut self, at: VaSlot)
        requires { is_out self.old at ≡ true }
        ensures { Gives self.old at self.new }
    {
        let place = place_of(&self.arrays, at.va);
        self.arrays[place].give(at.index);
    }

    /// Whether no slot of a page can be taken, where the page was added: each of its slots from its first one on is out.
    pub fn is_full(&self, va: u32) -> bool
        requires { is_added self.now va ≡ true }
        ensures { result ≡ is_full self.now va }
    {
        self.arrays[place_of(&self.arrays, va)].is_full()
    }
}

// The place of a page.
fn place_of(arrays: &[ArraySlots], va: u32) -> usize
    requires { is_some (find (is_of va) arrays.now) ≡ true }
    ensures within { result < length arrays.now }
    ensures there { (d : ArrayView) → find (is_of va) arrays.now ≡ Some (get_or arrays.now result d) }
{
    for (place, array) in arrays.iter().enumerate() {
        if array.va() == va {
            return place;
        }
    }
    unreachable!()
}

// The place of the page with the least number of those that have a slot that is not out.
fn least_with_room(arrays: &[ArraySlots]) -> Option<usize>
    ensures { IsLeastBelow arrays.now result (length arrays.now) }
{
    let mut least = None;
    for place in 0..arrays.len() {
        least = least_of(arrays, least, place);
    }
    least
}

// .. of the places before this one and this one.
fn least_of(arrays: &[ArraySlots], least: Option<usize>, place: usize) -> Option<usize>
    requires within { place < length arrays.now }
    requires least { IsLeastBelow arrays.now least place }
    ensures { IsLeastBelow arrays.now result (place + 1) }
{
    if arrays[place].is_full() {
        return least;
    }
    let Some(other) = least else {
        return Some(place);
    };
    if arrays[place].va() < arrays[other].va() {
        return Some(place);
    }
    Some(other)
}
