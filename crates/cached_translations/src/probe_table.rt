//! A table that leads from page numbers to places, with linear probing.

ghost use Rattle.std.specs.Prelude.{◌≡◌, ◌<◌, ◌+◌, ◌%◌, ℕ, IfSome, IsNone, IsPermutation, length};
ghost use Rattle.cached_translations.specs.inner.Probe.{Leads, IsProbed, IsGapped, IsSlotOf, IsFree, Adds, Drops, used};

/// How many places a table has: twice as many as the pages that it leads from, so that runs stay short (this project's
/// own).
pub const SLOTS: usize = 128;

/// A place of the table that is in use: a page by its number, and where its translation stands.
#[derive(Clone, Copy)]
pub struct Slot {
    pub number: u32,
    pub place: u8,
}

/// A table that leads from a page to the place of its translation, by linear probing from the page's number on. Between a
/// page's number mod 128 and the place where it stands, around the table's end, no place is free.
#[derive(Drop)]
pub struct ProbeTable {
    pub slots: [Option<Slot>; SLOTS],
    pub ghost probed: { IsProbed slots },
}

impl ProbeTable {
    /// A table that leads from no page.
    pub fn new() -> ProbeTable
        ensures empty { (number place : ℕ) → ¬ Leads result.slots number place }
        ensures count { used result.slots ≡ 0 }
    {
        ProbeTable {
            slots: [None; SLOTS],
        }
    }

    /// Where the translation of a page stands.
    pub fn find(&self, number: u32) -> Option<u8>
        ensures found { IfSome result (λ place. Leads self.now.slots number place) }
        ensures none { IsNone result → (place : ℕ) → ¬ Leads self.now.slots number place }
    {
        let at = slot_of(&self.slots, number)?;
        let slot = self.slots[at]?;
        Some(slot.place)
    }

    /// Leads from a page that it did not lead from.
    pub fn insert(&mut self, number: u32, place: u8)
        requires absent { (other : ℕ) → ¬ Leads self.old.slots number other }
        requires room { used self.old.slots < SLOTS }
        ensures adds { Adds self.old.slots self.new.slots number place }
    {
        let at = free_slot(&self.slots, number);
        self.slots[at] = Some(Slot { number, place });
    }

    /// Leads no more from any page whose run passes a page's own place.
    pub fn forget(&mut self, number: u32)
        ensures gone { (place : ℕ) → ¬ Leads self.new.slots number place }
        ensures fewer { (n place : ℕ) → Leads self.new.slots n place → Leads self.old.slots n place }
    {
        sweep(&mut self.slots, number);
    }

    /// Leads no more from a page that it led from.
    pub fn remove(&mut self, number: u32)
        requires held { (place : ℕ) × Leads self.old.slots number place }
        requires room { used self.old.slots < SLOTS }
        ensures drops { Drops self.old.slots self.new.slots number }
    {
        if let Some(at) = slot_of(&self.slots, number) {
            self.slots[at] = None;
            close_gap(&mut self.slots, at);
        }
    }
}

// How many places past its page's own a place is, around the table's end.
fn steps_to(number: u32, at: usize) -> usize
    requires { at < SLOTS }
    ensures within { result < SLOTS }
    ensures there { (number + result) % SLOTS ≡ at }
{
    (at + SLOTS - number as usize % SLOTS) % SLOTS
}

// The place where a page stands.
fn slot_of(slots: &[Option<Slot>], number: u32) -> Option<usize>
    requires { IsProbed slots.now }
    ensures found { IfSome result (λ at. IsSlotOf slots.now at number) }
    ensures none { IsNone result → (place : ℕ) → ¬ Leads slots.now number place }
{
    for step in 0..SLOTS {
        let at = (number as usize + step) % SLOTS;
        let slot = slots[at]?;
        if slot.number == number {
            return Some(at);
        }
    }
    None
}

// The first free place of a page's run.
fn free_slot(slots: &[Option<Slot>], number: u32) -> usize
    requires whole { length slots.now ≡ SLOTS }
    requires room { used slots.now < SLOTS }
    ensures { IsFree slots.now number result }
{
    let mut step = 0;
    while slots[(number as usize + step) % SLOTS].is_some() {
        step += 1;
    }
    (number as usize + step) % SLOTS
}

// Closes the gap that a dropped page left.
fn close_gap(slots: &mut [Option<Slot>], from: usize)
    requires place { from < SLOTS }
    requires gapped { IsGapped slots.old from 0 1 }
    requires room { used slots.old + 1 < SLOTS }
    ensures probed { IsProbed slots.new }
    ensures same { IsPermutation slots.old slots.new }
{
    // The gap is `filled` places past `from`. A page stays where its run does not pass the gap; the others move into it,
    // and leave a gap of their own.
    let mut filled = 0;
    for step in 1..SLOTS {
        let at = (from + step) % SLOTS;
        let Some(slot) = slots[at] else { return };
        if steps_to(slot.number, at) >= step - filled {
            slots.swap((from + filled) % SLOTS, at);
            filled = step;
        }
    }
}

// Frees the places of a page's run from its own on, as far as they are in use.
fn sweep(slots: &mut [Option<Slot>], number: u32)
    requires { IsProbed slots.old }
    ensures probed { IsProbed slots.new }
    ensures gone { (place : ℕ) → ¬ Leads slots.new number place }
    ensures fewer { (n place : ℕ) → Leads slots.new n place → Leads slots.old n place }
{
    for step in 0..SLOTS {
        let at = (number as usize + step) % SLOTS;
        if slots[at].is_none() {
            return;
        }
        slots[at] = None;
    }
}
