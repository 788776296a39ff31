//! What each kind of entry changes in the driver's tables.

ghost use Rattle.std.specs.Prelude.{◌≡◌, ◌<◌, ◌≤◌, true, false, Some, length};
ghost use Rattle.sgx_types.specs.Pages.{is_own_page, va_page};
ghost use Rattle.driver_list.specs.inner.Active.{pushed};
ghost use Rattle.driver_list.specs.inner.Listing.{head_of};
ghost use Rattle.driver_list.specs.inner.Places.{IsPlaced};
ghost use Rattle.driver_list.specs.inner.Ring.{is_listed};
ghost use Rattle.driver_list.specs.inner.States.{state_of, with_state};
ghost use Rattle.driver_list.specs.declared.page_states.PageState.TheVariants as states;
ghost use Rattle.sgx_rules.specs.declared.entries.Look.TheVariants as looks;
ghost use Rattle.driver_slots.specs.inner.Keeper.{is_added, is_out};
ghost use Rattle.driver_tables.specs.inner.Moves.{IsLooked, IsLookedAside, IsLoaded, frame_in, gone, leaving_of, slot_away};
ghost use Rattle.driver_tables.specs.inner.Moves.{HasArray, with_here, with_leaving, with_load};

use crate::driver::Driver;
use driver_list::page_states::PageState;
use sgx_rules::entries::Look;
use sgx_types::names::{Cpu, Frame, Page, SECS_NUMBER, VaSlot};
use sgx_types::record::Record;

impl Driver {
    /// A TCS or REG page was added in a frame: it is here, and listed as the last, not young.
    pub fn add(&mut self, page: Page, frame: Frame)
        requires placed { IsPlaced self.old.active.counts page }
        requires absent { is_listed self.old.active.pages page ≡ false }
        requires counts { self.old.states.counts ≡ self.old.active.counts }
        ensures { self.new ≡ record self.old {
          active = pushed self.old.active page;
          states = with_state self.old.states page
              (states.Here frame);
        } }
    {
        self.active.push_back(page);
        self.arrive(page, frame);
    }

    /// A version array page was made in a frame: it is here, and its slots from one on can be taken. None of them is out.
    pub fn add_array(&mut self, va: u32, first: u16, frame: Frame)
        requires placed { IsPlaced self.old.states.counts (va_page va) }
        requires room { length self.old.slots.arrays < self.old.slots.room }
        requires fresh { is_added self.old.slots va ≡ false }
        requires within { first ≤ 512 }
        ensures { HasArray self.old va first frame self.new }
    {
        let array = Page {
            enclave: 0,
            number: va,
        };
        self.arrive(array, frame);
        self.slots.add(va, first);
    }

    /// A SECS or a version array page is in a frame: the SECS was made there, or the page came back. The list and the slots are left as
    /// they are.
    pub fn arrive(&mut self, page: Page, frame: Frame)
        requires placed { IsPlaced self.old.states.counts page }
        ensures { self.new ≡ with_here self.old page frame }
    {
        self.states.set_state(page, PageState::Here(frame));
    }

    /// The page at the head of the list was looked at: one that was taken leaves the list and its frame, another one goes to the
    /// tail, where it is not young.
    pub fn look(&mut self, page: Page, look: Look)
        requires head { head_of self.old.active.pages ≡ Some page }
        requires placed { IsPlaced self.old.active.counts page }
        requires counts { self.old.states.counts ≡ self.old.active.counts }
        ensures { IsLooked self.old page look self.new }
    {
        match look {
            Look::Taken => self.take(page),
            Look::Held | Look::Young | Look::NoRoom => self.active.to_tail(),
        }
    }

    // Takes the head off the list.
    fn take(&mut self, page: Page)
        requires head { head_of self.old.active.pages ≡ Some page }
        requires placed { IsPlaced self.old.active.counts page }
        requires counts { self.old.states.counts ≡ self.old.active.counts }
        ensures { IsLooked self.old page looks.Taken self.new }
    {
        let _ = self.active.remove_head();
        self.leave(page);
    }

    /// A SECS or a version array page was looked at, which no list has: one that was taken leaves its frame, and another look changes
    /// nothing.
    pub fn look_aside(&mut self, page: Page, look: Look)
        requires placed { IsPlaced self.old.states.counts page }
        ensures { IsLookedAside self.old page look self.new }
    {
        match look {
            Look::Taken => self.leave(page),
            Look::Held | Look::Young | Look::NoRoom => {}
        }
    }

    // A page that was taken is in its frame until it is written out.
    fn leave(&mut self, page: Page)
        requires placed { IsPlaced self.old.states.counts page }
        ensures { self.new ≡ with_leaving self.old page }
    {
        let state = leaving(self.states.state(page));
        self.states.set_state(page, state);
    }

    /// A page, of any kind, has gone out of its frame: it is away in a slot, or lost where the store did not take its record. The slots
    /// are left as they are: that of a TCS or REG page is out since its write-out started.
    pub fn evict(&mut self, page: Page, slot: VaSlot, is_lost: bool)
        requires placed { IsPlaced self.old.states.counts page }
        ensures { self.new ≡ record self.old { states = with_state self.old.states page (gone slot is_lost) } }
    {
        self.states.set_state(page, gone(slot, is_lost));
    }

    /// A processor's load of a page, of any kind, has started from its slot into a frame: the page is loading, and the record that the
    /// load looks at is kept for the processor.
    pub fn start_load(&mut self, cpu: Cpu, page: Page, slot: VaSlot, frame: Frame, rec: &Record)
        requires room { cpu.0 < length self.old.kept }
        requires placed { IsPlaced self.old.states.counts page }
        ensures { self.new ≡ with_load self.old cpu page slot frame rec.now }
    {
        self.states.set_state(page, PageState::Loading(frame, slot));
        self.kept.keep(cpu, page, rec);
    }

    /// A TCS or REG page came back into a frame from its slot: it is here, listed as the last and not young, and the slot is out no more.
    pub fn load(&mut self, page: Page, frame: Frame, slot: VaSlot)
        requires placed { IsPlaced self.old.active.counts page }
        requires absent { is_listed self.old.active.pages page ≡ false }
        requires counts { self.old.states.counts ≡ self.old.active.counts }
        requires out { is_out self.old.slots slot ≡ true }
        ensures { IsLoaded self.old page frame slot self.new }
    {
        self.add(page, frame);
        self.slots.give(slot);
    }

    /// The load of a page, of any kind, was refused: it is away in the slot from which it was to come.
    pub fn load_refused(&mut self, page: Page)
        requires placed { IsPlaced self.old.states.counts page }
        ensures { self.new ≡ record self.old { states = with_state self.old.states page (slot_away (state_of self.old.states page)) } }
    {
        let state = match self.states.state(page) {
            PageState::Loading(_, slot) => PageState::Away(slot),
            state => state,
        };
        self.states.set_state(page, state);
    }
}

// The state of a page that is taken.
fn leaving(state: PageState) -> PageState
    ensures { result ≡ leaving_of state }
{
    match state {
        PageState::Here(frame) => PageState::Leaving(frame),
        _ => state,
    }
}

// The state of a page that has gone out.
fn gone(slot: VaSlot, is_lost: bool) -> PageState
    ensures { result ≡ gone slot is_lost }
{
    if is_lost {
        return PageState::Lost(slot);
    }
    PageState::Away(slot)
}

/// The frame of a page that stands in one. That of any other page is told as frame 0.
pub fn frame_in(state: PageState) -> Frame
    ensures { result ≡ frame_in state }
{
    match state {
        PageState::Here(frame) | PageState::Leaving(frame) => frame,
        _ => Frame(0),
    }
}

/// Whether a page is a TCS or REG page by its name, and so one that is listed where it is here. The others are SECSs and version array
/// pages.
pub fn is_own_page(page: Page) -> bool
    ensures { result ≡ is_own_page page }
{
    page.enclave != 0 && page.number != SECS_NUMBER
}
