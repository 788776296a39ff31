//! Which page is brought back first, and which slots pages have.

ghost use Rattle.std.specs.Prelude.{◌≡◌, ◌+◌, ◌<◌, ◌^◌, true};
ghost use Rattle.sgx_types.specs.Pages.{is_own_page, is_va_page, secs_page, va_page};
ghost use Rattle.driver_list.specs.inner.Places.{IsPlaced};
ghost use Rattle.driver_tables.specs.inner.Targets.{first_in, fixed_in, is_here_in, slot_here_in, target_in};

use crate::driver::Driver;
use crate::moves::is_own_page;
use driver_list::page_states::PageState;
use sgx_types::names::{Page, SECS_NUMBER, SlotAt, VaSlot};

impl Driver {
    /// The page that is brought back first for a page that is away in this slot. For a TCS or REG page it is its SECS where that is not
    /// here, and else the version array page of the slot where that is not here. In every other case it is the page itself.
    pub fn target(&self, page: Page, slot: VaSlot) -> Page
        requires secs { is_own_page page ≡ true → IsPlaced self.now.states.counts (secs_page page.enclave) }
        requires array { is_own_page page ≡ true → IsPlaced self.now.states.counts (va_page slot.va) }
        ensures { result ≡ target_in self.now page slot }
    {
        if !is_own_page(page) {
            return page;
        }
        let secs = Page {
            enclave: page.enclave,
            number: SECS_NUMBER,
        };
        if !self.is_here(secs) {
            return secs;
        }
        let array = Page {
            enclave: 0,
            number: slot.va,
        };
        if !self.is_here(array) {
            return array;
        }
        page
    }

    /// Whether a page is in a frame, and not on its way out.
    pub fn is_here(&self, page: Page) -> bool
        requires placed { IsPlaced self.now.states.counts page }
        ensures { result ≡ is_here_in self.now.states page }
    {
        matches!(self.states.state(page), PageState::Here(_))
    }

    /// A slot as instructions name it, by the frame in which its version array page is. None where that page is not here.
    pub fn slot_here(&self, slot: VaSlot) -> Option<SlotAt>
        requires placed { IsPlaced self.now.states.counts (va_page slot.va) }
        ensures { result ≡ slot_here_in self.now slot }
    {
        let array = Page {
            enclave: 0,
            number: slot.va,
        };
        match self.states.state(array) {
            PageState::Here(frame) => Some(SlotAt {
                frame,
                index: slot.index,
            }),
            _ => None,
        }
    }

    /// The slot of a SECS or of a version array page, into which no other page goes out. All are in version array page 0: first those of
    /// the SECSs, and then those of the version array pages.
    pub fn fixed(&self, page: Page) -> VaSlot
        requires few { is_va_page page ≡ true → self.now.enclaves + page.number < 2 ^ 16 }
        ensures { result ≡ fixed_in self.now page }
    {
        if page.enclave == 0 {
            return VaSlot {
                va: 0,
                index: self.enclaves + page.number as u16,
            };
        }
        VaSlot {
            va: 0,
            index: page.enclave - 1,
        }
    }

    /// The first slot of a version array page, by its number, that is for TCS and REG pages. In page 0 it stands behind the slots of the
    /// SECSs and of the version array pages.
    pub fn first_slot(&self, va: u32) -> u16
        requires few { self.now.enclaves + self.now.va_pages < 2 ^ 16 }
        ensures { result ≡ first_in self.now va }
    {
        if va == 0 {
            return self.enclaves + self.va_pages as u16;
        }
        0
    }
}
