//! Where the pages are that an actor needs.

ghost use Rattle.std.specs.Prelude.{◌≡◌, length, map};
ghost use Rattle.due_tables.specs.inner.Asked.{frame_by, frame_seen, last_save_of, next_save_of, standing_seen};
ghost use Rattle.due_tables.specs.inner.TcsTurns.{rows, tcs_at};

use crate::turns::Turns;
use driver_list::page_states::{PageState, PageStates};
use driver_tables::driver::Driver;
use sgx_types::names::{Frame, Page};

impl Turns {
    /// The frame of a page that is here.
    pub(crate) fn frame(&self, driver: &Driver, page: Page) -> Option<Frame>
        requires { map length self.now.tcs ≡ rows driver.now.states.counts }
        ensures { result ≡ frame_seen driver.now self.now page }
    {
        self.frame_by(&driver.states, page)
    }

    /// .. by the states of pages.
    pub(crate) fn frame_by(&self, states: &PageStates, page: Page) -> Option<Frame>
        requires { map length self.now.tcs ≡ rows states.now.counts }
        ensures { result ≡ frame_by states.now self.now page }
    {
        if !self.tcs.has_place(page) {
            return None;
        }
        match states.state(page) {
            PageState::Here(frame) => Some(frame),
            _ => None,
        }
    }

    /// The frame of a page that is here, or on its way out.
    pub(crate) fn standing(&self, driver: &Driver, page: Page) -> Option<Frame>
        requires { map length self.now.tcs ≡ rows driver.now.states.counts }
        ensures { result ≡ standing_seen driver.now self.now page }
    {
        if !self.tcs.has_place(page) {
            return None;
        }
        match driver.states.state(page) {
            PageState::Here(frame) | PageState::Leaving(frame) => Some(frame),
            _ => None,
        }
    }

    /// The state save page that an entry by a TCS page takes, None where all are in use.
    pub fn next_save(&self, tcs: Page) -> Option<Page>
        ensures { result ≡ next_save_of tcs.enclave (tcs_at self.now.tcs tcs) }
    {
        let turn = self.tcs.get(tcs)?;
        if turn.saved >= u64::from(turn.nssa) {
            return None;
        }
        let number = ((u64::from(turn.ossa) + turn.saved) % (1 << 32)) as u32;
        Some(Page {
            enclave: tcs.enclave,
            number,
        })
    }

    /// The state save page of a TCS page that was used last, None where none is in use. No more are in use than there are.
    pub fn last_save(&self, tcs: Page) -> Option<Page>
        ensures { result ≡ last_save_of tcs.enclave (tcs_at self.now.tcs tcs) }
    {
        let turn = self.tcs.get(tcs)?;
        if turn.saved == 0 {
            return None;
        }
        let last = turn.saved.min(u64::from(turn.nssa)).saturating_sub(1);
        let number = ((u64::from(turn.ossa) + last) % (1 << 32)) as u32;
        Some(Page {
            enclave: tcs.enclave,
            number,
        })
    }
}
