//! What became of each page of a job.

ghost use Rattle.std.specs.Prelude.{◌≡◌, ◌+◌, ◌<◌, ◌≤◌, ◌^◌, length, sum, IfOk};
ghost use Rattle.driver_list.specs.inner.Places.{IsPlaced, total};
ghost use Rattle.driver_list.specs.inner.States.{all_absent, state_of, with_state};

use crate::places::Places;
use sgx_types::names::{Frame, Memory, Page, VaSlot};
use std::alloc::Global;
use std::marker::Model;

/// What became of a page (this project's own). A page that was written out has a slot of a version array page, where the version of its
/// last write-out stands, wherever that page itself is.
#[derive(Clone, Copy, Debug, PartialEq, Eq)]
pub enum PageState {
    /// No frame has held the page.
    Absent,
    /// The page is in a frame.
    Here(Frame),
    /// The page was taken to be written out, and is in its frame until then.
    Leaving(Frame),
    /// Its load into a frame has started. If the load is refused, the page is away in this slot again.
    Loading(Frame, VaSlot),
    /// The page was written out.
    Away(VaSlot),
    /// The page was written out, and the store did not take its record.
    Lost(VaSlot),
}

/// The state of each page of a job: of its TCS and REG pages, of the SECS of each enclave, and of its version array pages (this project's
/// own). Only `new` takes memory.
#[derive(Drop)]
pub struct PageStates {
    places: Places,
    states: Vec<PageState>,
}

impl Model for PageStates {
    ghost use Rattle.driver_list.specs.inner.States.{StateTable};

    ghost Value = { StateTable };

    ghost use Rattle.driver_list.specs.inner.KeptStates.{table_of, AreStatesKept};

    ghost view = { table_of };

    ghost invariant = { AreStatesKept };
}

impl PageStates {
    /// Each page of the job, all absent. `counts` tells how many TCS and REG pages each enclave has, from enclave 1 on, of at most 8
    /// enclaves. `arrays` tells how many version array pages there are, at most 9. With the SECSs they are at most 2^32 - 1 pages in all.
    /// The error says that memory was refused.
    pub fn new(alloc: Global, counts: &[u32], arrays: u32) -> Result<PageStates, Memory>
        requires enclaves { length counts.now ≤ 8 }
        requires arrays { arrays ≤ 9 }
        requires pages { length counts.now + arrays + sum counts.now < 2 ^ 32 }
        ensures { IfOk result (λ states. states ≡ all_absent (record { own = counts.now; arrays = arrays })) }
    {
        let places = Places::new(alloc, counts, arrays)?;
        let total = places.total();
        Ok(PageStates {
            places,
            states: vec![in alloc; PageState::Absent; total]?,
        })
    }

    /// The state of a page of the job.
    pub fn state(&self, page: Page) -> PageState
        requires { IsPlaced self.now.counts page }
        ensures value { result ≡ state_of self.now page }
        ensures sized { length self.now.states ≡ total self.now.counts }
    {
        self.states[self.places.place(page)]
    }

    /// Gives a page of the job another state. Those of the others stay.
    pub fn set_state(&mut self, page: Page, state: PageState)
        requires { IsPlaced self.old.counts page }
        ensures { self.new ≡ with_state self.old page state }
    {
        let place = self.places.place(page);
        self.states[place] = state;
    }
}
