//! The driver's tables.

ghost use Rattle.std.specs.Prelude.{◌≡◌, IfOk};
ghost use Rattle.driver_list.specs.inner.Active.{are_held};
ghost use Rattle.driver_tables.specs.inner.Tables.{IsNew};

use crate::counts::page_counts;
use driver_list::active::Active;
use driver_list::kept_records::KeptRecords;
use driver_list::page_states::PageStates;
use driver_slots::keeper::SlotKeeper;
use job_grammar::jobs::{Job, Marks};
use sgx_types::names::Memory;
use std::alloc::Global;

/// What the driver keeps of a job: the list of the TCS and REG pages that may be written out and the holds of pages, what became of each
/// page, also of SECSs and version array pages, the slots for versions, the record that each processor's started load looks at, and the
/// job's numbers. No call but `new` takes memory, and each takes constant time.
#[derive(Drop)]
pub struct Driver {
    pub active: Active,
    pub states: PageStates,
    pub slots: SlotKeeper,
    pub kept: KeptRecords,
    /// When the reclaimer works.
    pub marks: Marks,
    /// How many processors there are, from 1 to 16.
    pub cpus: u8,
    /// How many enclaves there are, from 1 to 8.
    pub enclaves: u16,
    /// How many version array pages the builder makes, from 1 to 9.
    pub va_pages: u32,
}

impl Driver {
    /// The tables of a job before its first entry: an empty list, no holds, every page absent, no slots, and nothing kept. Each
    /// table has a place for every page of the job.
    pub fn new(alloc: Global, job: &Job) -> Result<Driver, Memory>
        ensures { IfOk result (IsNew job.now) }
    {
        let counts = page_counts(alloc, job.enclaves())?;
        let cpus = job.scripts().len() as u8;
        let kept = KeptRecords::new(alloc, cpus)?;
        let states = PageStates::new(alloc, &counts, job.va_pages())?;
        let slots = SlotKeeper::new(alloc, job.va_pages())?;
        let active = Active::new(alloc, &counts, job.va_pages())?;
        Ok(Driver {
            active,
            states,
            slots,
            kept,
            marks: job.marks(),
            cpus,
            enclaves: job.enclaves().len() as u16,
            va_pages: job.va_pages(),
        })
    }

    /// Whether every listed page is held. So it is with an empty list.
    pub fn all_held(&self) -> bool
        ensures { result ≡ are_held self.now.active }
    {
        self.active.all_held()
    }
}
