//! What the fault step answers.

use driver_rules::waits::Why;
use seal_record::unseal::UnsealWork;
use sgx_rules::entries::{BusWhy, Entry};

/// What comes of a fault step for a page.
#[derive(Drop)]
pub enum FaultAnswer {
    /// The page is in a frame, and is not on its way out.
    Here,

    /// Nothing yet: the page is on its way out, or another processor brings it back, or no frame is free.
    Again(Why),

    /// The page, or the one that has to be back before it, doesn't come back: its put failed, its get failed,
    /// or the store has no record of it.
    Bus(BusWhy),

    /// The page's load has started by this entry. What is left is to open the record that the store gave.
    Started { entry: Entry, work: Box<UnsealWork> },

    /// This entry refused the start of the page's load: its slot has no version.
    Slot { entry: Entry },
}

/// What comes of the end of a load.
#[derive(Clone, Copy)]
pub enum Loaded {
    /// The page is back by this entry.
    Here(Entry),

    /// This entry refused the record: it is none that was sealed under the page's version, or another page's.
    Bus { entry: Entry, why: BusWhy },
}
