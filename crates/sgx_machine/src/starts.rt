//! An open start of a write-out or a load.

use sgx_types::names::{Page, SlotAt, VaSlot};

/// A start of EWB or ELDU that has not ended: where it found its slot and which that is, the version that EWB drew or ELDU found
/// there, and the page that ELDU loads. EWB takes what its frame holds.
#[derive(Clone, Copy)]
pub struct Start {
    pub at: SlotAt,
    pub slot: VaSlot,
    pub version: u64,
    pub loads: Option<Page>,
}
