//! Why an actor's turn makes no entry.

use sgx_types::names::Page;

/// Why an actor has to wait. A turn that waits makes no entry and changes nothing.
#[derive(Clone, Copy)]
pub enum Why {
    /// The builder has not made all its entries yet.
    Building,

    /// The processor needs this page, which is on its way out, or which another processor brings back.
    Busy(Page),

    /// A frame is needed, and none is free.
    NoFrame,

    /// So many processors (1 to 16) are inside an enclave (1 to 8) since before its last track. The reclaimer kicked them, and waits
    /// until they have left.
    Older { enclave: u16, count: u32 },

    /// So many frames are free, and the reclaimer is not working.
    Enough { free: u32 },

    /// The reclaimer is working, and some actor holds each page that it might take.
    AllHeld,

    /// The reclaimer is to write a page out, and each slot that it may take is in use.
    NoSlot,
}
