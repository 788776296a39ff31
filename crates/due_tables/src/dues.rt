//! What is due to an actor, as far as the tables tell it.

use crate::steps::CpuStep;
use driver_rules::waits::Why;
use sgx_rules::entries::{Action, BusWhy};
use sgx_types::names::{Frame, Page};

/// What is due to the builder.
#[derive(Clone, Copy)]
pub enum BuilderDue {
    /// Nothing, since the run was stopped.
    Stopped,

    /// Nothing more.
    Finished,

    /// No entry yet.
    Waits(Why),

    /// This instruction.
    Makes(Action),
}

/// What is due to a processor. Where a page is needed that is not here, the fault step says what comes of it. It is handed on by each
/// turn, so its parts stand where no other part lies across two of them.
#[derive(Clone, Copy)]
pub enum CpuDue {
    /// Nothing, since the run was stopped.
    Stopped,

    /// Nothing more.
    Finished,

    /// No entry yet.
    Waits(Why),

    /// The end of its load into a frame.
    Ends(Frame),

    /// This instruction.
    Makes(CpuStep),

    /// An entry that tells why a page did not come back.
    Reports { why: BusWhy, page: Page },

    /// The first step for a page that it needs, and that is in no frame or on its way out.
    Needs(Page),
}
