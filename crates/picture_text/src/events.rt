//! What a picture of a trace shows: lanes, and what begins, ends and happens on them.

use sgx_types::names::{Cpu, Frame, Page};

/// A lane: a row of a picture, on which spans lie side by side or one within the other.
#[derive(Clone, Copy)]
pub enum Lane {
    Processor(Cpu),
    Frame(Frame),
    Page(Page),
    Builder,
    Reclaimer,

    /// What is counted, beside the driver's lanes.
    Counters,
}

/// What is so from one place of a trace to another.
#[derive(Clone, Copy, PartialEq, Eq)]
pub enum Span {
    /// A processor is inside an enclave, by a TCS page of this number.
    Inside { enclave: u16, tcs: u32 },

    /// A frame has a page.
    Holds(Page),

    /// A frame awaits a page.
    Awaits(Page),

    /// What is in a frame was blocked.
    Blocked,

    /// What is in a frame is on its way out.
    Sealing,

    /// A page is in a frame.
    At(Frame),

    /// A page is awaited by a frame.
    Loading(Frame),

    /// A page is outside, under the version with which it went out last.
    Sealed { version: u64 },
}

/// What is counted along a trace.
#[derive(Clone, Copy)]
pub enum Counter {
    /// The frames that have a page or await one.
    Frames,

    /// The pages that are outside, sealed.
    Pages,

    /// The version that the newest start of a write-out drew.
    Version,
}

/// What an event does on its lane: a span begins, the innermost open one ends, the entry itself stands there, or a counter has another
/// value from now on.
#[derive(Clone, Copy)]
pub enum Mark {
    Begins(Span),
    Ends,
    Does,
    Counts { counter: Counter, value: u64 },
}

/// An event, and the place of the entry that causes it: how many entries were before that one. An entry at place n lies at [n, n + 1);
/// what it changes begins or ends at n + 1.
#[derive(Clone, Copy)]
pub struct PictureEvent {
    pub place: usize,
    pub lane: Lane,
    pub mark: Mark,
}

/// The spans that are open on a lane. Only a frame has more than the outer one: within what it has, that this was blocked, and within
/// that, that it is on its way out.
#[derive(Clone, Copy)]
pub(crate) struct Open {
    pub outer: Option<Span>,
    pub middle: Option<Span>,
    pub inner: Option<Span>,
}

impl Open {
    /// No span is open.
    pub(crate) const NONE: Open = Open {
        outer: None,
        middle: None,
        inner: None,
    };
}
