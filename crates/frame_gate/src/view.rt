//! What the seats of a gate know.

use std::collections::LinkedList;

/// How many steps on words a seat has made, how many of them were loads, and of the last load which word it was of and what
/// it found. Only proofs see it.
pub struct Counter {
    pub steps: u64,
    pub loads: u64,
    pub word: u64,
    pub found: u64,
}

/// What the pager knows of the epochs: how many processor seats there are, the epoch, the entries that were made in the epoch
/// before, whether that is known to be empty, and whether its leave word was set back to 0.
#[derive(Clone, Copy)]
pub struct Ledger {
    pub seats: u32,
    pub epoch: u64,
    pub kept: u64,
    pub is_empty: bool,
    pub is_set_back: bool,
}

/// How often a processor has entered, and the epoch in which it did so last, where it is inside.
#[derive(Clone, Copy)]
pub struct Visit {
    pub entries: u64,
    pub epoch: Option<u64>,
}

/// A frame that a processor holds, with the generation that it found.
#[derive(Clone, Copy, Drop)]
pub struct Pair {
    pub frame: u32,
    pub generation: u64,
}

/// The word that the pager last wrote for a frame, and the epoch at which it blocked the frame, where that is blocked.
#[derive(Clone, Copy, Drop)]
pub struct Written {
    pub word: u64,
    pub blocked: Option<u64>,
}

/// Whose seat it is. No value of it is made.
pub enum Role {
    Pager(Ledger, LinkedList<Written>),
    Processor(Visit, LinkedList<Pair>),
}

/// What a seat knows, and the steps that it has made. No value of it is made.
pub struct View {
    pub role: Role,
    pub counter: Counter,
}
