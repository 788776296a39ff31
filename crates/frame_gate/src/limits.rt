//! How far the numbers of a gate go (all this project's own).

/// A gate has at most so many frames.
pub const MOST_FRAMES: u32 = 4096;

/// A processor holds at most so many frames at a time.
pub const MOST_PAIRS: usize = 64;

/// A processor's seat enters at most so often, 2^27 times. So sixteen of them never fill the 32 bits that count entries.
pub const MOST_ENTRIES: u64 = 1 << 27;

/// The greatest epoch of a gate, 2^32 - 1. A gate that has reached it can be tracked no more.
pub const LAST_EPOCH: u64 = (1 << 32) - 1;

/// The greatest generation of a frame, 2^62 - 1. A frame that has reached it can be placed no more.
pub const LAST_GENERATION: u64 = (1 << 62) - 1;
