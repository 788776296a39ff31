//! What one turn of the reclaimer answers.

use driver_rules::waits::Why;
use sgx_rules::entries::Entry;

/// What a turn of the reclaimer did.
#[derive(Clone, Copy)]
pub enum PassTurn {
    One(Entry),
    /// A kick of each of these processors, one bit each.
    Kicks(u16),
    /// The page of an entry has started to go out.
    Seal(Entry),
    Again(Why),
    /// An epoch or a version was used up.
    Spent(Entry),
}
