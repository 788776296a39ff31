//! What a turn answers.

use driver_rules::waits::Why;
use seal_record::seal::SealWork;
use seal_record::unseal::UnsealWork;

/// What one turn of an actor did. A page's work stands in a box: most turns have none, and answers are handed on.
#[derive(Drop)]
pub enum Turn {
    /// So many entries.
    Did { entries: u32 },

    /// A page has started to go out. What is left is to seal these bytes, and to commit that.
    Seal(Box<SealWork>),

    /// A page has started to come back. What is left is to open this record, and to commit that.
    Unseal(Box<UnsealWork>),

    /// Nothing yet, for this reason.
    Again(Why),

    /// Nothing, and nothing more is to be done.
    Finished,

    /// Nothing, since the run was stopped.
    Stopped,
}
