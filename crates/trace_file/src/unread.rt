//! Why an old trace was not read.

use io_edges::faults::Failed;

/// Why an old trace was not read.
#[derive(Clone, Copy, Debug, PartialEq, Eq)]
pub enum Unread {
    /// The text is none of a trace. The first faulty line, from 1, or 0 where the text has more than 2^30 bytes.
    Bad { line: u64 },

    /// The source failed.
    Failed,

    /// Memory was refused.
    Memory,
}

impl From<Failed> for Unread {
    ghost use Rattle.std.specs.Prelude.{◌≡◌};
    ghost use Rattle.trace_file.specs.declared.unread.Unread.TheVariants as ends;

    ghost from_gives = { λ _ end. end ≡ ends.Failed };

    fn from(_error: Failed) -> Unread {
        Unread::Failed
    }
}
