//! What is asked of a trace.

use sgx_types::names::Page;

/// A question to a trace (this project's own).
#[derive(Clone, Copy, Debug, PartialEq, Eq)]
pub enum Question {
    /// Where a page was behind so many entries, which processors cached it there, and what its first word was. A place past the end
    /// stands for the end.
    Behind { place: u64, page: Page },

    /// Where a page went, and behind how many entries.
    Moves { page: Page },
}
