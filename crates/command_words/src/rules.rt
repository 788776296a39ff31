//! The rules by which a trace is judged.

/// The rules by which a command judges a trace (this project's own).
#[derive(Clone, Copy, Debug, PartialEq, Eq)]
pub enum Rules {
    /// All: whether the trace is a history of its job, by this project's driver.
    All,

    /// The processor's, which say nothing of a driver: whoever made the trace.
    Processors,
}
