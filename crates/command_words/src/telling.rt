//! What is told of a job and a trace.

use crate::question::Question;
use crate::rules::Rules;

/// What a command tells of a job and a trace of it, whoever made that (this project's own).
#[derive(Clone, Copy, Debug, PartialEq, Eq)]
pub enum Telling {
    /// The fewest loads for what the trace accesses.
    Least,

    /// Whether the trace keeps these rules, and else where it fails first.
    Judge(Rules),

    /// What is asked of the trace.
    Ask(Question),
}
