//! What is said of a trace.

use history_rules::rules::Rule;

/// What is said of a trace: that it keeps the rules that were asked for, or the first place at which one fails, counted from 0, and the
/// first that fails there. The place behind the last entry is where something is missing at the end.
#[derive(Clone, Copy, Debug, PartialEq, Eq)]
pub enum Verdict {
    Yes,
    No { place: usize, rule: Rule },
}
