// For an auditor of traces: whether an entry is what is due to its actor, and whether nothing more is to come. Both are told by a
// machine, a driver and the tables of what is due, which stand for the entries before, without these entries.
#![tactic(auto)]

pub mod ending;
mod next;
pub mod same;
pub mod script;
