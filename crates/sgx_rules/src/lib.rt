// The entries of a trace and the refusals in them, and in `specs/` what they say: the instruction table, flat memory, the rules.
#![tactic(auto)]

pub mod entries;
pub mod laws;
pub mod refusals;
