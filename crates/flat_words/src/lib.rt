// The words of pages along the entries of a trace, by flat memory. No rule is asked of the entries.
#![tactic(auto)]

pub mod laws;
pub mod writes;
