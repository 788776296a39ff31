// The state of enclaves: what their SECS pages keep, and a table of them.
#![tactic(auto)]

pub mod secs;
pub mod table;
