// Processors, their modes, and the translations that each holds.
#![tactic(auto)]

pub mod cache;
mod probe_table;
pub mod processor;
