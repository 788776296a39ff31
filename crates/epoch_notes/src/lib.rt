// The seat that writes the tracking words of a run, told of each entry of the run.
#![tactic(auto)]

pub mod laws;
pub mod notes;
