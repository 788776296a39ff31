// How far the reclaimer is: its pass, and the SECS or version array page that goes out beside it. The reclaimer chooses its next entry by
// it and then goes on with it, and who reads a trace goes on with each entry there.
#![tactic(auto)]

pub mod dues;
pub mod keepers;
pub mod laws;
mod looks;
mod moves;
pub mod pass;
pub mod stages;
