// The builder, each processor and the reclaimer as threads over one locked book, and the gate that these workers pass at each turn.
#![tactic(auto)]

pub mod gate;
mod locked;
pub mod run;
mod taking;
pub mod tally;
mod waiting;
mod workers;
