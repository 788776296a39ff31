// The commands of the program, over sources, sinks and a store of any kind: what each does, and how it ends.
#![tactic(auto)]

pub mod command;
pub mod complaints;
pub mod ended;
mod exchanges;
mod fault_lines;
pub mod gate_counts;
mod gates;
pub mod help;
mod jobs;
pub mod judging;
mod making;
pub mod progress;
mod running;
mod showing;
pub mod status;
pub mod summary;
mod telling;
mod traces;
pub mod verdicts;
