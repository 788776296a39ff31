// One turn of the builder, of a processor or of the reclaimer at a time: machine, driver, store and tables go on together, and with them
// the entries of the run. What holds of them before a turn holds behind it.
#![tactic(auto)]

pub mod book;
mod building;
pub mod course;
pub mod laws;
mod loading;
pub mod promises;
mod reclaiming;
mod recording;
pub mod turn;
