// A picture of a trace, as text in the Trace Event Format: lanes of processors, frames, pages and the driver, what begins, ends and happens
// on them, and counters.
#![tactic(auto)]

mod counts;
pub mod drawing;
pub mod events;
pub mod lanes;
pub mod laws;
mod leaving;
pub mod lines;
mod names;
mod open_spans;
pub mod picture;
mod seats;
mod steps;
