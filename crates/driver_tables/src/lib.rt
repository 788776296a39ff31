// What the driver keeps of a job's pages, slots and started loads, what the entries say of it, and the machine as the driver uses it: one
// instruction that takes no memory.
#![tactic(auto)]

mod counts;
pub mod driver;
pub mod laws;
pub mod moves;
pub mod step_laws;
pub mod steps;
pub mod targets;
