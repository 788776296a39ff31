// What is due to the builder and to each processor, in constant time, and what an entry does to it. Machine, driver and these tables
// together tell it, without a trace and without a store.
#![tactic(auto)]

mod asking;
mod building;
pub mod cpu_turns;
pub mod dues;
pub mod holding;
pub mod laws;
mod noting;
pub mod operations;
mod pages;
mod replies;
pub mod steps;
pub mod tcs_turns;
pub mod turns;
