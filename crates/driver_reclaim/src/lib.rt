// The reclaimer's turns over a machine, a driver's tables and a store.
#![tactic(auto)]

pub mod laws;
pub mod looks;
pub mod passes;
mod seats;
pub mod stores;
mod tries;
pub mod turns;
