// How far a trace's reloads were from the fewest that any driver could have made for its accesses.
#![tactic(auto)]

pub mod accesses;
pub mod fewest;
pub mod giving;
pub mod numbers;
pub mod reloads;
