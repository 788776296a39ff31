// The rules by which a driver moves pages: what the builder, each processor and the reclaimer do next, by the entries made so far.
// The definitions stand in specs/; here are why an actor waits, when the reclaimer works, and laws that hold for every list of
// entries.
#![tactic(auto)]

pub mod laws;
pub mod marks;
pub mod waits;
