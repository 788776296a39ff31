// The driver's tables behind an entry of a trace that somebody else made: an entry that keeps each rule is told to them, whatever slot it
// names and whoever made it. Driver, machine and tables which show the entries of such a trace agree on them.
#![tactic(auto)]

pub mod following;
pub mod laws;
