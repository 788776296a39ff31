// Whether an entry of a trace that somebody else made keeps the rules Age and Kick: by how far the reclaimer is, and by a driver's tables
// and a machine that agree with the entries before it.
#![tactic(auto)]

pub mod judging;
mod looks;
mod tries;
