// A trace is written in pieces of a fixed size.
#![tactic(auto)]

pub mod pieces;
pub mod ungiven;
