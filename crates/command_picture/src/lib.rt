// The command that gives the picture of a trace.
#![tactic(auto)]

pub mod giving;
mod pieces;
