// The text of a trace is read: whole, or in pieces.
#![tactic(auto)]

mod lines;
pub mod reader;
pub mod refusals;
