// A line of a trace is read: its names, its numbers in any spelling, and exactly the line of a readable entry as that entry.
#![tactic(auto)]

mod cursor;
mod entries;
pub mod lines;
pub mod names;
mod operands;
mod outcomes;
pub mod words;
