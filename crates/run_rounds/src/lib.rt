// A run of a book on one thread, by rounds of turns.
#![tactic(auto)]

pub mod run;
mod turns;
