// The lines of a job's text: their words, and what each says.
#![tactic(auto)]

pub mod keywords;
pub mod kinds;
pub mod rows;
pub mod statements;
pub mod words;
