// The words of lines of text, as jobs, traces and replies spell them.
#![tactic(auto)]

pub mod names;
pub mod readers;
pub mod words;
