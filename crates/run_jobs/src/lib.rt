// A whole run of a job by threads, and how it ended.
#![tactic(auto)]

pub mod ends;
pub mod laws;
pub mod run;
