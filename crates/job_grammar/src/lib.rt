// Jobs: what to run, and what makes a job valid.
#![tactic(auto)]

mod counts;
pub mod jobs;
