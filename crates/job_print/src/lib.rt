// The canonical text of a job, and that reading it gives the job.
#![tactic(auto)]

mod lines;
pub mod printer;
mod statements;
