// What each actor has to do next under a job, by the entries before it, and what a whole run has done at its end. The
// definitions stand in specs/; here are the steps of the builder, and which entries are replies.
#![tactic(auto)]

pub mod cursor;
pub mod replies;
pub mod steps;
