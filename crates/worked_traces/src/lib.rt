// The definitions of jobs, scripts and rules, evaluated at the trace of a small job and at traces that are wrong in one
// place. Each function's contract is one fact: a rule that a trace keeps, or one that it breaks.
#![tactic(auto, using(crate::proofs::TraceLaws::first_size_is_lawful))]

pub mod evictions;
pub mod right;
pub mod wrong_builds;
pub mod wrong_runs;
