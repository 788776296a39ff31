// The definitions evaluated at traces in which the SECS of an enclave and a version array page go out and come back, and at traces
// that are wrong in one place. Each function's contract is one fact.
#![tactic(auto)]

pub mod arrays;
pub mod secs;
