// The measurement of an enclave: SHA-256 over the log of its build.
#![tactic(auto)]

pub mod measure;
