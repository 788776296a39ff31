// The job that is made of a number and a size.
#![tactic(auto)]

mod enclave;
mod generator;
pub mod maker;
mod scripts;
