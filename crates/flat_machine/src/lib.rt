// Plain enclave memory that is never evicted, as a program.
#![tactic(auto)]

mod access;
mod apply;
mod build;
mod entry;
pub mod flat;
pub mod reply;
mod table;
mod words;
mod writes;
