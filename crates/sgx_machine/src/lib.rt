// The machine: SGX1's instructions over one EPC, one at a time.
#![tactic(auto)]

mod access;
mod apply;
mod arrays;
mod build;
mod commits;
mod entry;
mod extend;
pub mod machine;
mod making;
mod noting;
mod outside;
mod paging;
mod register;
pub mod starts;
