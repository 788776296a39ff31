// The instructions that build an enclave: ECREATE, EADD, EEXTEND and EINIT, each by its row of the instruction table.
#![tactic(auto)]

pub mod add;
pub mod build_refusal;
pub mod create;
pub mod extend;
pub mod init;
pub mod secs;
