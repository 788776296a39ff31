// The instructions that take a processor into an enclave and out of it: EENTER, ERESUME, EEXIT and the asynchronous exit,
// each by its row of the instruction table.
#![tactic(auto)]

pub mod enter;
pub mod exit;
mod tcs;
pub mod way_in;
