// The epochs by which a page's translations are known to be gone: one track for each enclave.
#![tactic(auto)]

pub mod track;
pub mod tracks;
