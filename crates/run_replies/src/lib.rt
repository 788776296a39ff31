// The text of the output: how each enclave ended its initialisation, and what each processor's script was answered.
#![tactic(auto)]

pub mod replies;
