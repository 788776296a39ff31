// The tracking words that processors and the reclaimer's worker share: one for each enclave, which any thread reads with no
// lock.
#![tactic(auto)]

mod rule;
pub mod seen;
pub mod words;
