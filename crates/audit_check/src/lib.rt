// Whether a trace keeps the processor's rules, whoever made it: a machine is asked for each entry, and the record of each page that went
// out is kept for its reload. Nothing is asked of a driver.
#![tactic(auto)]

pub mod asking;
pub mod checking;
pub mod laws;
pub mod verdict;
pub mod watch;
