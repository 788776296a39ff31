// Where bytes come from and go to. Each outside is a trait with a count of its faults, so that the same proved code
// runs over memory and over the system.
#![tactic(auto)]

pub mod failed_edges;
pub mod faults;
pub mod giving;
pub mod late_file;
pub mod mem_sink;
pub mod mem_source;
pub mod plans;
pub mod reading;
pub mod sinks;
pub mod sources;
pub mod std_edges;
