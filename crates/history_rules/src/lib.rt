// What a run's trace has to keep: the eleven rules together, when a trace keeps them and where it fails first, and which calls of the
// backing store it tells of. The definitions stand in specs/; here are the rules' names, and laws that hold for every list of entries.
#![tactic(auto)]

pub mod laws;
pub mod rules;
