// The spans of the entries of a trace in which processors cached pages.
#![tactic(auto)]

pub mod span_lists;
