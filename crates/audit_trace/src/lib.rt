// The auditor of traces: whoever made a trace, it says whether it is a history of its job, and else where it fails first.
#![tactic(auto)]

pub mod audit;
mod auditing;
mod following;
mod judging;
