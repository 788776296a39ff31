// The rules that say nothing of a driver: what it means that a trace keeps them, whoever made it, and where it fails first among them.
#![tactic(auto)]

pub mod laws;
