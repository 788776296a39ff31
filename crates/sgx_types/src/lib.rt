// The names, layouts and records that every part of the machine and its driver speak of.
#![tactic(auto)]

pub mod lawful;
pub mod layouts;
pub mod names;
pub mod record;
