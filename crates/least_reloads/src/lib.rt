// The fewest loads by which a list of accesses can be served in so many frames.
#![tactic(auto)]

pub mod farthest;
pub mod lawful;
pub mod load_plan;
pub mod page_set;
