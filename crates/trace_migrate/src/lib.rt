// A text of the first edition becomes one of the second.
#![tactic(auto)]

pub mod migrating;
pub mod numbering;
