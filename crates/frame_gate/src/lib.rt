// A gate that processors enter, leave and use frames through by atomic steps alone, with no lock, while one pager blocks
// frames, tracks and evicts.
#![tactic(auto)]

pub mod gate;
pub mod limits;
pub mod refusals;
pub mod rounds;
mod rule;
pub mod seats;
pub mod view;
