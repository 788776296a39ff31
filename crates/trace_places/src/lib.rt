// Where pages are, entry by entry of a trace: in a frame, awaited by one, sealed, or nowhere. No rule is asked of the entries.
#![tactic(auto)]

pub mod change;
mod frame_lists;
pub mod laws;
pub mod moves;
pub mod places;
