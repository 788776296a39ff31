// The tally of a trace: how much there was to judge in it, which refusals stand in it, and whether its driver was refused what a right
// driver never is.
#![tactic(auto)]

mod blocks;
pub mod counts;
pub mod refusals;
mod sights;
pub mod tally;
