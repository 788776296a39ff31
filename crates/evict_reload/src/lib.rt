// The instructions that take pages out of the EPC and back: EBLOCK, ETRACK, EWB and ELDU, each by its row of the
// instruction table. EWB and ELDU have two steps, a start and a commit; the sealing between them is not done here.
#![tactic(auto)]

pub mod block;
mod child;
pub mod reload;
mod secs;
mod slot;
pub mod track;
pub mod write_out;
