// The driver's tables behind an instruction that moves no page out or back: the code that brings them to its entry, and the proof that they
// show it. The definitions stand in specs/.
#![tactic(auto)]

pub mod laws;
pub mod notes;
