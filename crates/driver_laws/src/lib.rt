// What the driver's rules give: what each entry keeps of pages, frames, slots, tracks and holds, and that it is so in every trace that
// keeps the rules. In specs/ also when a driver's tables agree with the entries.
#![tactic(auto)]

pub mod laws;
