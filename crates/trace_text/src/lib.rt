// The text of a trace: its printer, and the names that a trace has for what stands in its entries.
#![tactic(auto)]

mod actions;
pub mod edition;
pub mod names;
pub mod room;
pub mod trace;
