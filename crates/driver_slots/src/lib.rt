// The slots of version array pages that a driver hands out, and which of them are in use.
#![tactic(auto)]

mod array_slots;
pub mod keeper;
