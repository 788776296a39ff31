// Whether the machine makes the entries of a trace: it is asked for the instruction of each. Where it makes another entry, that entry says
// which rule breaks first. The record with which each page went out last is kept for the end of a load.
#![tactic(auto)]

pub mod asking;
pub mod coming;
pub mod forms;
pub mod laws;
pub mod leaving;
pub mod old_records;
pub mod outside;
pub mod record_laws;
pub mod rivals;
pub mod same;
