// The EPC: its frames, each with an EPCM entry and 512 words.
#![tactic(auto)]

pub mod entry_view;
pub mod epc;
