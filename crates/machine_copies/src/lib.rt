// The history of pages that leave the EPC and come back: where each page's one live copy is, and the rules on reloads and records.
// The definitions stand in specs/; here are laws that hold for every list of entries.
#![tactic(auto)]

pub mod laws;
