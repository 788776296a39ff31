// Translations and accesses: a processor inside takes a translation of a page, and loads, stores and exchanges words
// through it; outside, an enclave's memory reads as all ones. Each goes by its row of the instruction table.
#![tactic(auto)]

pub mod access;
pub mod fill;
pub mod outside;
mod translate;
