//! Texts that are given, and words that are read.

mod building;
mod endless;
mod paging;
mod pieces;
mod rows;
mod running;
mod traces;
mod words;
