// The book of a run with the words by which its epochs are counted.
#![tactic(auto)]

pub mod book;
