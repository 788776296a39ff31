// Questions to a trace: where a page was behind any number of its entries, the moves that it made, which processors cached it, and what
// its words were; and who is inside behind the entries so far.
#![tactic(auto)]

pub mod index;
pub mod insides;
mod move_lists;
pub mod page_moves;
pub mod page_spans;
pub mod page_words;
mod processors;
mod steps;
mod word_lists;
