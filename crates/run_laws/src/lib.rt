// What the book of a run of any job keeps: machine, driver, the tables of what is due, the reclaimer's pass and the calls of the store, all
// for one list of entries. The definitions stand in specs/. Here are the law of one entry more, what the turns owe before and behind an
// entry, and what a run over an honest store has at its end.
#![tactic(auto)]

pub mod book;
pub mod honest;
pub mod steps;
