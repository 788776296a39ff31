// What the store of a run is asked: each entry that the driver makes comes with the call that it tells of, and the book keeps of that
// call what it has to. The definitions stand in specs/; here are laws that hold for every list of entries.
#![tactic(auto)]

pub mod book;
pub mod driver;
