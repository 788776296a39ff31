// The text of an old trace, read from a source: its entries, or the first line that is faulty.
#![tactic(auto)]

pub mod faults;
pub mod old_file;
pub mod reading;
pub mod unread;
