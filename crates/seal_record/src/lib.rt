// Sealed records: a page's bytes under a key and a version, and back.
#![tactic(auto)]

pub mod cipher;
pub mod records;
pub mod seal;
mod tag;
pub mod unseal;
