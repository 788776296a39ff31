// The bytes of a SECS and of a version array page, as they are sealed.
#![tactic(auto)]

pub mod bytes;
