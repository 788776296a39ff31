// The words of the command line: which command they name.
#![tactic(auto)]

pub mod command;
pub mod question;
pub mod rules;
pub mod showing;
pub mod telling;
