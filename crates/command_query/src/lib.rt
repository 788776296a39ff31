// The commands that answer questions to a trace.
#![tactic(auto)]

pub mod giving;
mod indexing;
pub mod texts;
