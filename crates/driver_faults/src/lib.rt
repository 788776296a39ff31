// What a processor does for a page that is not in a frame: its record is asked for, and loaded.
#![tactic(auto)]

pub mod answers;
pub mod finishing;
pub mod laws;
pub mod repeating;
pub mod resolving;
mod rooms;
