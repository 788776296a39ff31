//! Tests of the fewest loads.

mod fewest;
mod lawful;
mod long;
mod pages;
