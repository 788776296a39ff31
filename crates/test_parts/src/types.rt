//! Tests of names, entries, layouts and records.

mod entries;
mod layouts;
mod names;
mod records;
mod refusals;
