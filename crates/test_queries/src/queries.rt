//! Tests of questions to a trace.

mod done;
mod long;
mod moves;
mod places;
mod spans;
mod words;
