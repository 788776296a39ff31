//! Tests of pictures of traces.

mod counts;
mod pieces;
mod rows;
mod texts;
mod traces;
