//! Tests of flat memory.

mod flat;
