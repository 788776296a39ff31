//! Loads: their starts and their ends.

use crate::rows::Change::{Grown, Same};
use crate::rows::Last::{LoadEnded, LoadStarted};
use crate::rows::Row;
use crate::rows::Step::{EndByFirst, EndByLast, EndOverZeros, Turn};
use crate::rows::Told::{Again, Made};
use crate::worlds::play_load;
use sgx_types::names::{Actor, Cpu};
use std::test::Fail;

const GIVEN: &[Row] = &[(
    EndOverZeros,
    (Made(1), Grown(1), LoadEnded { is_given: true }),
)];

#[test]
fn a_load_ends_by_the_record_that_the_store_gave(rt: HostRuntime) -> Result<(), Fail> {
    play_load(&rt, rt.alloc(), GIVEN)
}

const ENDED_TWICE: &[Row] = &[
    (
        Turn(Actor::Cpu(Cpu(0))),
        (Again { is_same: true }, Same, LoadStarted),
    ),
    (EndByLast, (Made(1), Grown(1), LoadEnded { is_given: true })),
    (EndByFirst, (Made(0), Same, LoadEnded { is_given: true })),
];

#[test]
fn a_started_load_is_answered_again_and_ends_once(rt: HostRuntime) -> Result<(), Fail> {
    play_load(&rt, rt.alloc(), ENDED_TWICE)
}
