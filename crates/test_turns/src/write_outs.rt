//! Write-outs: their starts and their ends.

use crate::rows::Change::{Grown, Same};
use crate::rows::Last::{Added, OutEnded, OutStarted};
use crate::rows::Row;
use crate::rows::Step::{EndByFirst, EndByLast, Look, Turn};
use crate::rows::Told::{Again, Made, Nothing};
use crate::worlds::play_write_out;
use sgx_types::names::Actor;
use std::test::Fail;

const ADDED_BETWEEN: &[Row] = &[
    (Look, (Nothing, Same, OutStarted)),
    (Turn(Actor::Builder), (Made(1), Grown(1), Added)),
    (EndByFirst, (Made(1), Grown(1), OutEnded)),
];

#[test]
fn the_builder_goes_on_between_a_start_and_its_end(rt: HostRuntime) -> Result<(), Fail> {
    play_write_out(&rt, rt.alloc(), ADDED_BETWEEN)
}

const ENDED_TWICE: &[Row] = &[
    (
        Turn(Actor::Reclaimer),
        (Again { is_same: true }, Same, OutStarted),
    ),
    (EndByLast, (Made(1), Grown(1), OutEnded)),
    (EndByFirst, (Made(0), Same, OutEnded)),
];

#[test]
fn a_started_write_out_is_answered_again_and_ends_once(rt: HostRuntime) -> Result<(), Fail> {
    play_write_out(&rt, rt.alloc(), ENDED_TWICE)
}
