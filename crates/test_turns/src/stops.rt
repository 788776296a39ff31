//! A book that is told of refused memory.

use crate::rows::Change::{Grown, Same};
use crate::rows::Last::LoadStarted;
use crate::rows::Row;
use crate::rows::Step::{EndByFirst, EndByNew, RefuseMemory, Turn};
use crate::rows::Told::{Nothing, Stopped};
use crate::worlds::play_load;
use sgx_types::names::{Actor, Cpu};
use std::test::Fail;

const STOPPED: &[Row] = &[
    (RefuseMemory, (Nothing, Grown(0), LoadStarted)),
    (Turn(Actor::Builder), (Stopped, Same, LoadStarted)),
    (Turn(Actor::Cpu(Cpu(0))), (Stopped, Same, LoadStarted)),
    (Turn(Actor::Reclaimer), (Stopped, Same, LoadStarted)),
    (EndByNew, (Stopped, Same, LoadStarted)),
    (EndByFirst, (Stopped, Same, LoadStarted)),
];

#[test]
fn each_call_is_stopped_behind_refused_memory(rt: HostRuntime) -> Result<(), Fail> {
    play_load(&rt, rt.alloc(), STOPPED)
}
