//! Plans that are lawful, and plans that are not.

use super::pages::pages;
use least_reloads::lawful::check;
use least_reloads::load_plan::{LoadPlan, Step};
use sgx_types::names::Memory;
use std::alloc::Global;
use std::process::Abort;
use std::test::Fail;

// The pages that leave in a step, and those that are loaded.
type StepRow = (&'static [u32], &'static [u32]);

// Accesses, frames, the steps and the loads of a plan, and whether it is lawful.
type Row = (&'static [u32], u32, &'static [StepRow], u64, bool);

fn steps(alloc: Global, rows: &[StepRow]) -> Result<Vec<Step>, Memory> {
    let mut steps = Vec::new(alloc);
    for (out, load) in rows {
        steps.push(Step {
            out: pages(alloc, out)?,
            load: pages(alloc, load)?,
        })?;
    }
    Ok(steps)
}

fn go_along(rt: &impl Abort, alloc: Global, rows: &[Row]) -> Result<(), Fail> {
    for (at, (numbers, frames, step_rows, loads, lawful)) in rows.iter().enumerate() {
        let accesses = pages(alloc, numbers)?;
        let plan = Box::new(
            alloc,
            LoadPlan {
                steps: steps(alloc, step_rows)?,
                loads: *loads,
            },
        )?;
        assert_eq!(rt;
            check(alloc, &accesses, *frames, &plan)?,
            *lawful,
            "row {at}"
        );
    }
    Ok(())
}

const PLANS: &[Row] = &[
    // A page has to go for another one, unless there is room for both.
    (
        &[1, 1, 2],
        1,
        &[(&[], &[1]), (&[], &[]), (&[1], &[2])],
        2,
        true,
    ),
    (
        &[1, 1, 2],
        1,
        &[(&[], &[1]), (&[], &[]), (&[], &[2])],
        2,
        false,
    ),
    (
        &[1, 1, 2],
        2,
        &[(&[], &[1]), (&[], &[]), (&[], &[2])],
        2,
        true,
    ),
    // The loads are counted.
    (
        &[1, 1, 2],
        1,
        &[(&[], &[1]), (&[], &[]), (&[1], &[2])],
        1,
        false,
    ),
    (
        &[1, 1, 2],
        1,
        &[(&[], &[1]), (&[], &[]), (&[1], &[2])],
        3,
        false,
    ),
    // Each access has its step, and each step its access.
    (&[1, 1, 2], 2, &[(&[], &[1]), (&[], &[2])], 2, false),
    (
        &[1, 2],
        2,
        &[(&[], &[1]), (&[], &[2]), (&[], &[])],
        2,
        false,
    ),
    (&[], 0, &[], 0, true),
    (&[], 0, &[], 1, false),
    // What goes was held and goes once.
    (&[1, 2], 2, &[(&[], &[1]), (&[3], &[2])], 2, false),
    (&[1, 2], 2, &[(&[], &[1]), (&[1, 1], &[2])], 2, false),
    // What is loaded was not held and is loaded once.
    (&[1, 1], 2, &[(&[], &[1]), (&[], &[1])], 2, false),
    (&[1, 1], 2, &[(&[], &[1, 1]), (&[], &[])], 2, false),
    // A page may go and be loaded again in one step.
    (&[1, 1], 1, &[(&[], &[1]), (&[1], &[1])], 2, true),
    // The accessed page is held.
    (&[1, 2], 1, &[(&[], &[1]), (&[1], &[3])], 2, false),
    (&[0, 1], 2, &[(&[], &[0]), (&[], &[])], 1, false),
    // Pages may be loaded early, and go before they must.
    (
        &[1, 2, 3],
        2,
        &[(&[], &[2, 1]), (&[1], &[]), (&[2], &[2, 3])],
        4,
        true,
    ),
    (
        &[1, 2, 3],
        1,
        &[(&[], &[2, 1]), (&[1], &[]), (&[2], &[2, 3])],
        4,
        false,
    ),
];

#[test]
fn plans(rt: HostRuntime) -> Result<(), Fail> {
    go_along(&rt, rt.alloc(), PLANS)
}
