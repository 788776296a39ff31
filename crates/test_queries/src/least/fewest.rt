//! Lists of accesses whose fewest loads are known.

use super::pages::pages;
use least_reloads::farthest::plan;
use least_reloads::lawful::check;
use std::alloc::Global;
use std::process::Abort;
use std::test::Fail;

// Accesses, frames, and the fewest loads.
type Row = (&'static [u32], u32, u64);

// Row by row: the plan makes so many loads, has a step for each access, and is lawful.
fn go_along(rt: &impl Abort, alloc: Global, rows: &[Row]) -> Result<(), Fail> {
    for (at, (numbers, frames, fewest)) in rows.iter().enumerate() {
        assert!(rt; *frames >= 1);
        let accesses = pages(alloc, numbers)?;
        let made = Box::new(alloc, plan(alloc, &accesses, *frames)?)?;
        assert_eq!(rt; made.loads, *fewest, "row {at}");
        assert_eq!(rt; made.steps.len(), numbers.len(), "row {at}");
        assert!(rt; check(alloc, &accesses, *frames, &made)?, "row {at}");
    }
    Ok(())
}

// The list of the textbooks for three numbers of frames, two pages in one frame, no access, and forty pages in order, twice.
const KNOWN: &[Row] = &[
    (&[1, 2, 3, 4, 1, 2, 5, 1, 2, 3, 4, 5], 3, 7),
    (&[1, 2, 3, 4, 1, 2, 5, 1, 2, 3, 4, 5], 4, 6),
    (&[1, 2, 3, 4, 1, 2, 5, 1, 2, 3, 4, 5], 5, 5),
    (&[1, 1, 2], 1, 2),
    (&[], 1, 0),
    (FORTY_TWICE, 10, 70),
];

const FORTY_TWICE: &[u32] = &[
    2, 3, 4, 5, 6, 7, 8, 9, 10, 11, 12, 13, 14, 15, 16, 17, 18, 19, 20, 21, 22, 23, 24, 25, 26, 27,
    28, 29, 30, 31, 32, 33, 34, 35, 36, 37, 38, 39, 40, 41, 2, 3, 4, 5, 6, 7, 8, 9, 10, 11, 12, 13,
    14, 15, 16, 17, 18, 19, 20, 21, 22, 23, 24, 25, 26, 27, 28, 29, 30, 31, 32, 33, 34, 35, 36, 37,
    38, 39, 40, 41,
];

#[test]
fn known_lists(rt: HostRuntime) -> Result<(), Fail> {
    go_along(&rt, rt.alloc(), KNOWN)
}

// Small lists that were drawn at random. Their fewest loads were found by trying every plan, by bench/least/every_plan.py.
const DRAWN: &[Row] = &[
    (&[2, 2, 1, 4, 0, 0, 2, 1, 1, 4], 2, 6),
    (&[1, 5, 2, 4, 6, 3, 1, 1, 3, 5, 6, 0, 5], 2, 9),
    (&[3, 2, 0, 3, 0, 1, 1, 1], 2, 4),
    (&[0, 2, 1, 0, 2, 0, 1, 1, 0, 0], 2, 5),
    (&[4, 1, 2, 3, 1, 4], 3, 4),
    (&[1, 1, 2, 0, 4, 5, 0, 1], 3, 5),
    (&[3, 3, 1, 1, 1, 1, 2, 0, 1, 3, 3, 3, 0], 3, 4),
    (&[2, 3, 3, 0, 2, 1, 1, 2, 2, 1, 0, 2, 3, 1], 3, 5),
    (&[2, 2, 4, 3, 0, 2, 0, 0, 4, 1, 1], 2, 6),
    (&[2, 2, 4, 0, 5, 4, 0, 5, 0], 2, 5),
    (&[2, 0, 1, 2, 3, 2, 3, 3, 0], 3, 4),
    (&[2, 5, 1, 6, 2, 6, 6], 2, 4),
    (&[3, 3, 2, 1, 0, 3, 1], 3, 4),
    (&[1, 2, 3, 3, 0, 1, 1, 1, 3, 3], 3, 4),
    (&[3, 0, 0, 1, 3, 1, 0, 3, 2, 0, 0, 3, 0], 2, 6),
    (&[2, 2, 1, 1, 3, 0, 2, 0, 1, 3], 3, 5),
    (&[5, 2, 0, 0, 4, 3, 3, 1, 2, 1, 0], 2, 7),
    (&[3, 4, 0, 5, 5, 1, 4, 5, 5, 5, 4, 4], 2, 6),
    (&[1, 2, 0, 1, 3, 0, 1, 0, 3, 3, 3, 3, 1], 2, 6),
    (&[1, 2, 4, 5, 5, 5, 3, 4], 2, 5),
    (&[4, 2, 4, 5, 1, 3, 0, 5, 4, 3, 2, 4, 1, 5], 4, 8),
    (&[0, 2, 2, 0, 2, 2, 0, 1, 1, 0, 2, 1], 2, 4),
    (&[2, 1, 1, 2, 0, 0, 2, 3, 1, 2, 3], 2, 6),
    (&[2, 5, 4, 2, 1, 4, 2, 2, 6, 3, 5, 4, 5, 0], 2, 9),
    (&[0, 2, 1, 1, 0, 0], 2, 3),
    (&[1, 1, 0, 3, 2, 0], 2, 4),
    (&[3, 2, 2, 1, 0, 2, 0, 2, 0, 2], 2, 4),
    (&[2, 6, 6, 3, 0, 0, 6, 5, 2, 6, 3, 1, 0], 2, 9),
    (&[0, 2, 4, 3, 1, 2, 4, 0, 3, 3, 4, 3], 4, 6),
    (&[2, 2, 5, 2, 4, 0, 0, 5, 4, 2, 0, 0, 3], 3, 6),
    (&[1, 4, 0, 3, 3, 3, 1, 3, 0, 4, 0, 2, 3, 4], 3, 6),
    (&[4, 0, 5, 4, 2, 1, 5, 2, 1, 3, 0, 2], 3, 7),
    (&[2, 3, 4, 3, 4, 2, 0, 2, 0, 0, 3, 3], 3, 4),
    (&[2, 3, 2, 2, 3, 3, 3, 1, 0, 0, 3, 0, 2, 0], 2, 5),
    (&[5, 0, 3, 0, 3, 4, 1, 3, 2, 4], 2, 7),
    (&[2, 0, 0, 0, 1, 4, 0, 2, 3, 5, 5, 4], 3, 6),
    (&[1, 2, 1, 3, 1, 0, 4, 0, 2, 4, 3, 2, 1], 4, 6),
    (&[3, 2, 3, 1, 1, 2, 0, 0, 2, 0, 0, 0, 3, 3], 3, 4),
    (&[2, 0, 2, 4, 1, 2, 1, 3, 1, 0, 4, 4], 2, 7),
    (&[2, 2, 2, 2, 0, 1, 3, 3, 1, 0, 1, 2, 3, 3], 3, 5),
];

#[test]
fn drawn_lists(rt: HostRuntime) -> Result<(), Fail> {
    go_along(&rt, rt.alloc(), DRAWN)
}
