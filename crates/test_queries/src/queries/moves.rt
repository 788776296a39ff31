//! The moves of pages, and where a page was behind each number of entries.

use super::done::entry_of;
use super::places::{P2, P8, RIGHT, SECS};
use crate::same::are_same;
use sgx_types::names::{Frame, Memory};
use std::alloc::Global;
use std::test::Fail;
use trace_places::moves::Where;
use trace_query::page_moves::{Move, PageMoves};

fn pushed(alloc: Global) -> Result<Box<PageMoves>, Memory> {
    let mut known = Box::new(alloc, PageMoves::new(alloc))?;
    for (done, _, _) in RIGHT {
        known.push(alloc, &entry_of(*done))?;
    }
    Ok(known)
}

// The moves of page 2 of enclave 1, which comes, goes out, and comes back at the second try.
const MOVES: &[Move] = &[
    Move {
        place: 3,
        to: Where::At(Frame(4)),
    },
    Move {
        place: 7,
        to: Where::Sealed { version: 7 },
    },
    Move {
        place: 8,
        to: Where::Loading(Frame(3)),
    },
    Move {
        place: 9,
        to: Where::Sealed { version: 7 },
    },
    Move {
        place: 10,
        to: Where::Loading(Frame(3)),
    },
    Move {
        place: 11,
        to: Where::At(Frame(3)),
    },
];

// Where it is behind so many entries.
const PLACES: &[(u64, Where)] = &[
    (0, Where::Nowhere),
    (2, Where::Nowhere),
    (3, Where::At(Frame(4))),
    (6, Where::At(Frame(4))),
    (7, Where::Sealed { version: 7 }),
    (8, Where::Loading(Frame(3))),
    (11, Where::At(Frame(3))),
    (13, Where::At(Frame(3))),
    (u64::MAX, Where::At(Frame(3))),
];

#[test]
fn moves_stand_by_place(rt: HostRuntime) -> Result<(), Fail> {
    let known = pushed(rt.alloc())?;
    are_same(&rt, known.len(), 13);
    let moves = known.moves(rt.alloc(), P2)?;
    are_same(&rt, moves.as_slice(), MOVES);
    let none = known.moves(rt.alloc(), P8)?;
    assert!(rt; none.is_empty());
    Ok(())
}

#[test]
fn a_page_is_where_its_last_move_led(rt: HostRuntime) -> Result<(), Fail> {
    let known = pushed(rt.alloc())?;
    are_same(&rt, known.len(), 13);
    for (n, there) in PLACES {
        are_same(&rt, (*n, known.where_is(*n, P2)), (*n, *there));
    }
    are_same(&rt, known.where_is(11, SECS), Where::At(Frame(1)));
    are_same(&rt, known.where_is(12, SECS), Where::Sealed { version: 9 });
    Ok(())
}
