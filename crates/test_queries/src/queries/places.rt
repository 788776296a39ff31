//! Where pages are behind each entry of lists that keep the rules and of one that keeps none.

use super::done::{Done, entry_of};
use crate::same::are_same;
use sgx_types::names::{Frame, Page};
use std::alloc::Global;
use std::process::Abort;
use std::test::Fail;
use trace_places::moves::{Moves, PageMove, Where};
use trace_places::places::Places;

// A page, and where it moved.
pub(super) type To = Option<(Page, Where)>;

// An entry, where the page moved that its frame had, and where the page moved that it names.
pub(super) type Row = (Done, To, To);

pub(super) const SECS: Page = Page {
    enclave: 1,
    number: 4_294_967_295,
};

const OTHER_SECS: Page = Page {
    enclave: 2,
    number: 4_294_967_295,
};

const VA0: Page = Page {
    enclave: 0,
    number: 0,
};

const VA1: Page = Page {
    enclave: 0,
    number: 1,
};

pub(super) const P2: Page = Page {
    enclave: 1,
    number: 2,
};

pub(super) const P8: Page = Page {
    enclave: 1,
    number: 8,
};

const P9: Page = Page {
    enclave: 1,
    number: 9,
};

// Two pages of each kind come, and one of each goes out; a load is refused, and one is done.
pub(super) const RIGHT: &[Row] = &[
    (Done::Epa(0), None, Some((VA0, Where::At(Frame(0))))),
    (Done::Create(1, 1), None, Some((SECS, Where::At(Frame(1))))),
    (Done::Add(4, P2), None, Some((P2, Where::At(Frame(4))))),
    (Done::Epa(2), None, Some((VA1, Where::At(Frame(2))))),
    (Done::Block(4), None, None),
    (Done::NoWriteOut(4), None, None),
    (
        Done::WriteOut(4, P2, 7),
        Some((P2, Where::Sealed { version: 7 })),
        None,
    ),
    (
        Done::LoadStart(3, P2),
        None,
        Some((P2, Where::Loading(Frame(3)))),
    ),
    (
        Done::NoLoad(3),
        Some((P2, Where::Sealed { version: 7 })),
        None,
    ),
    (
        Done::LoadStart(3, P2),
        None,
        Some((P2, Where::Loading(Frame(3)))),
    ),
    (Done::Load(3, P2, 7), Some((P2, Where::At(Frame(3)))), None),
    (
        Done::WriteOut(1, SECS, 9),
        Some((SECS, Where::Sealed { version: 9 })),
        None,
    ),
    (
        Done::WriteOut(0, VA0, 10),
        Some((VA0, Where::Sealed { version: 10 })),
        None,
    ),
];

// A page comes into three frames, a load ends that never started, and pages go out of frames that had others.
const WRONG: &[Row] = &[
    (Done::Add(5, P2), None, Some((P2, Where::At(Frame(5))))),
    (Done::Add(3, P2), None, Some((P2, Where::At(Frame(3))))),
    (Done::Add(7, P2), None, None),
    (
        Done::Load(3, P9, 6),
        Some((P2, Where::At(Frame(5)))),
        Some((P9, Where::At(Frame(3)))),
    ),
    (Done::LoadStart(6, P2), None, None),
    (
        Done::WriteOut(5, P2, 1),
        Some((P2, Where::At(Frame(7)))),
        None,
    ),
    (
        Done::WriteOut(7, P8, 4),
        Some((P2, Where::Loading(Frame(6)))),
        Some((P8, Where::Sealed { version: 4 })),
    ),
    (
        Done::Create(6, 2),
        Some((P2, Where::Sealed { version: 1 })),
        Some((OTHER_SECS, Where::At(Frame(6)))),
    ),
    (Done::WriteOut(9, P2, 1), None, None),
    (Done::Load(9, P2, 1), None, Some((P2, Where::At(Frame(9))))),
];

fn move_of(to: To) -> Option<PageMove> {
    let (page, to) = to?;
    Some(PageMove { page, to })
}

// Where a page is that is told to have moved.
fn is_there(places: &Places, told: Option<PageMove>) -> bool {
    match told {
        Some(told) => places.where_is(told.page) == told.to,
        None => true,
    }
}

fn go_along(rt: &impl Abort, alloc: Global, rows: &[Row]) -> Result<(), Fail> {
    let mut places = Box::new(alloc, Places::new(alloc))?;
    for (at, (done, former, named)) in rows.iter().enumerate() {
        let wanted = Moves {
            former: move_of(*former),
            named: move_of(*named),
        };
        let moves = places.push(alloc, &entry_of(*done))?;
        assert_eq!(rt; moves, wanted, "row {at}");
        assert!(rt; is_there(&places, moves.former), "row {at}");
        assert!(rt; is_there(&places, moves.named), "row {at}");
    }
    Ok(())
}

#[test]
fn pages_move_as_the_rules_have_it(rt: HostRuntime) -> Result<(), Fail> {
    go_along(&rt, rt.alloc(), RIGHT)
}

#[test]
fn the_lesser_of_two_frames_counts(rt: HostRuntime) -> Result<(), Fail> {
    go_along(&rt, rt.alloc(), WRONG)
}

// Memory is taken for one entry, and then none is needed for it.
#[test]
fn a_push_needs_no_memory_that_was_taken(rt: HostRuntime) -> Result<(), Fail> {
    let alloc = rt.alloc();
    let mut places = Box::new(alloc, Places::new(alloc))?;
    let entry = entry_of(Done::Add(4, P2));
    places.reserve(alloc, &entry)?;
    let pages = places.may_move(&entry);
    are_same(&rt, pages.former, None);
    are_same(&rt, pages.named, Some(P2));
    are_same(&rt, places.where_is(P2), Where::Nowhere);
    places.push_reserved(&entry);
    are_same(&rt, places.where_is(P2), Where::At(Frame(4)));
    are_same(&rt, places.where_is(P8), Where::Nowhere);
    Ok(())
}
