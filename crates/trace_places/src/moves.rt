//! Where a page is, and the moves of pages.

ghost use Rattle.std.specs.Prelude.{◌≡◌};
ghost use Rattle.trace_places.specs.Places.{same_where};

use sgx_types::names::{Frame, Page};

/// Where a page is: nowhere, in a frame, awaited by a frame that a load into it has started for, or sealed outside under the
/// version with which it went out last.
#[derive(Clone, Copy, Debug, PartialEq, Eq)]
pub enum Where {
    Nowhere,
    At(Frame),
    Loading(Frame),
    Sealed { version: u64 },
}

/// A page, and where it is from now on.
#[derive(Clone, Copy, Debug, PartialEq, Eq)]
pub struct PageMove {
    pub page: Page,
    pub to: Where,
}

/// The moves that one entry makes: at most that of the page that a frame had or awaited, and that of the page that the entry
/// puts into the frame, lets it await, or tells of as sealed. A page moves once at most.
#[derive(Clone, Copy, Debug, PartialEq, Eq)]
pub struct Moves {
    pub former: Option<PageMove>,
    pub named: Option<PageMove>,
}

/// The pages that an entry may move: the one that its frame has or awaits, and the one that it names, if that is another one.
#[derive(Clone, Copy, PartialEq, Eq)]
pub struct MayMove {
    pub former: Option<Page>,
    pub named: Option<Page>,
}

impl MayMove {
    /// No page may move.
    pub const NONE: MayMove = MayMove {
        former: None,
        named: None,
    };
}

impl Moves {
    /// No page moves.
    pub const NONE: Moves = Moves {
        former: None,
        named: None,
    };
}

/// Whether a page that is here is there.
pub(crate) fn same_where(here: Where, there: Where) -> bool
    ensures { result ≡ same_where here there }
{
    here == there
}
