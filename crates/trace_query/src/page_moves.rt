//! Where pages were behind each number of entries of a trace.

ghost use Rattle.std.specs.Prelude.{◌≡◌, ◌∷◌, [], List, length, IfOk, OnOk, OnErr};
ghost use Rattle.sgx_rules.specs.declared.entries.Entry.{Entry};
ghost use Rattle.trace_places.specs.Places.{place_of};
ghost use Rattle.trace_query.specs.Moves.{first_entries, moves};
ghost use Rattle.trace_query.specs.inner.Kept.{MovesFollow, MovesHaveRoom, MovesHaveRoomIf, MovesStay, NotesMove, MovesHaveRoomToNote};

use crate::move_lists::MoveLists;
use sgx_rules::entries::Entry;
use sgx_types::names::{Memory, Page};
use std::alloc::Global;
use trace_places::moves::{PageMove, Where};
use trace_places::places::Places;

/// A move of a page: behind how many entries it was made, and where the page is from then on.
#[derive(Clone, Copy, Debug, PartialEq, Eq)]
pub struct Move {
    pub place: u64,
    pub to: Where,
}

/// The moves of all pages along entries that were pushed one by one, any entries at all. A question takes one look into a hash table
/// and one binary search in the moves of its page.
#[derive(Drop)]
pub struct PageMoves {
    places: Places,
    lists: MoveLists,
    len: u64,
}

impl PageMoves {
    /// No entry was pushed.
    pub fn new(alloc: Global) -> PageMoves
        ensures { MovesFollow result [] }
    {
        PageMoves {
            places: Places::new(alloc),
            lists: MoveLists::new(alloc),
            len: 0,
        }
    }

    /// How many entries were pushed.
    pub fn len(&self) -> u64
        ensures len { result ≡ self.now.len }
        ensures entries { (past : List Entry) → MovesFollow self.now past → result ≡ length past }
    {
        self.len
    }

    /// Where a page was behind the first `n` entries, or behind all where there are fewer. The SECS of enclave E is asked for as page
    /// 4294967295 of E, and the version array page that was made as the K-th, counted from 0, as page K of enclave 0.
    pub fn where_is(&self, n: u64, page: Page) -> Where
        ensures { (past : List Entry) → MovesFollow self.now past → result ≡ place_of (first_entries n past) page }
    {
        self.lists.at(n, page)
    }

    /// The moves that a page made, oldest first.
    pub fn moves(&self, alloc: Global, page: Page) -> Result<Vec<Move>, Memory>
        ensures { IfOk result (λ steps. (past : List Entry) → MovesFollow self.now past → steps.items ≡ moves past page) }
    {
        self.lists.copy(alloc, page)
    }

    /// Takes an entry more. Refused memory leaves all as it was; it is refused to the entry behind 2^64 - 1 others too, since there
    /// is no number for its place.
    pub fn push(&mut self, alloc: Global, entry: &Entry) -> Result<(), Memory>
        ensures follows { OnOk result ((past : List Entry) → MovesFollow self.old past → MovesFollow self.new (entry.now ∷ past)) }
        ensures refused { OnErr result ((past : List Entry) → MovesFollow self.old past → MovesFollow self.new past) }
    {
        self.reserve(alloc, entry)?;
        self.push_reserved(entry);
        Ok(())
    }

    /// Takes the memory that `push_reserved` needs for this entry. The moves stay as they were.
    pub fn reserve(&mut self, alloc: Global, entry: &Entry) -> Result<(), Memory>
        ensures same { (past : List Entry) → MovesFollow self.old past → MovesFollow self.new past }
        ensures room { OnOk result (MovesHaveRoom self.new entry.now) }
    {
        if self.len == u64::MAX {
            return Err(Memory);
        }
        self.places.reserve(alloc, entry)?;
        let pages = self.places.may_move(entry);
        self.reserve_for(alloc, pages.former)?;
        self.reserve_for(alloc, pages.named)
    }

    /// Takes an entry more.
    pub fn push_reserved(&mut self, entry: &Entry)
        requires room { MovesHaveRoom self.old entry.now }
        ensures { (past : List Entry) → MovesFollow self.old past → MovesFollow self.new (entry.now ∷ past) }
    {
        let moves = self.places.push_reserved(entry);
        self.len += 1;
        self.note(moves.former);
        self.note(moves.named);
    }

    // Makes room for two moves more of a page, if it is one.
    fn reserve_for(&mut self, alloc: Global, page: Option<Page>) -> Result<(), Memory>
        ensures same { MovesStay self.old self.new }
        ensures room { OnOk result (MovesHaveRoomIf self.new page 2) }
    {
        match page {
            Some(page) => self.lists.reserve(alloc, page),
            None => Ok(()),
        }
    }

    // Notes the move of a page, if it is one, at the place behind all entries.
    fn note(&mut self, moved: Option<PageMove>)
        requires room { MovesHaveRoomToNote self.old moved }
        ensures { NotesMove self.old moved self.new }
    {
        if let Some(moved) = moved {
            self.lists.push(
                moved.page,
                Move {
                    place: self.len,
                    to: moved.to,
                },
            );
        }
    }
}
