//! The moves of each page, by the places at which they were made.

ghost use Rattle.std.specs.Prelude.{◌≡◌, ◌+◌, ◌≤◌, ◌++◌, ◌∷◌, [], ℕ, if◌then◌else◌, OnOk, IfOk, vec_len, vec_capacity};
ghost use Rattle.sgx_types.specs.declared.names.Page.{Page};
ghost use Rattle.sgx_types.specs.Pages.{same_page};
ghost use Rattle.trace_query.specs.inner.Lists.{at_place, moves_in, HasMoveList, HasMoveRoom, MovesRise};

use crate::page_moves::Move;
use sgx_types::names::{Memory, Page};
use std::alloc::Global;
use std::collections::HashMap;
use trace_places::moves::Where;

/// For each page its moves, oldest first.
#[derive(Drop)]
pub(crate) struct MoveLists {
    lists: HashMap<Page, Vec<Move>>,
}

impl MoveLists {
    /// No page moved.
    pub(crate) fn new(alloc: Global) -> MoveLists
        ensures { (g : Page) → moves_in result g ≡ [] }
    {
        MoveLists {
            lists: HashMap::new(alloc),
        }
    }

    /// Makes room for two moves more of a page.
    pub(crate) fn reserve(&mut self, alloc: Global, page: Page) -> Result<(), Memory>
        ensures same { (g : Page) → moves_in self.new g ≡ moves_in self.old g }
        ensures kept { (g : Page) (k : ℕ) → HasMoveRoom self.old g k → HasMoveRoom self.new g k }
        ensures room { OnOk result (HasMoveRoom self.new page 2) }
    {
        self.begin(alloc, page)?;
        if let Some(list) = self.lists.get_mut(&page) {
            list.reserve(2)?;
        }
        Ok(())
    }

    // Sees to it that a page has a list, be it an empty one.
    fn begin(&mut self, alloc: Global, page: Page) -> Result<(), Memory>
        ensures same { (g : Page) → moves_in self.new g ≡ moves_in self.old g }
        ensures kept { (g : Page) (k : ℕ) → HasMoveRoom self.old g k → HasMoveRoom self.new g k }
        ensures begun { OnOk result (HasMoveList self.new page) }
    {
        if !self.lists.contains_key(&page) {
            self.lists.insert(page, Vec::new(alloc))?;
        }
        Ok(())
    }

    /// A page made a move more.
    pub(crate) fn push(&mut self, page: Page, step: Move)
        requires room { HasMoveRoom self.old page 1 }
        ensures moves { (g : Page) → moves_in self.new g
            ≡ (if same_page page g then moves_in self.old g ++ step ∷ [] else moves_in self.old g) }
        ensures room { (g : Page) (k : ℕ) → HasMoveRoom self.old g (k + 1) → HasMoveRoom self.new g k }
    {
        if let Some(list) = self.lists.get_mut(&page) {
            add(list, step);
        }
    }

    /// Where the last move of a page up to a place led.
    pub(crate) fn at(&self, n: u64, page: Page) -> Where
        ensures { MovesRise (moves_in self.now page) → result ≡ at_place (moves_in self.now page) n }
    {
        match self.lists.get(&page) {
            Some(list) => last_to(list, n),
            None => Where::Nowhere,
        }
    }

    /// The moves of a page.
    pub(crate) fn copy(&self, alloc: Global, page: Page) -> Result<Vec<Move>, Memory>
        ensures { IfOk result (λ moves. moves.items ≡ moves_in self.now page) }
    {
        match self.lists.get(&page) {
            Some(list) => Ok(Vec::from_slice(alloc, list)?),
            None => Ok(Vec::new(alloc)),
        }
    }
}

fn add(list: &mut Vec<Move>, step: Move)
    requires { vec_len list.old + 1 ≤ vec_capacity list.old }
    ensures items { list.new.items ≡ list.old.items ++ step ∷ [] }
    ensures len { vec_len list.new ≡ vec_len list.old + 1 }
    ensures capacity { vec_capacity list.old ≤ vec_capacity list.new }
{
    let kept: Result<_, _> = list.push(step);
    kept.unwrap();
}

// The moves rise by place, so those up to a place stand first.
fn last_to(list: &[Move], n: u64) -> Where
    ensures { MovesRise list.now → result ≡ at_place list.now n }
{
    let count = list.partition_point(|step| step.place <= n);
    if count == 0 {
        return Where::Nowhere;
    }
    list[count - 1].to
}
