//! Sets of pages.

ghost use Rattle.std.specs.Prelude.{◌≡◌, [], true, false, not, if◌then◌else◌, length, IfOk, OnOk};
ghost use Rattle.std.specs.List.{IsDistinct};
ghost use Rattle.sgx_types.specs.declared.names.Page.{Page};
ghost use Rattle.sgx_types.specs.Pages.{same_page};
ghost use Rattle.least_reloads.specs.Plans.{has};

use sgx_types::names::{Memory, Page};
use std::alloc::Global;
use std::collections::HashSet;
use std::marker::Model;

/// A set of pages. No call takes longer where it has more of them.
#[derive(Drop)]
pub struct PageSet {
    pages: HashSet<Page>,
}

impl Model for PageSet {
    ghost use Rattle.std.specs.Prelude.{List};
    ghost use Rattle.sgx_types.specs.declared.names.Page.{Page};

    ghost Value = { List Page };

    ghost use Rattle.least_reloads.specs.inner.KeptPages.{pages_of};

    ghost view = { pages_of };
}

impl PageSet {
    /// A set without pages.
    pub fn new(alloc: Global) -> PageSet
        ensures { result ≡ [] }
    {
        PageSet {
            pages: HashSet::new(alloc),
        }
    }

    /// How many pages are in the set.
    pub fn len(&self) -> usize
        ensures len { result ≡ length self.now }
        ensures once { IsDistinct same_page self.now }
    {
        self.pages.len()
    }

    /// Whether a page is in the set.
    pub fn contains(&self, page: Page) -> bool
        ensures { result ≡ has self.now page }
    {
        self.pages.contains(&page)
    }

    /// Puts a page into the set, and tells whether it was not there.
    pub fn insert(&mut self, page: Page) -> Result<bool, Memory>
        ensures added { IfOk result (λ added. added ≡ not (has self.old page)) }
        ensures new { OnOk result ((g : Page) → has self.new g ≡ (if same_page page g then true else has self.old g)) }
    {
        Ok(self.pages.insert(page)?)
    }

    /// Takes a page out of the set, and tells whether it was there.
    pub fn remove(&mut self, page: Page) -> bool
        ensures removed { result ≡ has self.old page }
        ensures new { (g : Page) → has self.new g ≡ (if same_page page g then false else has self.old g) }
    {
        self.pages.remove(&page)
    }
}
