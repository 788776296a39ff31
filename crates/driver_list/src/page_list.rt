//! The list of pages: a ring of nodes, and a table that leads from each page to its node.

ghost use Rattle.std.specs.Prelude.{◌≡◌, ◌≢◌, ◌+◌, ◌<◌, ◌≤◌, ◌^◌, [], true, false, length, sum, IfOk};
ghost use Rattle.driver_list.specs.inner.Places.{IsPlaced};
ghost use Rattle.driver_list.specs.inner.Ring.{is_listed};
ghost use Rattle.driver_list.specs.inner.Listing.{IsListing, new_listing, with_page, turned, with_touch, head_of, is_young};
ghost use Rattle.driver_list.specs.inner.Listing.{Removes};

use crate::places::Places;
use crate::ring::{Listed, Node, append, detach_first, set_young};
use sgx_types::names::{Memory, Page};
use slab::Slab;
use std::alloc::Global;
use std::marker::Model;

/// The list of the pages that may be written out, each with its young mark. Only `new` takes memory, and each other call
/// looks at two nodes at most.
#[derive(Drop)]
pub(crate) struct PageList {
    nodes: Slab<Node>,
    // The key of the last node, which leads to the first.
    last: Option<usize>,
    places: Places,
    // By place, the key of the page's node.
    keys: Vec<Option<usize>>,
}

impl Model for PageList {
    ghost use Rattle.driver_list.specs.inner.Listing.{Listing};

    ghost Value = { Listing };

    ghost use Rattle.driver_list.specs.inner.KeptList.{list_of, IsListKept};

    ghost view = { list_of };

    ghost invariant = { IsListKept };
}

impl PageList {
    /// An empty list with room for each page of the job, by how many TCS and REG pages each enclave has, from enclave 1 on, and how many
    /// version array pages there are.
    pub(crate) fn new(alloc: Global, counts: &[u32], arrays: u32) -> Result<PageList, Memory>
        requires enclaves { length counts.now ≤ 8 }
        requires arrays { arrays ≤ 9 }
        requires pages { length counts.now + arrays + sum counts.now < 2 ^ 32 }
        ensures { IfOk result (λ list. list ≡ new_listing (record { own = counts.now; arrays = arrays })) }
    {
        let places = Places::new(alloc, counts, arrays)?;
        let total = places.total();
        Ok(PageList {
            nodes: Slab::with_capacity(alloc, total)?,
            last: None,
            places,
            keys: vec![in alloc; None; total]?,
        })
    }

    /// Appends a page that is not listed. It is not young.
    pub(crate) fn push_back(&mut self, page: Page)
        requires placed { IsPlaced self.old.counts page }
        requires absent { is_listed self.old.pages page ≡ false }
        ensures new { self.new ≡ with_page self.old page }
        ensures few { length self.new.pages < 2 ^ 32 }
    {
        let place = self.places.place(page);
        let listed = Listed { page, young: false };
        let key = append(&mut self.nodes, self.last, listed);
        self.last = Some(key);
        self.keys[place] = Some(key);
    }

    /// The page at the head. None where no page is listed.
    pub(crate) fn head(&self) -> Option<Page>
        ensures value { result ≡ head_of self.now.pages }
        ensures sound { IsListing self.now }
    {
        let last = self.last?;
        let first = self.nodes[last].next;
        Some(self.nodes[first].listed.page)
    }

    /// Moves the head to the tail, where it is not young.
    pub(crate) fn to_tail(&mut self)
        requires { self.old.pages ≢ [] }
        ensures { self.new ≡ turned self.old }
    {
        let last = self.last.unwrap();
        let first = self.nodes[last].next;
        set_young(&mut self.nodes, first, false);
        self.last = Some(first);
    }

    /// Takes the head off the list, and tells its page.
    pub(crate) fn remove_head(&mut self) -> Page
        requires { self.old.pages ≢ [] }
        ensures new { Removes self.old result self.new }
        ensures placed { IsPlaced self.old.counts result }
    {
        let last = self.last.unwrap();
        let (page, last) = detach_first(&mut self.nodes, last);
        let place = self.places.place(page);
        self.last = last;
        self.keys[place] = None;
        page
    }

    /// Whether a page is listed and young.
    pub(crate) fn young(&self, page: Page) -> bool
        requires { IsPlaced self.now.counts page }
        ensures { result ≡ is_young self.now.pages page }
    {
        match self.keys[self.places.place(page)] {
            Some(key) => self.nodes[key].listed.young,
            None => false,
        }
    }

    /// Whether a page is listed.
    pub(crate) fn is_listed(&self, page: Page) -> bool
        requires { IsPlaced self.now.counts page }
        ensures value { result ≡ is_listed self.now.pages page }
        ensures sound { IsListing self.now }
    {
        self.keys[self.places.place(page)].is_some()
    }

    /// Marks a page as young where it is listed. Changes nothing where it is not.
    pub(crate) fn touch(&mut self, page: Page)
        requires { IsPlaced self.old.counts page }
        ensures { self.new ≡ with_touch self.old page }
    {
        let place = self.places.place(page);
        if let Some(key) = self.keys[place] {
            set_young(&mut self.nodes, key, true);
        }
    }

    /// How many pages are listed.
    pub(crate) fn len(&self) -> u32
        ensures { result ≡ length self.now.pages }
    {
        self.nodes.len() as u32
    }
}
