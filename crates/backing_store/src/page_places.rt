//! How many gets and puts of each page there were, and where its records stand.

ghost use Rattle.std.specs.Prelude.{◌≡◌, ◌+◌, ◌^◌, ◌<◌, ◌≤◌, ℕ, None, if◌then◌else◌, OnOk};
ghost use Rattle.sgx_types.specs.declared.names.Page.{Page};
ghost use Rattle.sgx_types.specs.Pages.{same_page};
ghost use Rattle.std.specs.HashMap.{spare};

use sgx_types::names::Page;
use std::alloc::{AllocError, Global};
use std::collections::HashMap;

/// How many gets of a page were made, and how many puts of it that did not fail.
#[derive(Clone, Copy)]
pub struct PageCounts {
    pub gets: u64,
    pub puts: u64,
}

// The `nth` put of a page that did not fail, counted from 1.
#[derive(Clone, Copy, PartialEq, Eq, Hash)]
struct PutKey {
    page: Page,
    nth: u64,
}

/// For each page how many gets and puts of it there were, and the place of each of its records, found in a time that does
/// not grow with their number.
#[derive(Drop)]
pub struct PagePlaces {
    counts: HashMap<Page, PageCounts>,
    places: HashMap<PutKey, u64>,
}

impl PagePlaces {
    ghost use Rattle.backing_store.specs.inner.Places.{no_counts, counts_of, place_of, room_of, SamePlaces, OneGet, OnePut};

    /// No get and no put.
    pub fn new(alloc: Global) -> PagePlaces
        ensures counts { (page : Page) → counts_of result page ≡ no_counts }
        ensures places { (page : Page) (nth : ℕ) → place_of result page nth ≡ None }
    {
        PagePlaces {
            counts: HashMap::new(alloc),
            places: HashMap::new(alloc),
        }
    }

    /// Makes room for so many calls.
    pub fn reserve(&mut self, calls: usize) -> Result<(), AllocError>
        ensures same { SamePlaces self.old self.new }
        ensures room { OnOk result (calls ≤ room_of self.new) }
        ensures kept { room_of self.old ≤ room_of self.new }
    {
        self.counts.reserve(calls)?;
        self.places.reserve(calls)
    }

    /// How many gets and puts of a page there were.
    pub fn counts(&self, page: Page) -> PageCounts
        ensures { result ≡ counts_of self.now page }
    {
        self.counts
            .get(&page)
            .copied()
            .unwrap_or(PageCounts { gets: 0, puts: 0 })
    }

    /// The place of the `nth` record of a page, counted from 1.
    pub fn place(&self, page: Page, nth: u64) -> Option<u64>
        ensures { result ≡ place_of self.now page nth }
    {
        let key = PutKey { page, nth };
        self.places.get(&key).copied()
    }

    /// One get more of a page.
    pub fn note_get(&mut self, page: Page)
        requires room { 1 ≤ room_of self.old }
        requires few { (counts_of self.old page).gets + 1 < 2 ^ 64 }
        ensures get { OneGet self.old page self.new }
        ensures room { room_of self.old ≤ room_of self.new + 1 }
    {
        let counts = self.counts(page);
        self.set_counts(
            page,
            PageCounts {
                gets: counts.gets + 1,
                puts: counts.puts,
            },
        );
    }

    /// One put more of a page, whose record stands at a place.
    pub fn note_put(&mut self, page: Page, place: u64)
        requires room { 1 ≤ room_of self.old }
        requires few { (counts_of self.old page).puts + 1 < 2 ^ 64 }
        ensures put { OnePut self.old page place self.new }
        ensures room { room_of self.old ≤ room_of self.new + 1 }
    {
        let counts = self.counts(page);
        let nth = counts.puts + 1;
        self.set_counts(
            page,
            PageCounts {
                gets: counts.gets,
                puts: nth,
            },
        );
        let key = PutKey { page, nth };
        let kept: Result<_, _> = self.places.insert(key, place);
        kept.unwrap();
    }

    fn set_counts(&mut self, page: Page, counts: PageCounts)
        requires { 1 ≤ spare self.old.counts }
        ensures counts { (g : Page) → counts_of self.new g ≡ (if same_page page g then counts else counts_of self.old g) }
        ensures places { self.new.places ≡ self.old.places }
        ensures room { spare self.old.counts ≤ spare self.new.counts + 1 }
    {
        let kept: Result<_, _> = self.counts.insert(page, counts);
        kept.unwrap();
    }
}
