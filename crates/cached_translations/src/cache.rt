//! The translations that a processor holds: the newest of them, in the order of their first fills.

ghost use Rattle.std.specs.Prelude.{◌≡◌, ◌↔◌, ℕ, [], length, IsTrue, IfOk};
ghost use Rattle.cached_translations.specs.inner.Probe.{Leads};
ghost use Rattle.cached_translations.specs.inner.Index.{IsIndexOnly};
ghost use Rattle.cached_translations.specs.inner.Translations.{translation_of, with_translation, FitsCache};

use crate::probe_table::ProbeTable;
use sgx_types::names::{Frame, Memory, Perm};
use std::alloc::Global;
use std::marker::Model;

/// How many translations a processor holds at most (this project's own).
pub const PLACES: usize = 64;

/// A page of the enclave that a processor is inside, by its number in the enclave in pages of 4096 bytes, with the
/// frame that holds it and its permissions.
#[derive(Clone, Copy, Debug, PartialEq, Eq)]
pub struct Translation {
    pub number: u32,
    pub frame: Frame,
    pub perm: Perm,
}

/// The translations of one processor. Contracts see them as a list, oldest first, in which no page stands twice.
#[derive(Drop)]
pub struct Cache {
    places: Vec<Translation>,
    oldest: usize,
    table: ProbeTable,
}

impl Model for Cache {
    ghost use Rattle.std.specs.Prelude.{List};
    ghost use Rattle.cached_translations.specs.declared.cache.Translation.{Translation};

    ghost Value = { List Translation };

    ghost use Rattle.cached_translations.specs.inner.Ring.{from_oldest, IsRing};

    ghost view = { from_oldest };

    ghost invariant = { IsRing };
}

impl Cache {
    /// An empty cache with all its places, so that filling it takes no memory.
    pub fn new(alloc: Global) -> Result<Cache, Memory>
        ensures { IfOk result (λ cache. cache ≡ []) }
    {
        Ok(Cache {
            places: Vec::with_capacity(alloc, PLACES)?,
            oldest: 0,
            table: ProbeTable::new(),
        })
    }

    pub fn len(&self) -> usize
        ensures value { result ≡ length self.now }
        ensures fits { FitsCache self.now }
    {
        self.places.len()
    }

    pub fn is_empty(&self) -> bool
        ensures { IsTrue result ↔ (self.now ≡ []) }
    {
        self.places.is_empty()
    }

    /// The translation of a page, where it is held.
    pub fn find(&self, number: u32) -> Option<Translation>
        ensures { result ≡ translation_of self.now number }
    {
        let place = self.table.find(number)?;
        Some(self.places[place as usize])
    }

    /// Adds a translation as the newest, and drops the oldest where all places are taken. A page that is held keeps
    /// its translation and its place.
    pub fn fill(&mut self, translation: Translation)
        ensures { self.new ≡ with_translation self.old translation }
    {
        if self.find(translation.number).is_some() {
            return;
        }
        if self.places.len() < PLACES {
            self.table
                .insert(translation.number, self.places.len() as u8);
            self.places.push_reserved(translation);
        } else {
            self.table.remove(self.places[self.oldest].number);
            self.table.insert(translation.number, self.oldest as u8);
            self.places[self.oldest] = translation;
            self.oldest = (self.oldest + 1) % PLACES;
        }
    }

    /// Drops every translation, as each entry and each exit does.
    pub fn clear(&mut self)
        ensures { self.new ≡ [] }
    {
        forget_pages(&mut self.table, &self.places);
        self.places.clear();
        self.oldest = 0;
    }
}

// Takes the pages of the places out of the table.
fn forget_pages(table: &mut ProbeTable, places: &[Translation])
    requires { IsIndexOnly table.old.slots places.now 0 }
    ensures { (number place : ℕ) → ¬ Leads table.new.slots number place }
{
    for translation in places {
        table.forget(translation.number);
    }
}
