//! A store that sees whether some worker is between the two calls of the gate while it is asked.

use backing_store::backing::{Backing, StoreFault};
use backing_store::planned_store::PlannedStore;
use io_edges::faults::Failed;
use io_edges::plans::PlanLine;
use sgx_types::names::{Memory, Page};
use sgx_types::record::Record;
use std::alloc::Global;
use std::sync::atomic::{AtomicU64, Ordering};

/// Passes each call on. It counts those for a place, those with a record, those for a record, and those that came while nobody was
/// between the calls of the gate.
#[derive(Drop)]
pub struct SeenStore<'a> {
    pub store: PlannedStore,
    pub inside: &'a AtomicU64,
    pub rooms: &'a AtomicU64,
    pub puts: &'a AtomicU64,
    pub gets: &'a AtomicU64,
    pub alone: &'a AtomicU64,
}

impl<'a> SeenStore<'a> {
    fn see(&self, calls: &AtomicU64) {
        calls.fetch_add(1, Ordering::SeqCst);
        if self.inside.load(Ordering::SeqCst) == 0 {
            self.alone.fetch_add(1, Ordering::SeqCst);
        }
    }
}

impl<'a> Backing for SeenStore<'a> {
    ghost use Rattle.backing_store.specs.inner.Store.{count_failed, spare_of};
    ghost use Rattle.backing_store.specs.inner.Told.{told_of};
    ghost use Rattle.std.specs.Prelude.{Some};

    ghost told = { λ s. Some (told_of s.store.calls s.store.puts) };

    ghost plans = { λ s. s.store.plans };

    ghost spare = { λ s. spare_of s.store.calls };

    ghost faults = { λ s. count_failed s.store.calls };

    fn plan(&mut self, alloc: Global, lines: &[PlanLine]) -> Result<(), Memory> {
        self.store.plan(alloc, lines)
    }

    fn room(&mut self, alloc: Global, page: Page) -> Result<(), StoreFault> {
        self.see(self.rooms);
        self.store.room(alloc, page)
    }

    fn put(&mut self, page: Page, rec: &Record) -> Result<(), Failed> {
        self.see(self.puts);
        self.store.put(page, rec)
    }

    fn get(&mut self, alloc: Global, page: Page) -> Result<Option<Record>, StoreFault> {
        self.see(self.gets);
        self.store.get(alloc, page)
    }
}
