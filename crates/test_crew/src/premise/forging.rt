//! A store that knows the key, and forges one record.

use backing_store::backing::{Backing, StoreFault};
use backing_store::planned_store::PlannedStore;
use io_edges::faults::Failed;
use io_edges::plans::PlanLine;
use seal_record::seal::{SealWork, SealedWork, seal};
use seal_record::unseal::{UnsealWork, UnsealedWork, unseal};
use sgx_types::names::{Memory, Page};
use sgx_types::record::Record;
use std::alloc::Global;

/// Gives each page its last record, but a version array page one in which a slot is empty. It tells no calls.
#[derive(Drop)]
pub struct Forging {
    pub store: PlannedStore,
    pub key: [u8; 32],
    /// The version array page, and the index of the slot.
    pub va: u32,
    pub index: u16,
}

impl Forging {
    // The record with that slot emptied, sealed anew under the same version and header. Where memory is refused it is given as it is.
    fn forged(&self, alloc: Global, rec: Record) -> Record {
        match self.sealed_anew(alloc, &rec) {
            Ok(Some(other)) => other,
            _ => rec,
        }
    }

    fn sealed_anew(&self, alloc: Global, rec: &Record) -> Result<Option<Record>, Memory> {
        for version in 1..MOST_VERSIONS {
            let opened = self.opened(alloc, rec, version)?;
            if opened.computed == rec.tag {
                return Ok(Some(self.emptied(alloc, &opened)?));
            }
        }
        Ok(None)
    }

    fn opened(&self, alloc: Global, rec: &Record, version: u64) -> Result<UnsealedWork, Memory> {
        let copy = Record {
            header: rec.header,
            cipher: rec.cipher.to_vec(alloc)?,
            tag: rec.tag,
        };
        let mut work = UnsealWork::new(alloc, copy)?;
        let key = self.key;
        work.key = key;
        work.version = version;
        Ok(unseal(work))
    }

    fn emptied(&self, alloc: Global, opened: &UnsealedWork) -> Result<Record, Memory> {
        let mut work = SealWork::new(alloc)?;
        let key = self.key;
        work.key = key;
        work.version = opened.version;
        work.header = opened.rec.header;
        let slot = usize::from(self.index);
        for (at, (byte, value)) in work.plain.iter_mut().zip(&opened.plain).enumerate() {
            *byte = if at / 8 == slot { 0 } else { *value };
        }
        let SealedWork { rec, .. } = seal(work);
        Ok(rec)
    }
}

// No run of these tests draws as many.
const MOST_VERSIONS: u64 = 5_000;

impl Backing for Forging {
    ghost use Rattle.backing_store.specs.inner.Store.{count_failed, spare_of};
    ghost use Rattle.std.specs.Prelude.{None};

    ghost told = { λ s. None };

    ghost plans = { λ s. s.store.plans };

    ghost spare = { λ s. spare_of s.store.calls };

    ghost faults = { λ s. count_failed s.store.calls };

    // What is planned is nothing to it.
    fn plan(&mut self, _alloc: Global, _lines: &[PlanLine]) -> Result<(), Memory> {
        Ok(())
    }

    fn room(&mut self, alloc: Global, page: Page) -> Result<(), StoreFault> {
        self.store.room(alloc, page)
    }

    fn put(&mut self, page: Page, rec: &Record) -> Result<(), Failed> {
        self.store.put(page, rec)
    }

    fn get(&mut self, alloc: Global, page: Page) -> Result<Option<Record>, StoreFault> {
        let given = self.store.get(alloc, page)?;
        match given {
            Some(rec) if page.enclave == 0 && page.number == self.va => Ok(Some(self.forged(
                alloc, rec,
            ))),
            given => Ok(given),
        }
    }
}
