//! The records of a run, by its entries and by what its store tells.

use backing_store::calls::{GetAnswer, StoreCall};
use backing_store::planned_store::PlannedStore;
use seal_record::seal::{SealWork, SealedWork, seal};
use sgx_rules::entries::{Action, Answer, Entry, Event};
use sgx_types::names::Memory;
use sgx_types::record::Record;
use std::alloc::Global;

/// A record that was put, and the version under which its page went out.
#[derive(Drop)]
pub struct Made {
    pub version: u64,
    pub rec: Record,
}

/// A record that the store gave for a load.
#[derive(Drop)]
pub struct Given {
    /// The version that the load found in its slot.
    pub version: u64,
    /// How many records had been put before.
    pub before: usize,
    pub rec: Record,
}

/// All records of a run, oldest first.
#[derive(Drop)]
pub struct Records {
    pub made: Vec<Made>,
    pub given: Vec<Given>,
}

/// The records of a run. None where its entries and its store do not tell of as many.
pub fn records_of(
    alloc: Global,
    entries: &[Entry],
    store: &PlannedStore,
) -> Result<Option<Box<Records>>, Memory> {
    let mut records = Box::new(
        alloc,
        Records {
            made: Vec::new(alloc),
            given: Vec::new(alloc),
        },
    )?;
    let is_whole = records.add_made(alloc, entries, store.puts())?
        && records.add_given(alloc, entries, store)?;
    Ok(if is_whole { Some(records) } else { None })
}

impl Records {
    // Each page that went out, with the record that was put. Whether there are as many of both.
    fn add_made(
        &mut self,
        alloc: Global,
        entries: &[Entry],
        puts: &[Record],
    ) -> Result<bool, Memory> {
        for entry in entries {
            if let Some(version) = version_out(entry) {
                let Some(rec) = puts.get(self.made.len()) else {
                    return Ok(false);
                };
                let rec = copy_of(alloc, rec, None)?;
                self.made.push(Made { version, rec })?;
            }
        }
        Ok(self.made.len() == puts.len())
    }

    // Each load that was started, with the record that the store gave. Whether there are as many of both.
    fn add_given(
        &mut self,
        alloc: Global,
        entries: &[Entry],
        store: &PlannedStore,
    ) -> Result<bool, Memory> {
        let mut before = 0usize;
        for entry in entries {
            if version_out(entry).is_some() {
                before = before.saturating_add(1);
            }
            if let Some(version) = version_in(entry) {
                let Some(rec) = record_given(alloc, store, self.given.len())? else {
                    return Ok(false);
                };
                self.given.push(Given {
                    version,
                    before,
                    rec,
                })?;
            }
        }
        Ok(nth_gift(store.calls(), self.given.len()).is_none())
    }

    /// Puts a forged record in place of the first that was given: that of another page, sealed under the version that was asked for.
    pub fn forge(&mut self, alloc: Global, key: &[u8; 32]) -> Result<(), Memory> {
        let Some(given) = self.given.first_mut() else {
            return Ok(());
        };
        let mut work = SealWork::new(alloc)?;
        let own_key = *key;
        work.key = own_key;
        work.version = given.version;
        work.header = given.rec.header;
        work.plain[0] = 255;
        let SealedWork { rec, .. } = seal(work);
        given.rec = rec;
        Ok(())
    }
}

fn version_out(entry: &Entry) -> Option<u64> {
    match entry.event {
        Event::Did {
            action: Action::Ewb { .. },
            answer: Answer::Moved { version, .. },
        } => Some(version),
        _ => None,
    }
}

fn version_in(entry: &Entry) -> Option<u64> {
    match entry.event {
        Event::Did {
            action: Action::EldStart { .. },
            answer: Answer::Version(version),
        } => Some(version),
        _ => None,
    }
}

// Which record put was given, and the bit that was inverted in it.
#[derive(Clone, Copy)]
struct Gift {
    put: u64,
    flipped: Option<u32>,
}

// The gift of that number, from 0, among the calls of a store.
fn nth_gift(calls: &[StoreCall], number: usize) -> Option<Gift> {
    let mut before = 0usize;
    for call in calls {
        if let StoreCall::Got {
            answer: GetAnswer::Given { put, flipped },
            ..
        } = *call
        {
            if before == number {
                return Some(Gift { put, flipped });
            }
            before = before.saturating_add(1);
        }
    }
    None
}

// The record of that gift.
fn record_given(
    alloc: Global,
    store: &PlannedStore,
    number: usize,
) -> Result<Option<Record>, Memory> {
    let Some(gift) = nth_gift(store.calls(), number) else {
        return Ok(None);
    };
    let Some(rec) = store.puts().get(gift.put as usize) else {
        return Ok(None);
    };
    Ok(Some(copy_of(alloc, rec, gift.flipped)?))
}

// A copy of a record. Where a bit is named, that bit of its bytes is inverted.
fn copy_of(alloc: Global, rec: &Record, flipped: Option<u32>) -> Result<Record, Memory> {
    let mut bytes = rec.to_bytes(alloc)?;
    if let Some(bit) = flipped
        && let Some(byte) = bytes.get_mut(bit as usize / 8)
    {
        *byte ^= 1 << (bit % 8);
    }
    // These are as many bytes as a record has, so only memory can be refused.
    Record::from_bytes(alloc, &bytes).map_err(|_| Memory)
}
