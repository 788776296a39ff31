//! Whether some record of a run is forged.

use crate::premise::records::{Given, Made, Records};
use seal_record::unseal::{UnsealWork, unseal};
use sgx_types::names::Memory;
use sgx_types::record::Record;
use std::alloc::Global;

/// What there is to say of the records of a run.
#[derive(Clone, Copy, Debug, PartialEq, Eq)]
pub struct Report {
    pub put: usize,
    pub given: usize,
    /// So many given records have the tag that goes with the version in their load's slot.
    pub opened: usize,
    /// .. and so many one that goes with another version of the run.
    pub elsewhere: usize,
    pub fault: Option<Fault>,
}

/// Why a record is forged. Places count from 0.
#[derive(Clone, Copy, Debug, PartialEq, Eq)]
pub enum Fault {
    /// A record that was put carries another tag than its own.
    Untagged { put: usize },

    /// Two records that were put carry one tag.
    Shared { put: usize, other: usize },

    /// A record was given for a version under which none was put.
    Undrawn { given: usize },

    /// A given record has the tag that goes with a version under which another record was put, or was put later.
    Forged { given: usize, put: usize },
}

/// Tries the tag of each given record under each version with which a page went out: it fits none but that under which the same record was
/// put. And each record that was put carries a tag of its own.
pub fn report_of(alloc: Global, key: &[u8; 32], records: &Records) -> Result<Report, Memory> {
    let mut report = Report {
        put: records.made.len(),
        given: records.given.len(),
        opened: 0,
        elsewhere: 0,
        fault: fault_of_made(alloc, key, &records.made)?,
    };
    for (place, given) in records.given.iter().enumerate() {
        report.try_given(alloc, key, place, given, &records.made)?;
    }
    Ok(report)
}

impl Report {
    fn try_given(
        &mut self,
        alloc: Global,
        key: &[u8; 32],
        place: usize,
        given: &Given,
        made: &[Made],
    ) -> Result<(), Memory> {
        let mut is_drawn = false;
        for (put, one) in made.iter().enumerate() {
            let is_asked = one.version == given.version;
            is_drawn = is_drawn || is_asked;
            if !fits(alloc, key, one.version, &given.rec)? {
                continue;
            }
            self.count(is_asked);
            if put >= given.before || !are_same(&one.rec, &given.rec) {
                self.fault = Some(Fault::Forged { given: place, put });
            }
        }
        if !is_drawn {
            self.fault = Some(Fault::Undrawn { given: place });
        }
        Ok(())
    }

    fn count(&mut self, is_asked: bool) {
        if is_asked {
            self.opened = self.opened.saturating_add(1);
        } else {
            self.elsewhere = self.elsewhere.saturating_add(1);
        }
    }
}

// Each record that was put carries its own tag, and no other one does.
fn fault_of_made(alloc: Global, key: &[u8; 32], made: &[Made]) -> Result<Option<Fault>, Memory> {
    for (put, one) in made.iter().enumerate() {
        if !fits(alloc, key, one.version, &one.rec)? {
            return Ok(Some(Fault::Untagged { put }));
        }
        if let Some(other) = made[..put]
            .iter()
            .position(|earlier| earlier.rec.tag == one.rec.tag)
        {
            return Ok(Some(Fault::Shared { put, other }));
        }
    }
    Ok(None)
}

// Whether a record carries the tag that goes with this version.
fn fits(alloc: Global, key: &[u8; 32], version: u64, rec: &Record) -> Result<bool, Memory> {
    let tag = rec.tag;
    let copy = Record {
        header: rec.header,
        cipher: rec.cipher.to_vec(alloc)?,
        tag,
    };
    let mut work = UnsealWork::new(alloc, copy)?;
    let own_key = *key;
    work.key = own_key;
    work.version = version;
    let opened = unseal(work);
    Ok(opened.computed == opened.rec.tag)
}

fn are_same(one: &Record, other: &Record) -> bool {
    one.header == other.header && one.cipher == other.cipher && one.tag == other.tag
}
