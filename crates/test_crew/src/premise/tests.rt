//! Runs, and what is told of their records. How many were put, given and opened is what the reference program counted. That is a plain,
//! unverified program with the same command line.

use crate::premise::forging::Forging;
use crate::premise::jobs::{
    ARRAY_LEFT, ARRAYS, Gifts, NEWEST, NO_ROOM, OLDER, Row, SHORT, text_of,
};
use crate::premise::records::records_of;
use crate::premise::report::{Report, report_of};
use crate::premise::runs::by_rounds;
use backing_store::planned_store::PlannedStore;
use job_text::reader::read_job;
use sgx_rules::entries::{Action, BusWhy, Entry, Event};
use sgx_rules::refusals::Refusal;
use sgx_types::names::{Actor, Cpu, Page};
use std::alloc::Global;
use std::process::Abort;
use std::sync::Wait;
use std::test::Fail;

// What there is to say of the run of a row's job. None where the run does not tell its records.
fn report_on<R: Wait>(rt: &R, alloc: Global, row: &Row) -> Result<Option<Report>, Fail> {
    let text = text_of(alloc, row)?;
    let job = Box::new(alloc, read_job(alloc, text.as_bytes())?)?;
    let run = by_rounds(rt, alloc, job, PlannedStore::new())?;
    let key = *run.job.key();
    let Some(mut records) = records_of(alloc, &run.entries, &run.store)? else {
        return Ok(None);
    };
    if row.gifts == Gifts::OneForged {
        records.forge(alloc, &key)?;
    }
    Ok(Some(report_of(alloc, &key, &records)?))
}

fn tells<R: Abort + Wait>(rt: &R, alloc: Global, row: &Row) -> Result<(), Fail> {
    let report = report_on(rt, alloc, row)?;
    assert_eq!(rt; report, Some(row.told), "{}", row.name);
    Ok(())
}

#[test]
fn newest_records_are_not_forged(rt: HostRuntime) -> Result<(), Fail> {
    tells(&rt, rt.alloc(), &NEWEST)
}

#[test]
fn an_older_record_is_not_forged(rt: HostRuntime) -> Result<(), Fail> {
    tells(&rt, rt.alloc(), &OLDER)
}

#[test]
fn no_record_is_forged_where_room_lacks_once(rt: HostRuntime) -> Result<(), Fail> {
    tells(&rt, rt.alloc(), &NO_ROOM)
}

#[test]
fn no_record_is_forged_where_a_version_array_page_leaves(rt: HostRuntime) -> Result<(), Fail> {
    tells(&rt, rt.alloc(), &ARRAYS)
}

#[test]
fn no_record_of_a_short_run_is_forged_but_one(rt: HostRuntime) -> Result<(), Fail> {
    for row in SHORT {
        tells(&rt, rt.alloc(), row)?;
    }
    Ok(())
}

const TCS: Page = Page {
    enclave: 1,
    number: 0,
};

// What there is of an entry: the start of a load of the TCS page that finds no version, that page told as lost by it, or another bus.
#[derive(Clone, Copy, Debug, PartialEq, Eq)]
enum Sign {
    NoVersion,
    Slot,
    OtherBus,
}

fn sign_of(entry: &Entry) -> Option<Sign> {
    if entry.actor != Actor::Cpu(Cpu(0)) {
        return None;
    }
    match entry.event {
        Event::Refused {
            action: Action::EldStart { page: TCS, .. },
            why: Refusal::SlotEmpty,
        } => Some(Sign::NoVersion),
        Event::Bus {
            page: TCS,
            why: BusWhy::Slot,
        } => Some(Sign::Slot),
        Event::Bus { .. } => Some(Sign::OtherBus),
        _ => None,
    }
}

// The version array page comes back without the version of the TCS page, whose load is then refused. So it went at the reference program.
#[test]
fn a_load_finds_no_version_in_a_forged_array(rt: HostRuntime) -> Result<(), Fail> {
    let alloc = rt.alloc();
    let job = Box::new(alloc, read_job(alloc, ARRAY_LEFT.as_bytes())?)?;
    let store = Forging {
        store: PlannedStore::new(),
        key: *job.key(),
        va: 1,
        index: 91,
    };
    let run = by_rounds(&rt, alloc, job, store)?;
    let signs: Vec<Sign> = run.entries.iter().filter_map(sign_of).collect(alloc)?;
    assert_eq!(rt; signs.as_slice(), [Sign::NoVersion, Sign::Slot].as_slice());
    Ok(())
}
