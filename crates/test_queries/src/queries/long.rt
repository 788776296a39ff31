//! Long lists of entries, and many questions to them. The bench `queries` runs each test by itself.

use super::places::P2;
use super::words::{JOB, index_of};
use job_text::reader::read_job;
use std::alloc::Global;
use std::process::Abort;
use std::test::Fail;
use trace_query::index::Index;
use trace_reader::reader::read_trace;

const BUILT: &[u8] =
    b"trace 2\nb create A 1 0x10000 0x10000\nb add A 0 2 tcs - tcs 1 1\nb add A 1 3 reg rw words 0\n\
    b add A 2 4 reg rw words 7\nend 4\n";

// A processor enters, uses page 2, writes a word of it and leaves; the page goes out and comes back.
const ROUND: &[u8] =
    b"trace 2\np0 enter A 0 2 3 0\np0 fill 2 4\np0 store 0x2000 9\np0 load 0x2000 9\np0 exit\nr block 4\nr ewbstart 4 5 0 1\n\
    r ewb 4 A 2 1 708a1f4f66aa575b983e1da6b02b8230e890fb4d346ab6f9dfbe0e029caccf3a\np0 eldstart 4 A 2 5 0 1\n\
    p0 eld 4 A 2 1 708a1f4f66aa575b983e1da6b02b8230e890fb4d346ab6f9dfbe0e029caccf3a\nend 10\n";

// An index over the build and so many rounds of ten entries.
fn index_behind(alloc: Global, rounds: u32) -> Result<Box<Index>, Fail> {
    let job = read_job(alloc, JOB)?;
    let built = read_trace(alloc, BUILT)?;
    let round = read_trace(alloc, ROUND)?;
    let mut index = index_of(alloc, &job)?;
    for entry in &built {
        index.push(alloc, entry)?;
    }
    for _ in 0..rounds {
        for entry in &round {
            index.push(alloc, entry)?;
        }
    }
    Ok(index)
}

// Asks all questions behind so many numbers of entries, which are spread over all of them.
fn ask(rt: &impl Abort, alloc: Global, index: &Index, times: u64) -> Result<(), Fail> {
    let mut found = 0u64;
    for k in 0..times {
        let n = k.wrapping_mul(7919) % 1_000_003;
        let cpus = index.who_caches(alloc, n, P2)?;
        found = found.wrapping_add(cpus.len() as u64);
        if index.word_at(n, P2, 0).is_some() {
            found = found.wrapping_add(1);
        }
        let _ = index.where_is(n, P2);
    }
    assert!(rt; found > 0);
    Ok(())
}

#[test]
fn ten_thousand_entries_are_pushed(rt: HostRuntime) -> Result<(), Fail> {
    let index = index_behind(rt.alloc(), 1_000)?;
    assert_eq!(rt; index.len(), 10_004);
    Ok(())
}

#[test]
fn a_million_entries_are_pushed(rt: HostRuntime) -> Result<(), Fail> {
    let index = index_behind(rt.alloc(), 100_000)?;
    assert_eq!(rt; index.len(), 1_000_004);
    Ok(())
}

#[test]
fn ten_thousand_entries_are_asked_of(rt: HostRuntime) -> Result<(), Fail> {
    let alloc = rt.alloc();
    let index = index_behind(alloc, 1_000)?;
    ask(&rt, alloc, &index, 100_000)
}

#[test]
fn a_million_entries_are_asked_of(rt: HostRuntime) -> Result<(), Fail> {
    let alloc = rt.alloc();
    let index = index_behind(alloc, 100_000)?;
    ask(&rt, alloc, &index, 100_000)
}
