//! All questions to the trace of a small job, and again where a push was refused memory.

use super::places::P2;
use crate::same::are_same;
use job_grammar::jobs::Job;
use job_text::reader::read_job;
use sgx_rules::entries::Entry;
use sgx_types::names::{Cpu, Frame, Page};
use std::alloc::Global;
use std::process::Abort;
use std::test::Fail;
use trace_places::moves::Where;
use trace_query::index::Index;
use trace_reader::reader::read_trace;

pub(super) const JOB: &[u8] =
    b"epc 6\nenclave A 0x10000 0x10000\ntcs 0 1 1 plain\nreg 1 1 rw 0 plain\nreg 2 1 rw 7 plain\ncpu 0\neenter A 0\n\
    load 0x2000\neexit\n";

// A word is written from outside, which counts for nothing, and twice from inside. Then the accumulator is saved, and taken back.
const TRACE: &[u8] =
    b"trace 2\nb create A 1 0x10000 0x10000\nb add A 0 2 tcs - tcs 1 1\nb add A 1 3 reg rw words 0\n\
    b add A 2 4 reg rw words 7\nb init A - 006d518bbd8825da4a0e7d35d418aaf16b7749c62854a6f40d8d58db415a8c31\n\
    p0 store 0x2000 9\np0 enter A 0 2 3 0\np0 store 0x2000 9\np0 xadd 0x2000 1 9\np0 fill 2 4\np0 set 5\np0 aex timer\n\
    p0 resume A 0 2 3 5\nend 13\n";

const SAVE_PAGE: Page = Page {
    enclave: 1,
    number: 1,
};

const TCS: Page = Page {
    enclave: 1,
    number: 0,
};

// Page, index, and the words behind so many entries.
const WORDS: &[(Page, u16, &[(u64, Option<u64>)])] = &[
    (
        P2,
        0,
        &[
            (3, None),
            (4, Some(7)),
            (7, Some(7)),
            (8, Some(9)),
            (9, Some(10)),
            (u64::MAX, Some(10)),
        ],
    ),
    (P2, 511, &[(3, None), (13, Some(7))]),
    (
        SAVE_PAGE,
        0,
        &[(2, None), (11, Some(0)), (12, Some(5)), (13, Some(5))],
    ),
    (TCS, 2, &[(1, None), (2, Some(4096)), (13, Some(4096))]),
    (
        TCS,
        3,
        &[
            (11, Some(4294967296)),
            (12, Some(4294967297)),
            (13, Some(4294967296)),
        ],
    ),
];

fn words_are(rt: &impl Abort, index: &Index, most: u64) {
    for (page, k, words) in WORDS {
        for (n, word) in *words {
            if *n <= most {
                assert!(rt; *k < 512);
                are_same(rt, (*k, *n, index.word_at(*n, *page, *k)), (*k, *n, *word));
            }
        }
    }
}

// Where page 2 is behind so many entries, and whether processor 0 caches it there.
const SEEN: &[(u64, Where, bool)] = &[
    (3, Where::Nowhere, false),
    (4, Where::At(Frame(4)), false),
    (9, Where::At(Frame(4)), false),
    (10, Where::At(Frame(4)), true),
    (12, Where::At(Frame(4)), false),
];

fn is_seen(rt: &impl Abort, alloc: Global, index: &Index, most: u64) {
    for (n, there, cached) in SEEN {
        if *n <= most {
            are_same(rt, (*n, index.where_is(*n, P2)), (*n, *there));
            if let Ok(cpus) = index.who_caches(alloc, *n, P2) {
                are_same(rt, (*n, !cpus.is_empty()), (*n, *cached));
            }
        }
    }
}

// Pushes the entries. Where one is refused memory, what was known is known still, and the next try takes the entry.
fn push_all(rt: &impl Abort, alloc: Global, index: &mut Index, entries: &[Entry]) {
    for (place, entry) in entries.iter().enumerate() {
        if index.push(alloc, entry).is_err() {
            are_same(rt, index.len(), place as u64);
            words_are(rt, index, place as u64);
            is_seen(rt, alloc, index, place as u64);
            let again = index.push(alloc, entry);
            assert!(rt; again.is_ok());
        }
    }
}

pub(super) fn index_of(alloc: Global, job: &Job) -> Result<Box<Index>, Fail> {
    let index = Box::new(alloc, Index::new(alloc, job)?)?;
    Ok(index)
}

// The same, by the questions one by one.
fn is_asked(rt: &impl Abort, alloc: Global, index: &Index) -> Result<(), Fail> {
    are_same(rt, index.len(), 13);
    are_same(rt, index.where_is(13, P2), Where::At(Frame(4)));
    are_same(rt, index.where_is(3, P2), Where::Nowhere);
    let cpus = index.who_caches(alloc, 10, P2)?;
    are_same(rt, cpus.as_slice(), [Cpu(0)].as_slice());
    let none = index.who_caches(alloc, 12, P2)?;
    assert!(rt; none.is_empty());
    let moves = index.moves(alloc, P2)?;
    assert!(rt; moves.len() == 1);
    are_same(rt, moves[0].place, 4);
    Ok(())
}

#[test]
fn questions_are_answered_behind_each_entry(rt: HostRuntime) -> Result<(), Fail> {
    let alloc = rt.alloc();
    let job = read_job(alloc, JOB)?;
    let entries = read_trace(alloc, TRACE)?;
    let mut index = index_of(alloc, &job)?;
    push_all(&rt, alloc, &mut index, &entries);
    words_are(&rt, &index, u64::MAX);
    is_seen(&rt, alloc, &index, u64::MAX);
    is_asked(&rt, alloc, &index)
}
