//! What jobs that were read tell.

use super::enclaves::{DIGEST, Digest, TWO, expects, is_two};
use super::grammar::{WHOLE, is_whole};
use super::jobs::{FIRST, is_first};
use super::operations::{SCRIPT, has_operations};
use super::texts::Row;
use job_grammar::jobs::Job;
use std::process::Abort;

// What a job that was read tells.
pub enum Told {
    Anything,
    First,
    Whole,
    Two,
    Operations,
    Digests(Digest, Digest),
}

pub fn tells(rt: &impl Abort, job: &Job, told: &Told) {
    match told {
        Told::Anything => {}
        Told::First => is_first(rt, job),
        Told::Whole => is_whole(rt, job),
        Told::Two => is_two(rt, job),
        Told::Operations => has_operations(rt, job),
        Told::Digests(one, other) => expects(rt, job, one, other),
    }
}

// Jobs that are looked at: a text, the part of it that is replaced, and what the job tells.
pub const JOBS: &[(&str, Row<'static>, Told)] = &[
    (
        FIRST,
        ("the first job", "epc 6", "epc 6", "Read"),
        Told::First,
    ),
    (
        WHOLE,
        ("the whole job", "epc 40", "epc 40", "Read"),
        Told::Whole,
    ),
    (TWO, ("two enclaves", "epc 10", "epc 10", "Read"), Told::Two),
    (
        FIRST,
        (
            "every operation",
            "eenter A 0\nload 0x2000\neexit\n",
            SCRIPT,
            "Read",
        ),
        Told::Operations,
    ),
    (
        TWO,
        (
            "a digest first in A",
            "tcs 0 1 1\n",
            "expect 000102030405060708090a0b0c0d0e0f101112131415161718191a1b1c1d1e1f\ntcs 0 1 1\n",
            "Read",
        ),
        Told::Digests(Some(DIGEST), None),
    ),
    (
        TWO,
        (
            "within A",
            "reg 2 1 r 7",
            "expect 000102030405060708090a0b0c0d0e0f101112131415161718191a1b1c1d1e1f\nreg 2 1 r 7",
            "Read",
        ),
        Told::Digests(Some(DIGEST), None),
    ),
    (
        TWO,
        (
            "last in A",
            "enclave B",
            "expect 000102030405060708090a0b0c0d0e0f101112131415161718191a1b1c1d1e1f\nenclave B",
            "Read",
        ),
        Told::Digests(Some(DIGEST), None),
    ),
    (
        TWO,
        (
            "first in B",
            "reg 4 2 r 9",
            "expect 000102030405060708090a0b0c0d0e0f101112131415161718191a1b1c1d1e1f\nreg 4 2 r 9",
            "Read",
        ),
        Told::Digests(None, Some(DIGEST)),
    ),
    (
        TWO,
        (
            "last in B",
            "cpu 0",
            "expect 000102030405060708090a0b0c0d0e0f101112131415161718191a1b1c1d1e1f\ncpu 0",
            "Read",
        ),
        Told::Digests(None, Some(DIGEST)),
    ),
    (
        TWO,
        (
            "in both",
            "enclave B 0x10000 0x8000\nreg 4 2 r 9 plain\ntcs 0 1 1 plain\nreg 1 1 rw 0 plain\ncpu 0",
            "expect 000102030405060708090a0b0c0d0e0f101112131415161718191a1b1c1d1e1f\nenclave B 0x10000 0x8000\n\
            reg 4 2 r 9 plain\ntcs 0 1 1 plain\nreg 1 1 rw 0 plain\n\
            expect ffffffffffffffffffffffffffffffffffffffffffffffffffffffffffffffff\ncpu 0",
            "Read",
        ),
        Told::Digests(Some(DIGEST), Some([255; 32])),
    ),
];
