//! The jobs that are run, what the store of each does, and what is told of its records.

use crate::premise::report::{Fault, Report};
use sgx_types::names::PAGE_BYTES;
use std::alloc::{AllocError, Global};
use std::fmt::Write;

/// A job, whose store keeps to one plan line, or to none.
#[derive(Clone, Copy)]
pub struct Row {
    pub name: &'static str,
    pub plan: &'static str,
    pub work: Work,
    pub gifts: Gifts,
    pub told: Report,
}

/// What is looked at.
#[derive(Clone, Copy, PartialEq, Eq)]
pub enum Gifts {
    AsGiven,

    /// The first record is replaced by a forged one.
    OneForged,
}

/// What a job's processors do.
#[derive(Clone, Copy, PartialEq, Eq)]
pub enum Work {
    /// One stores into each of forty pages, and then loads from each.
    FortyPages,

    /// Two load from one page each.
    TwoLoads,

    /// One loads from an enclave whose SECS has left.
    FirstEnclave,

    /// One uses three of 1,202 pages, where a version array page has left.
    ThreePages,
}

/// Long runs.
pub const NEWEST: Row = Row {
    name: "newest records",
    plan: "",
    work: Work::FortyPages,
    gifts: Gifts::AsGiven,
    told: Report {
        put: 114,
        given: 82,
        opened: 82,
        elsewhere: 0,
        fault: None,
    },
};

pub const OLDER: Row = Row {
    name: "an older record",
    plan: "store replay A 2 2 1\n",
    work: Work::FortyPages,
    gifts: Gifts::AsGiven,
    told: Report {
        put: 75,
        given: 43,
        opened: 42,
        elsewhere: 1,
        fault: None,
    },
};

pub const NO_ROOM: Row = Row {
    name: "no room once",
    plan: "store fail room 1\n",
    work: Work::FortyPages,
    gifts: Gifts::AsGiven,
    told: Report {
        put: 114,
        given: 82,
        opened: 82,
        elsewhere: 0,
        fault: None,
    },
};

/// A run with a thousand write-outs, one of them of a version array page.
pub const ARRAYS: Row = Row {
    name: "a version array page",
    plan: "",
    work: Work::ThreePages,
    gifts: Gifts::AsGiven,
    told: Report {
        put: 1172,
        given: 6,
        opened: 6,
        elsewhere: 0,
        fault: None,
    },
};

/// Short runs. Of the last a record is forged.
pub const SHORT: &[Row] = &[
    Row {
        name: "a flipped bit",
        plan: "store flip A 2 1 192\n",
        work: Work::FortyPages,
        gifts: Gifts::AsGiven,
        told: Report {
            put: 36,
            given: 3,
            opened: 2,
            elsewhere: 0,
            fault: None,
        },
    },
    Row {
        name: "two pages swapped",
        plan: "store swap A 2 A 3\n",
        work: Work::TwoLoads,
        gifts: Gifts::AsGiven,
        told: Report {
            put: 37,
            given: 4,
            opened: 2,
            elsewhere: 2,
            fault: None,
        },
    },
    Row {
        name: "a get that fails",
        plan: "store fail get 3\n",
        work: Work::FortyPages,
        gifts: Gifts::AsGiven,
        told: Report {
            put: 36,
            given: 2,
            opened: 2,
            elsewhere: 0,
            fault: None,
        },
    },
    Row {
        name: "a SECS",
        plan: "",
        work: Work::FirstEnclave,
        gifts: Gifts::AsGiven,
        told: Report {
            put: 40,
            given: 4,
            opened: 4,
            elsewhere: 0,
            fault: None,
        },
    },
    Row {
        name: "a forged record",
        plan: "",
        work: Work::TwoLoads,
        gifts: Gifts::OneForged,
        told: Report {
            put: 39,
            given: 4,
            opened: 4,
            elsewhere: 0,
            fault: Some(Fault::Forged { given: 0, put: 0 }),
        },
    },
];

// An enclave of 42 pages, for 10 frames beside its control page and the slots.
const ENCLAVE: &str =
    "epc 12\nenclave A 0x40000 0x40000\ntcs 0 1 1 plain\nreg 1 1 rw 0 plain\nreg 2 40 rw 0 plain\n";

const SECOND_TCS: &str = "tcs 42 43 1 plain\nreg 43 1 rw 0 plain\n";

const TWO_LOADS: &str = "cpu 0\neenter A 0\nload 0x2000\ncpu 1\neenter A 42\nload 0x3000\n";

const FIRST_ENCLAVE: &str =
    "epc 12\nenclave A 0x10000 0x10000\ntcs 0 1 1 plain\nreg 1 1 rw 0 plain\nreg 2 1 rw 7 plain\n\
    enclave B 0x40000 0x40000\ntcs 0 1 1 plain\nreg 1 1 rw 0 plain\nreg 2 40 rw 0 plain\n\
    cpu 0\neenter A 0\nload 0x2000\neexit\n";

const THREE_PAGES: &str =
    "epc 40\nenclave A 0x800000 0x800000\nreg 2 599 rw 0 plain\ntcs 0 1 1 plain\nreg 1 1 rw 0 plain\n\
    reg 601 601 rw 0 plain\ncpu 0\neenter A 0\nstore 0x2000 1\nstore 0x258000 2\nstore 0x4b1000 3\n\
    load 0x2000\nload 0x258000\nload 0x4b1000\neexit\n";

/// A processor that enters an enclave of 1,061 pages, of which a version array page has left with the slot of its TCS page.
pub const ARRAY_LEFT: &str =
    "epc 40\nenclave A 0x800000 0x800000\nreg 2 599 rw 0 plain\ntcs 0 1 1 plain\nreg 1 1 rw 0 plain\n\
    reg 601 460 rw 0 plain\ncpu 0\neenter A 0\nstore 0x2000 1\nstore 0x258000 2\nload 0x2000\nload 0x258000\neexit\n";

/// The text of a row's job.
pub fn text_of(alloc: Global, row: &Row) -> Result<String, AllocError> {
    match row.work {
        Work::FortyPages => {
            let mut text = String::from_str(alloc, ENCLAVE)?;
            text.push_str(row.plan)?;
            push_forty_pages(&mut text)?;
            Ok(text)
        }
        Work::TwoLoads => joined(alloc, [ENCLAVE, SECOND_TCS, row.plan, TWO_LOADS]),
        Work::FirstEnclave => String::from_str(alloc, FIRST_ENCLAVE),
        Work::ThreePages => String::from_str(alloc, THREE_PAGES),
    }
}

fn joined(alloc: Global, parts: [&str; 4]) -> Result<String, AllocError> {
    let mut text = String::new(alloc);
    for part in parts {
        text.push_str(part)?;
    }
    Ok(text)
}

fn push_forty_pages(text: &mut String) -> Result<(), AllocError> {
    text.push_str("cpu 0\neenter A 0\n")?;
    for number in 1..41u64 {
        let at = (number + 1) * PAGE_BYTES;
        writeln!(text, "store 0x{at:x} {number}")?;
    }
    for number in 1..41u64 {
        let at = (number + 1) * PAGE_BYTES;
        writeln!(text, "load 0x{at:x}")?;
    }
    text.push_str("eexit\n")
}
