//! Runs of jobs in which a SECS or a version array page leaves, and comes back before a page that needs it.

use crate::calls::compare;
use crate::run_tests::{of_parts, push_all_signs, push_line};
use crate::same::are_same;
use page_commands::status::Status;
use std::alloc::{Alloc, Global};
use std::process::Abort;
use std::sync::Wait;
use std::test::Fail;
use std::thread::Threads;

// Two enclaves: while the pages of the second are added, all pages of the first go out, and then its SECS.
const TWO: &[u8] =
    b"epc 12\nenclave A 0x10000 0x10000\ntcs 0 1 1 plain\nreg 1 1 rw 0 plain\nreg 2 1 rw 7 plain\n\
    enclave B 0x40000 0x40000\ntcs 0 1 1 plain\nreg 1 1 rw 0 plain\nreg 2 40 rw 0 plain\n";

const LOAD: &[u8] = b"cpu 0\neenter A 0\nload 0x2000\neexit\n";

// Pages for three version array pages, of which the second is full before the last page is added.
const MANY: &[u8] =
    b"epc 40\nenclave A 0x800000 0x800000\nreg 2 599 rw 0 plain\ntcs 0 1 1 plain\nreg 1 1 rw 0 plain\n\
    reg 601 601 rw 0 plain\n";

const STORES: &[u8] =
    b"cpu 0\neenter A 0\nstore 0x2000 1\nstore 0x258000 2\nstore 0x4b1000 3\nload 0x2000\nload 0x258000\n\
    load 0x4b1000\neexit\n";

// A job, how its run ends, its replies, all that its trace tells of what went wrong, a line of the trace, words that none has, and the
// pages that come back first.
struct Row {
    parts: &'static [&'static [u8]],
    status: Status,
    replies: &'static [u8],
    told: &'static str,
    line: &'static str,
    never: &'static str,
    loads: &'static str,
}

const ROWS: &[Row] = &[
    Row {
        parts: &[TWO, LOAD],
        status: Status::Done,
        replies: b"A init\nB init\ncpu 0\ncssa 0\n7\nexit\n",
        told: "",
        line: "r age A secs taken",
        never: " bus ",
        loads: "A secs\nA 0\nA 1\nA 2\n",
    },
    Row {
        parts: &[TWO, b"store fail get 1\n", LOAD],
        status: Status::Bus,
        replies: b"A init\nB init\ncpu 0\nbus\n",
        told: "p0 bus A secs get\n",
        line: "r age A secs taken",
        never: " eld ",
        loads: "",
    },
    Row {
        parts: &[TWO, b"store fail room 4\n", LOAD],
        status: Status::Done,
        replies: b"A init\nB init\ncpu 0\ncssa 0\n7\nexit\n",
        told: "noroom\n",
        line: "r age A secs noroom",
        never: " bus ",
        loads: "A 0\nA 1\nA 2\n",
    },
    Row {
        parts: &[MANY, STORES],
        status: Status::Done,
        replies: b"A init\ncpu 0\ncssa 0\nok\nok\nok\n1\n2\n3\nexit\n",
        told: "",
        line: "r age va 1 taken",
        never: " age va 0 ",
        loads: "va 1\nA 0\nA 1\n",
    },
    Row {
        parts: &[MANY, b"store fail get 1\n", STORES],
        status: Status::Bus,
        replies: b"A init\ncpu 0\nbus\n",
        told: "p0 bus va 1 get\n",
        line: "r age va 1 taken",
        never: " age va 0 ",
        loads: "",
    },
];

// Adds the page of a load that is done.
fn push_load(line: &str, pages: &mut String) -> Result<(), Fail> {
    let mut words = line.split(' ').skip(1);
    if words.next() == Some("eld") {
        pages.push_str(words.nth(1).unwrap_or(""))?;
        pages.push_str(" ")?;
        push_line(pages, words.next().unwrap_or(""))?;
    }
    Ok(())
}

// Adds the pages of the loads that are done, in their order.
fn push_loads(trace: &str, pages: &mut String) -> Result<(), Fail> {
    for line in trace.lines() {
        push_load(line, pages)?;
    }
    Ok(())
}

// Whether a text has this line.
fn has_line(text: &str, wanted: &str) -> bool {
    for line in text.lines() {
        if line == wanted {
            return true;
        }
    }
    false
}

fn goes_away(
    rt: &(impl Abort + Alloc<A = Global> + Threads + Wait + Sync),
    row: &Row,
) -> Result<(), Fail> {
    let given = of_parts(rt, row.parts)?;
    let trace = str::from_utf8(&given.trace).unwrap_or("MacFail");
    compare(rt, &given, row.status, row.replies);
    are_same(rt, has_line(trace, row.line), true);
    are_same(rt, trace.contains(row.never), false);
    let mut told = String::new(rt.alloc());
    push_all_signs(trace, &mut told)?;
    are_same(rt, told.as_str(), row.told);
    let mut pages = String::new(rt.alloc());
    push_loads(trace, &mut pages)?;
    are_same(rt, pages.starts_with(row.loads), true);
    Ok(())
}

#[test]
fn a_secs_and_a_version_array_page_leave_and_come_back(rt: HostRuntime) -> Result<(), Fail> {
    for row in ROWS {
        goes_away(&rt, row)?;
    }
    Ok(())
}
