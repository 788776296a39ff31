//! Verdicts on old traces, traces that are none, and edges that fail.

ghost use Rattle.std.specs.Prelude.{◌≤◌};

use crate::audited_traces::{BEFORE_ELD, BEHIND_ELD, CUT_ELD, ELD, OLDER_ELD, RELOAD_JOB};
use crate::calls::{RUN, compare, given_by, given_with, joined};
use crate::paged_jobs::{ENCLAVE, EPC, SCRIPT};
use crate::run_tests::{JOB, TRACE, of_parts, push_line};
use crate::same::are_same;
use page_commands::status::Status;
use std::alloc::{Alloc, Global};
use std::fmt::Write;
use std::process::Abort;
use std::sync::Wait;
use std::test::Fail;
use std::thread::Threads;

const AUDIT: &[&str] = &["audit", "t"];

const CHECK: &[&str] = &["check", "t"];

const MAKE: &[&str] = &["make", "1", "200"];

/// The trace of the first job without its last entry.
const INSIDE: &[u8] =
    b"trace 2\nb epa 0 0\nb create A 1 0x10000 0x10000\nb add A 0 2 tcs - tcs 1 1\nb add A 1 3 reg rw words 0\n\
    b add A 2 4 reg rw words 7\nb init A - 006d518bbd8825da4a0e7d35d418aaf16b7749c62854a6f40d8d58db415a8c31\n\
    p0 enter A 0 2 3 0\np0 fill 2 4\np0 load 0x2000 7\nend 9\n";

// A job and the parts of an old trace, how many bytes a call moves, which calls of the job, of the trace and of the output fail, how that
// ends, what is told, and whether the trace is left as it was.
struct Row {
    job: &'static [u8],
    old: &'static [&'static [u8]],
    piece: usize,
    fails: [&'static [u64]; 3],
    status: Status,
    told: &'static [u8],
    unread: bool,
}

const NO_FAULT: [&[u64]; 3] = [&[], &[], &[]];

const ROWS: &[Row] = &[
    Row {
        job: JOB,
        old: &[TRACE],
        piece: 1000,
        fails: NO_FAULT,
        status: Status::Done,
        told: b"yes\n",
        unread: false,
    },
    // Something is missing at the end.
    Row {
        job: JOB,
        old: &[INSIDE],
        piece: 7,
        fails: NO_FAULT,
        status: Status::AuditNo,
        told: b"no 9 Script\n",
        unread: false,
    },
    Row {
        job: RELOAD_JOB,
        old: &[BEFORE_ELD, ELD, BEHIND_ELD],
        piece: 100,
        fails: NO_FAULT,
        status: Status::Done,
        told: b"yes\n",
        unread: false,
    },
    Row {
        job: RELOAD_JOB,
        old: &[BEFORE_ELD, OLDER_ELD, BEHIND_ELD],
        piece: 1,
        fails: NO_FAULT,
        status: Status::AuditNo,
        told: b"no 36 Fresh\n",
        unread: false,
    },
    Row {
        job: RELOAD_JOB,
        old: &[BEFORE_ELD, CUT_ELD],
        piece: 1,
        fails: NO_FAULT,
        status: Status::BadTrace,
        told: b"trace line 38\n",
        unread: false,
    },
    // No job, or none that can be read, and no trace that can be read.
    Row {
        job: b"",
        old: &[TRACE],
        piece: 7,
        fails: [&[], &[1], &[]],
        status: Status::BadJob,
        told: b"job line 1: Missing\n",
        unread: true,
    },
    Row {
        job: JOB,
        old: &[TRACE],
        piece: 7,
        fails: [&[3], &[], &[]],
        status: Status::ReadFault,
        told: b"",
        unread: true,
    },
    Row {
        job: JOB,
        old: &[TRACE],
        piece: 7,
        fails: [&[], &[1], &[]],
        status: Status::ReadFault,
        told: b"",
        unread: true,
    },
    Row {
        job: JOB,
        old: &[TRACE],
        piece: 7,
        fails: [&[], &[2], &[]],
        status: Status::ReadFault,
        told: b"",
        unread: false,
    },
    // The output fails, at once or behind a front of its text.
    Row {
        job: JOB,
        old: &[TRACE],
        piece: 3,
        fails: [&[], &[], &[1]],
        status: Status::WriteFault,
        told: b"",
        unread: false,
    },
    Row {
        job: JOB,
        old: &[TRACE],
        piece: 3,
        fails: [&[], &[], &[2]],
        status: Status::WriteFault,
        told: b"yes",
        unread: false,
    },
    Row {
        job: JOB,
        old: &[INSIDE],
        piece: 7,
        fails: [&[], &[], &[2]],
        status: Status::WriteFault,
        told: b"no 9 Sc",
        unread: false,
    },
];

// All that `check` uses of a job: frames, and the key and the first numbers as they are where none are told.
const THREE_LINES: &[u8] = b"epc 6\nenclave A 0x0 0x2000\ncpu 0\n";

/// An enclave is built as in the first job.
const BUILT: &[u8] =
    b"trace 2\nb epa 0 0\nb create A 1 0x10000 0x10000\nb add A 0 2 tcs - tcs 1 1\nb add A 1 3 reg rw words 0\n\
    b add A 2 4 reg rw words 7\nb init A - 006d518bbd8825da4a0e7d35d418aaf16b7749c62854a6f40d8d58db415a8c31\n";

/// A driver that takes frames from the top, and any slot, and evicts while a processor is inside: up to a block.
const BLOCKED: &[u8] =
    b"trace 2\nb epa 5 0\nb create A 0 0x10000 0x10000\nb add A 0 4 tcs - tcs 1 1\nb add A 1 3 reg rw words 0\n\
    b add A 2 1 reg rw words 7\nb init A - 006d518bbd8825da4a0e7d35d418aaf16b7749c62854a6f40d8d58db415a8c31\n\
    p3 enter A 0 4 3 0\np3 fill 2 1\np3 load 0x2000 7\nr block 1\n";

const TRACKED: &[u8] = b"r track A\n";

const ASKED: &[u8] = b"r refused ewbstart 1 5 100 NotTracked 2 1\n";

// The tags are those of the pages' bytes under versions 1 and 2, by a program in Python.
const STARTED: &[u8] = b"p3 exit\nr ewbstart 1 5 100 1\n";

const WRITTEN: &[u8] =
    b"r ewb 1 A 2 1 b40eef08eb5a9b63894de250d90fd8369e8a79857a9d785288566a63671d4a6f\n";

const WRITTEN_BY_BUILDER: &[u8] =
    b"b ewb 1 A 2 1 b40eef08eb5a9b63894de250d90fd8369e8a79857a9d785288566a63671d4a6f\n";

const RELOADED: &[u8] =
    b"b eldstart 2 A 2 5 100 1\nb eld 2 A 2 1 b40eef08eb5a9b63894de250d90fd8369e8a79857a9d785288566a63671d4a6f\n";

// A load of a page that is here, from the slot of another one.
const HERE_STARTED: &[u8] = b"b eldstart 2 A 1 5 100 1\n";

const HERE_REFUSED: &[u8] =
    b"b refused eld 2 MacFail b40eef08eb5a9b63894de250d90fd8369e8a79857a9d785288566a63671d4a6f \
    b6771e6b5fb6b2e1b2e9727e6cce063fe54f9a852ddacc0da4984f760de30999\n";

const HERE_DONE: &[u8] =
    b"b eld 2 A 1 1 b40eef08eb5a9b63894de250d90fd8369e8a79857a9d785288566a63671d4a6f\n";

// Two pages go out, and one comes back by two loads at once, the second of which is from the slot of the other.
const TWICE: &[u8] = b"p3 exit\nr block 3\nr track A\n\
    r ewbstart 1 5 100 1\nr ewb 1 A 2 1 b40eef08eb5a9b63894de250d90fd8369e8a79857a9d785288566a63671d4a6f\n\
    r ewbstart 3 5 101 2\nr ewb 3 A 1 2 b6771e6b5fb6b2e1b2e9727e6cce063fe54f9a852ddacc0da4984f760de30999\n\
    b eldstart 2 A 2 5 100 1\nb eldstart 1 A 2 5 101 2\n\
    b eld 2 A 2 1 b40eef08eb5a9b63894de250d90fd8369e8a79857a9d785288566a63671d4a6f\n\
    b refused eld 1 MacFail b40eef08eb5a9b63894de250d90fd8369e8a79857a9d785288566a63671d4a6f \
    b6771e6b5fb6b2e1b2e9727e6cce063fe54f9a852ddacc0da4984f760de30999\nend 21\n";

// Traces by the processor's rules alone. The lines behind the verdict are those of bench/tally.py, which reads the text alone.
const CHECKED: &[Row] = &[
    Row {
        job: THREE_LINES,
        old: &[TRACE],
        piece: 7,
        fails: NO_FAULT,
        status: Status::Done,
        told: b"yes\nentries 10\nwritten 0\nentered 0\ncached 0\nreloaded 0\nagain 0\ndriver yes\n",
        unread: false,
    },
    // What is missing at the end is a driver's.
    Row {
        job: JOB,
        old: &[INSIDE],
        piece: 100,
        fails: NO_FAULT,
        status: Status::Done,
        told: b"yes\nentries 9\nwritten 0\nentered 0\ncached 0\nreloaded 0\nagain 0\ndriver yes\n",
        unread: false,
    },
    Row {
        job: RELOAD_JOB,
        old: &[BEFORE_ELD, OLDER_ELD, BEHIND_ELD],
        piece: 100,
        fails: NO_FAULT,
        status: Status::AuditNo,
        told: b"no 36 Fresh\nentries 76\nwritten 7\nentered 2\ncached 0\nreloaded 3\nagain 0\n\
            refused ewbstart NotTracked 8 9\ndriver yes\n",
        unread: false,
    },
    // A processor that the job has not, and what is refused to a driver as it should be.
    Row {
        job: THREE_LINES,
        old: &[
            BUILT,
            b"r refused load 0x0 WrongMode\np15 enter A 0 2 3 0\np15 fill 2 4\np15 load 0x2000 7\np15 exit\nend 11\n",
        ],
        piece: 100,
        fails: NO_FAULT,
        status: Status::Done,
        told: b"yes\nentries 11\nwritten 0\nentered 0\ncached 0\nreloaded 0\nagain 0\nrefused load WrongMode 1 6\n\
            driver yes\n",
        unread: false,
    },
    // The example of the page on traces, and without its track.
    Row {
        job: THREE_LINES,
        old: &[
            BLOCKED,
            TRACKED,
            ASKED,
            STARTED,
            WRITTEN,
            RELOADED,
            b"end 17\n",
        ],
        piece: 100,
        fails: NO_FAULT,
        status: Status::Done,
        told: b"yes\nentries 17\nwritten 1\nentered 1\ncached 1\nreloaded 1\nagain 0\n\
            refused ewbstart NotTracked 1 11\ndriver yes\n",
        unread: false,
    },
    Row {
        job: THREE_LINES,
        old: &[BLOCKED, STARTED, WRITTEN, RELOADED, b"end 15\n"],
        piece: 100,
        fails: NO_FAULT,
        status: Status::AuditNo,
        told: b"no 11 Refusal\nentries 15\nwritten 1\nentered 1\ncached 1\nreloaded 1\nagain 0\ndriver yes\n",
        unread: false,
    },
    // A driver that asks a third time, and is refused so.
    Row {
        job: THREE_LINES,
        old: &[BLOCKED, TRACKED, ASKED, ASKED, ASKED, b"end 14\n"],
        piece: 100,
        fails: NO_FAULT,
        status: Status::Done,
        told: b"yes\nentries 14\nwritten 0\nentered 0\ncached 1\nreloaded 0\nagain 0\n\
            refused ewbstart NotTracked 3 11\ndriver no 13\n",
        unread: false,
    },
    // The builder ends the write-out that the reclaimer started.
    Row {
        job: THREE_LINES,
        old: &[
            BLOCKED,
            TRACKED,
            ASKED,
            STARTED,
            WRITTEN_BY_BUILDER,
            RELOADED,
            b"end 17\n",
        ],
        piece: 100,
        fails: NO_FAULT,
        status: Status::Done,
        told: b"yes\nentries 17\nwritten 1\nentered 1\ncached 1\nreloaded 1\nagain 0\n\
            refused ewbstart NotTracked 1 11\ndriver yes\n",
        unread: false,
    },
    // A load of a page that is here ends in vain, and may not end otherwise.
    Row {
        job: THREE_LINES,
        old: &[
            BLOCKED,
            TRACKED,
            ASKED,
            STARTED,
            WRITTEN,
            HERE_STARTED,
            HERE_REFUSED,
            b"end 17\n",
        ],
        piece: 100,
        fails: NO_FAULT,
        status: Status::Done,
        told: b"yes\nentries 17\nwritten 1\nentered 1\ncached 1\nreloaded 0\nagain 0\n\
            refused ewbstart NotTracked 1 11\nrefused eld MacFail 1 16\ndriver no 16\n",
        unread: false,
    },
    Row {
        job: THREE_LINES,
        old: &[
            BLOCKED,
            TRACKED,
            ASKED,
            STARTED,
            WRITTEN,
            HERE_STARTED,
            HERE_DONE,
            b"end 17\n",
        ],
        piece: 100,
        fails: NO_FAULT,
        status: Status::AuditNo,
        told: b"no 16 Fresh\nentries 17\nwritten 1\nentered 1\ncached 1\nreloaded 1\nagain 0\n\
            refused ewbstart NotTracked 1 11\ndriver yes\n",
        unread: false,
    },
    // Two loads of one page at once.
    Row {
        job: THREE_LINES,
        old: &[BLOCKED, TWICE],
        piece: 100,
        fails: NO_FAULT,
        status: Status::Done,
        told: b"yes\nentries 21\nwritten 2\nentered 1\ncached 1\nreloaded 1\nagain 0\nrefused eld MacFail 1 20\n\
            driver no 20\n",
        unread: false,
    },
    // A driver loads nothing from outside.
    Row {
        job: THREE_LINES,
        old: &[BUILT, b"r outload A 0x0 18446744073709551615\nend 7\n"],
        piece: 100,
        fails: NO_FAULT,
        status: Status::AuditNo,
        told: b"no 6 Flat\nentries 7\nwritten 0\nentered 0\ncached 0\nreloaded 0\nagain 0\ndriver yes\n",
        unread: false,
    },
];

fn gets_its_verdict(
    rt: &(impl Abort + Alloc<A = Global> + Threads + Wait + Sync),
    words: &[&str],
    row: &Row,
) -> Result<(), Fail> {
    let alloc = rt.alloc();
    let old = joined(alloc, row.old)?;
    let fails = [row.fails[0], row.fails[1], row.fails[2], &[1]];
    let given = given_with(rt, alloc, words, [row.job, &old], row.piece.max(1), fails)?;
    compare(rt, &given, row.status, row.told);
    let unread = given.old_left == old.len();
    are_same(rt, (unread, given.trace.len()), (row.unread, 0));
    Ok(())
}

#[test]
fn an_old_trace_gets_its_verdict_or_its_first_faulty_line(rt: HostRuntime) -> Result<(), Fail> {
    for (words, rows) in [(AUDIT, ROWS), (CHECK, CHECKED)] {
        for row in rows {
            gets_its_verdict(&rt, words, row)?;
        }
    }
    Ok(())
}

// Adds a line with the number that stands behind its first five words lowered by one.
fn push_older(line: &str, onto: &mut String) -> Result<(), Fail> {
    let mut place = 0u32;
    for word in line.split(' ') {
        let number = word.parse::<u64>().unwrap_or(0);
        if place == 5 && number > 0 {
            write!(onto, "{}", number.wrapping_sub(1))?;
        } else {
            onto.push_str(word)?;
        }
        onto.push_str(" ")?;
        place = place.wrapping_add(1);
    }
    onto.pop();
    onto.push_str("\n")?;
    Ok(())
}

// Adds a trace whose first load that ended names an earlier version, and the same cut inside that line. The answer is how many lines
// stand before it.
fn push_changed(trace: &str, older: &mut String, cut: &mut String) -> Result<u64, Fail> {
    let mut before = 0u64;
    for line in trace.lines() {
        if cut.is_empty() && line.starts_with("p0 eld ") {
            cut.push_str(older.as_str())?;
            cut.push_str("p0 eld ")?;
            push_older(line, older)?;
        } else {
            push_line(older, line)?;
        }
        if cut.is_empty() {
            before = before.wrapping_add(1);
        }
    }
    Ok(before)
}

// Audits a trace of a job, so many bytes a call.
fn audited(
    rt: &(impl Abort + Alloc<A = Global> + Threads + Wait + Sync),
    texts: [&[u8]; 2],
    piece: usize,
    status: Status,
    told: &str,
) -> Result<(), Fail>
    requires { 1 ≤ piece }
{
    let given = given_with(rt, rt.alloc(), AUDIT, texts, piece, [&[], &[], &[], &[1]])?;
    compare(rt, &given, status, told.as_bytes());
    Ok(())
}

// Audits a trace of a job with an earlier version behind so many lines, and the same cut there. The first line of a trace is no entry.
fn refused(
    rt: &(impl Abort + Alloc<A = Global> + Threads + Wait + Sync),
    job: &[u8],
    older: &str,
    cut: &str,
    before: u64,
) -> Result<(), Fail> {
    let wrong = format!(in rt.alloc(); "no {} Fresh\n", before.wrapping_sub(1))?;
    let texts = [job, older.as_bytes()];
    audited(rt, texts, 1000, Status::AuditNo, wrong.as_str())?;
    let faulty = format!(in rt.alloc(); "trace line {}\n", before.wrapping_add(1))?;
    let texts = [job, cut.as_bytes()];
    audited(rt, texts, 1, Status::BadTrace, faulty.as_str())
}

// Whatever the order of the threads.
#[test]
fn a_run_is_a_history_and_is_none_with_an_older_version(rt: HostRuntime) -> Result<(), Fail> {
    let alloc = rt.alloc();
    let run = of_parts(&rt, &[EPC, ENCLAVE, SCRIPT])?;
    let job = joined(alloc, &[EPC, ENCLAVE, SCRIPT])?;
    audited(&rt, [&job, &run.trace], 1000, Status::Done, "yes\n")?;
    let mut older = String::new(alloc);
    let mut cut = String::new(alloc);
    let trace = str::from_utf8(&run.trace).unwrap_or("");
    let before = push_changed(trace, &mut older, &mut cut)?;
    refused(&rt, &job, older.as_str(), cut.as_str(), before)
}

// .. of a job that was made.
#[test]
fn a_run_of_a_made_job_is_a_history(rt: HostRuntime) -> Result<(), Fail> {
    let alloc = rt.alloc();
    let made = given_by(&rt, alloc, MAKE, b"", 1000, [&[], &[], &[]])?;
    let run = given_by(&rt, alloc, RUN, &made.out, 1000, [&[], &[], &[]])?;
    are_same(&rt, (made.status, run.status), (Status::Done, Status::Done));
    audited(&rt, [&made.out, &run.trace], 1000, Status::Done, "yes\n")
}
