//! The fewest loads of old traces, traces that are none, and edges that fail.

use crate::calls::{Call, RUN, all_give, compare, given_by, given_with, gives, joined};
use crate::paged_jobs::{ENCLAVE, EPC, SCRIPT};
use crate::run_tests::{JOB, TRACE};
use crate::same::are_same;
use page_commands::status::Status;
use std::alloc::{Alloc, Global};
use std::process::Abort;
use std::sync::Wait;
use std::test::Fail;
use std::thread::Threads;

const LEAST: &[&str] = &["least", "t"];

/// The text on the trace of the job: one access, and four frames beside those of the version array page and of the enclave.
const NUMBERS: &[u8] = b"accesses 1\nframes 4\nleast 1\nmade 0\n";

// Old traces of the job, how each ends, and what is told of it. The second accesses the pages 1 2 3 4 1 2 5 1 2 3 4 5, the textbooks'
// row, for which six loads are the fewest in four frames.
const ROWS: &[(&[u8], Status, &[u8])] = &[
    (TRACE, Status::Done, NUMBERS),
    (
        b"trace 2\np0 enter A 0 2 3 0\np0 load 0x1000 0\np0 load 0x2000 0\np0 store 0x3000 0\n\
p0 load 0x4000 0\np0 load 0x1ff8 0\np0 load 0x2000 0\np0 xadd 0x5000 1 0\np0 load 0x1000 0\np0 load 0x2008 0\n\
p0 load 0x3000 0\np0 load 0x4000 0\np0 load 0x5000 1\nend 13\n",
        Status::Done,
        b"accesses 12\nframes 4\nleast 6\nmade 0\n",
    ),
    (
        b"trace 2\np1 resume A 0 2 3 0\np1 load 0x1000 0\np1 load 0x1000 0\np1 load 0x2000 0\nend 4\n",
        Status::Done,
        b"accesses 3\nframes 4\nleast 2\nmade 0\n",
    ),
    // Outside, and refused.
    (
        b"trace 2\np0 load 0x1000 0\np0 enter A 0 2 3 0\np0 refused load 0x1000 WrongMode\np0 exit\np0 load 0x1000 0\nend 5\n",
        Status::Done,
        b"accesses 0\nframes 4\nleast 0\nmade 0\n",
    ),
    // A page that is no REG page is not counted.
    (
        b"trace 2\nb add A 0 2 tcs - tcs 1 1\nb add A 2 4 reg rw words 7\n\
r eld 4 A 2 1 abababababababababababababababababababababababababababababababab\n\
r eld 2 A 0 2 abababababababababababababababababababababababababababababababab\nend 4\n",
        Status::Done,
        b"accesses 0\nframes 4\nleast 0\nmade 1\n",
    ),
    (
        b"trace 2\nend 0\n",
        Status::Done,
        b"accesses 0\nframes 4\nleast 0\nmade 0\n",
    ),
    (b"", Status::BadTrace, b"trace line 1\n"),
    (b"trace 1\nend 0\n", Status::BadTrace, b"trace line 1\n"),
    (b"trace 2\r\nend 0\n", Status::BadTrace, b"trace line 1\n"),
    (b"trace 2\n", Status::BadTrace, b"trace line 2\n"),
    (b"trace 2\nend 0", Status::BadTrace, b"trace line 2\n"),
    (b"trace 2\nend 1\n", Status::BadTrace, b"trace line 2\n"),
    (b"trace 2\nend 0\n\n", Status::BadTrace, b"trace line 3\n"),
    (
        b"trace 2\np0 exit\n\xff\nend 1\n",
        Status::BadTrace,
        b"trace line 3\n",
    ),
    (
        b"trace 2\np0 exit\np16 exit\nend 2\n",
        Status::BadTrace,
        b"trace line 3\n",
    ),
];

const NO_FAULT: [&[u64]; 4] = [&[], &[], &[], &[1]];

/// The command on the job and its trace. The trace that a run would give fails at its first call.
const LEAST_CALL: Call = Call {
    words: LEAST,
    job: JOB,
    old: TRACE,
    piece: 7,
    fails: NO_FAULT,
    status: Status::Done,
    out: NUMBERS,
    trace: b"",
};

#[test]
fn an_old_trace_gives_its_numbers_or_its_first_faulty_line(rt: HostRuntime) -> Result<(), Fail> {
    for piece in &[1, 7, 1000] {
        for (trace, status, told) in ROWS {
            let call = Call {
                old: trace,
                piece: *piece,
                status: *status,
                out: told,
                ..LEAST_CALL
            };
            gives(&rt, &call)?;
        }
    }
    Ok(())
}

// Behind a text that is no job's, the old trace is not read.
#[test]
fn a_job_that_is_not_accepted_comes_first(rt: HostRuntime) -> Result<(), Fail> {
    let fails: [&[u64]; 4] = [&[], &[1], &[], &[1]];
    let given = given_with(&rt, rt.alloc(), LEAST, [b"", TRACE], 7, fails)?;
    compare(&rt, &given, Status::BadJob, b"job line 1: Missing\n");
    are_same(
        &rt,
        (given.old_left, given.faults),
        (TRACE.len(), [0, 0, 0, 0]),
    );
    Ok(())
}

// The accesses of a run are those of its script, whatever the order of the threads. How many reloads were made may differ.
#[test]
fn a_run_gives_a_trace_that_is_read(rt: HostRuntime) -> Result<(), Fail> {
    let alloc = rt.alloc();
    let job = joined(alloc, &[EPC, ENCLAVE, SCRIPT])?;
    let run = given_by(&rt, alloc, RUN, &job, 1000, [&[], &[], &[]])?;
    let given = given_with(&rt, alloc, LEAST, [&job, &run.trace], 1000, NO_FAULT)?;
    let begun = given
        .out
        .starts_with(b"accesses 80\nframes 10\nleast 70\nmade ");
    are_same(&rt, (given.status, begun), (Status::Done, true));
    Ok(())
}

// The command with this call of the job or of the old trace failing.
fn source_fails(
    rt: &(impl Abort + Alloc<A = Global> + Threads + Wait + Sync),
    is_job: bool,
    failing: u64,
) -> Result<(), Fail> {
    let failing: &[u64] = &[failing];
    let fails: [&[u64]; 4] = if is_job {
        [failing, &[], &[], &[1]]
    } else {
        [&[], failing, &[], &[1]]
    };
    let call = Call {
        piece: 16,
        fails,
        status: Status::ReadFault,
        out: b"",
        ..LEAST_CALL
    };
    gives(rt, &call)
}

// Each of nine calls of the job and of 18 of the old trace fails in turn. The next is not made, as the first row below has it.
#[test]
fn a_fault_of_either_source_is_told(rt: HostRuntime) -> Result<(), Fail> {
    for (is_job, calls) in &[(true, 9), (false, 18)] {
        for failing in 1..=*calls {
            source_fails(&rt, *is_job, failing)?;
        }
    }
    Ok(())
}

// Calls that are not made fail, and then each call of the output in turn, for the numbers and for the line on a fault.
const FAULTS: &[Call] = &[
    Call {
        piece: 16,
        fails: [&[10], &[19], &[], &[1]],
        ..LEAST_CALL
    },
    Call {
        fails: [&[], &[], &[1], &[1]],
        status: Status::WriteFault,
        out: b"",
        ..LEAST_CALL
    },
    Call {
        fails: [&[], &[], &[2], &[1]],
        status: Status::WriteFault,
        out: b"accesse",
        ..LEAST_CALL
    },
    Call {
        fails: [&[], &[], &[3], &[1]],
        status: Status::WriteFault,
        out: b"accesses 1\nfra",
        ..LEAST_CALL
    },
    Call {
        fails: [&[], &[], &[4], &[1]],
        status: Status::WriteFault,
        out: b"accesses 1\nframes 4\nl",
        ..LEAST_CALL
    },
    Call {
        fails: [&[], &[], &[5], &[1]],
        status: Status::WriteFault,
        out: b"accesses 1\nframes 4\nleast 1\n",
        ..LEAST_CALL
    },
    Call {
        old: b"",
        fails: [&[], &[], &[1], &[1]],
        status: Status::WriteFault,
        out: b"",
        ..LEAST_CALL
    },
    Call {
        old: b"",
        fails: [&[], &[], &[2], &[1]],
        status: Status::WriteFault,
        out: b"trace l",
        ..LEAST_CALL
    },
];

#[test]
fn a_fault_of_the_output_cuts_the_text(rt: HostRuntime) -> Result<(), Fail> {
    all_give(&rt, FAULTS)
}

const MIGRATE: &[&str] = &["migrate", "t"];

/// The trace of the job in the first edition.
pub const OLD: &[u8] =
    b"trace 1\nb epa 0\nb create A 1 0x10000 0x10000\nb add A 0 2 tcs - tcs 1 1\nb add A 1 3 reg rw words 0\n\
b add A 2 4 reg rw words 7\nb init A - 006d518bbd8825da4a0e7d35d418aaf16b7749c62854a6f40d8d58db415a8c31\n\
p0 enter A 0 2 3 0\np0 fill 2 4\np0 load 0x2000 7\np0 exit\nend 10\n";

// Without a job, which would fail.
const MIGRATE_CALL: Call = Call {
    words: MIGRATE,
    job: b"",
    old: OLD,
    piece: 7,
    fails: [&[1], &[], &[], &[1]],
    status: Status::Done,
    out: TRACE,
    trace: b"",
};

// What is given is a trace of the second edition, and no such trace is one of the first.
const MIGRATED: &[Call] = &[
    MIGRATE_CALL,
    Call {
        old: TRACE,
        status: Status::BadTrace,
        out: b"trace line 1\n",
        ..MIGRATE_CALL
    },
    Call {
        old: b"",
        status: Status::BadTrace,
        out: b"trace line 1\n",
        ..MIGRATE_CALL
    },
    Call {
        fails: [&[1], &[], &[1], &[1]],
        status: Status::WriteFault,
        out: b"",
        ..MIGRATE_CALL
    },
    Call {
        old: TRACE,
        fails: [&[1], &[], &[2], &[1]],
        status: Status::WriteFault,
        out: b"trace l",
        ..MIGRATE_CALL
    },
];

#[test]
fn a_trace_of_the_first_edition_is_migrated(rt: HostRuntime) -> Result<(), Fail> {
    all_give(&rt, MIGRATED)
}
