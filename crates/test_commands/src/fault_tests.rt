//! Jobs that are refused, and edges that fail.

use crate::calls::{Call, RUN, RUNS, all_give, compare, given_by, gives};
use crate::cut_jobs::CUTS;
use crate::run_tests::{JOB, OUT, TRACE};
use crate::same::are_same;
use page_commands::status::Status;
use std::alloc::{Alloc, Global};
use std::process::Abort;
use std::sync::Wait;
use std::test::Fail;
use std::thread::Threads;

const MISSING: &[u8] = b"job line 1: Missing\n";

// A job that is not run.
const NOT_RUN: Call = Call {
    piece: 7,
    status: Status::BadJob,
    out: MISSING,
    ..RUNS
};

// Such jobs, and what is told of each.
const REFUSED: &[Call] = &[
    Call {
        job: b"",
        ..NOT_RUN
    },
    Call {
        job: b"epc 6\n",
        out: b"job line 2: Missing\n",
        ..NOT_RUN
    },
    Call {
        job: b"epc 6\n\xff\n",
        out: b"job line 2: NotUtf8\n",
        ..NOT_RUN
    },
    Call {
        job: b"epc 5\nenclave A 0x0 0x2000\ncpu 0\n",
        out: b"job line 1: EpcTooSmall 6\n",
        ..NOT_RUN
    },
    Call {
        job: b"epc 6\nenclave A 0x0 0x2000\ncpu 0\nload 0x2004\n",
        out: b"job line 4: Range\n",
        ..NOT_RUN
    },
    Call {
        job: b"epc 6\nepc 6\n",
        out: b"job line 2: Order\n",
        ..NOT_RUN
    },
    Call {
        job: b"epc 6\nmarks 1 2 1\nmarks 1 2 1\n",
        out: b"job line 3: Twice\n",
        ..NOT_RUN
    },
    // One page more than a job may have.
    Call {
        job: b"epc 6\nenclave A 0x0 0x1000000\nreg 0 4096 r 0\nenclave B 0x0 0x2000\nreg 0 1 r 0\n",
        out: b"job line 5: TooMany\n",
        ..NOT_RUN
    },
    Call {
        job: b"epc 10\nenclave A 0x0 0x4000\ntcs 0 1 1\nreg 1 1 rw 0\ncpu 0\neenter A 0\ncpu 1\neenter A 0\n",
        out: b"job line 8: TcsShared\n",
        ..NOT_RUN
    },
];

const TOO_LONG: &[u8] = b"job line 0: TooLong\n";

#[test]
fn a_job_that_is_not_accepted_is_told(rt: HostRuntime) -> Result<(), Fail> {
    all_give(&rt, REFUSED)
}

#[test]
fn a_job_that_is_cut_is_another(rt: HostRuntime) -> Result<(), Fail> {
    for (len, status, out, trace) in CUTS {
        let call = Call {
            job: &JOB[..(*len).min(JOB.len())],
            piece: 16,
            status: *status,
            out,
            trace,
            ..RUNS
        };
        gives(&rt, &call)?;
    }
    Ok(())
}

// Runs a text of so many letters, whose fourth is a line feed: what is told, and how many are left.
fn stops(
    rt: &(impl Abort + Alloc<A = Global> + Threads + Wait + Sync),
    len: usize,
    told: &[u8],
    left: usize,
) -> Result<(), Fail> {
    let mut job = vec![in rt.alloc(); b'e'; len]?;
    if let Some(byte) = job.get_mut(3) {
        *byte = b'\n';
    }
    let given = given_by(rt, rt.alloc(), RUN, &job, 1 << 20, [&[], &[], &[]])?;
    compare(rt, &given, Status::BadJob, told);
    are_same(rt, (given.left, given.trace.len()), (left, 0));
    Ok(())
}

// How long such a text is, what is told, and how many are left.
const LONG: &[(usize, &[u8], usize)] = &[
    (1 << 24, b"job line 1: Word\n", 0),
    ((1 << 24) + 1, TOO_LONG, 0),
    ((1 << 24) + 2, TOO_LONG, 1),
    ((1 << 24) + 100_000, TOO_LONG, 99_999),
];

#[test]
fn no_more_than_one_byte_past_the_limit_is_read(rt: HostRuntime) -> Result<(), Fail> {
    for (len, told, left) in LONG {
        stops(&rt, *len, told, *left)?;
    }
    Ok(())
}

// Where an edge fails.
#[derive(Clone, Copy)]
enum Edge {
    Source,
    Out,
    Trace,
}

// An edge, how many bytes it moves a call, and how many calls a run of the job takes of it.
const FAULTS: &[(Edge, usize, u64)] = &[
    (Edge::Source, 1, 122),
    (Edge::Source, 7, 19),
    (Edge::Source, 16, 9),
    (Edge::Source, 100, 3),
    (Edge::Trace, 1, 266),
    (Edge::Trace, 7, 38),
    (Edge::Trace, 16, 17),
    (Edge::Out, 1, 27),
    (Edge::Out, 7, 4),
    (Edge::Out, 16, 2),
];

// The texts of a run of the job in which such a call fails, behind so many bytes given to its edge.
fn cut(edge: Edge, given: usize) -> (Status, &'static [u8], &'static [u8]) {
    match edge {
        Edge::Source => (Status::ReadFault, b"", b""),
        Edge::Out => (Status::WriteFault, &OUT[..given.min(OUT.len())], TRACE),
        Edge::Trace => (Status::WriteFault, b"", &TRACE[..given.min(TRACE.len())]),
    }
}

// The calls of the job, of the output and of the trace that fail, where these of an edge do.
fn of_edge(edge: Edge, failing: &[u64]) -> [&[u64]; 3] {
    match edge {
        Edge::Source => [failing, &[], &[]],
        Edge::Out => [&[], failing, &[]],
        Edge::Trace => [&[], &[], failing],
    }
}

// Runs the job with this call of an edge failing, which gives these.
fn breaks(
    rt: &(impl Abort + Alloc<A = Global> + Threads + Wait + Sync),
    edge: Edge,
    piece: usize,
    failing: u64,
    wanted: (Status, &[u8], &[u8]),
) -> Result<(), Fail> {
    let fails: &[u64] = &[failing];
    let fails = of_edge(edge, fails);
    let given = given_by(rt, rt.alloc(), RUN, JOB, piece.max(1), fails)?;
    compare(rt, &given, wanted.0, wanted.1);
    are_same(rt, given.trace.as_slice(), wanted.2);
    Ok(())
}

// Each call fails in turn, and then the next, which no run makes.
#[test]
fn a_fault_is_told_and_cuts_one_text(rt: HostRuntime) -> Result<(), Fail> {
    for (edge, piece, calls) in FAULTS {
        let mut given = 0usize;
        for failing in 1..=*calls {
            breaks(&rt, *edge, *piece, failing, cut(*edge, given))?;
            given = given.saturating_add(*piece);
        }
        let next = calls.saturating_add(1);
        breaks(&rt, *edge, *piece, next, (Status::Done, OUT, TRACE))?;
    }
    Ok(())
}

// Each call of the output fails in turn, and then the next, which is not made.
const LINE_FAULTS: &[Call] = &[
    Call {
        fails: [&[], &[1], &[1], &[1]],
        status: Status::WriteFault,
        out: b"",
        ..NOT_RUN
    },
    Call {
        fails: [&[], &[1], &[2], &[1]],
        status: Status::WriteFault,
        out: b"job lin",
        ..NOT_RUN
    },
    Call {
        fails: [&[], &[1], &[3], &[1]],
        status: Status::WriteFault,
        out: b"job line 1: Mi",
        ..NOT_RUN
    },
    Call {
        fails: [&[], &[1], &[4], &[1]],
        ..NOT_RUN
    },
];

#[test]
fn a_fault_can_break_the_line_on_a_job(rt: HostRuntime) -> Result<(), Fail> {
    all_give(&rt, LINE_FAULTS)
}
