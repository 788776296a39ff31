//! Runs of jobs, with their outputs and traces.

use crate::calls::{Call, Given, RUN, RUNS, all_give, compare, given_by, gives, joined};
use crate::paged_jobs::{ENCLAVE, EPC, MANY_ADDS, PAGED, Paged, SCRIPT, SMALL};
use crate::same::are_same;
use crate::worked_runs::{MANY_PAGES, WORKED};
use page_commands::status::Status;
use std::alloc::{Alloc, Global};
use std::fmt::Write;
use std::process::Abort;
use std::sync::Wait;
use std::test::Fail;
use std::thread::Threads;

pub const JOB: &[u8] =
    b"epc 6\nenclave A 0x10000 0x10000\ntcs 0 1 1 plain\nreg 1 1 rw 0 plain\nreg 2 1 rw 7 plain\ncpu 0\neenter A 0\nload 0x2000\neexit\n";

pub const OUT: &[u8] = b"A init\ncpu 0\ncssa 0\n7\nexit\n";

pub const TRACE: &[u8] =
    b"trace 2\nb epa 0 0\nb create A 1 0x10000 0x10000\nb add A 0 2 tcs - tcs 1 1\nb add A 1 3 reg rw words 0\n\
    b add A 2 4 reg rw words 7\nb init A - 006d518bbd8825da4a0e7d35d418aaf16b7749c62854a6f40d8d58db415a8c31\n\
    p0 enter A 0 2 3 0\np0 fill 2 4\np0 load 0x2000 7\np0 exit\nend 10\n";

// Runs of the first job, by how many bytes an edge moves a call.
const FIRST: &[Call] = &[
    Call {
        piece: 1,
        ..FIRST_RUN
    },
    Call {
        piece: 7,
        ..FIRST_RUN
    },
    Call {
        piece: 16,
        ..FIRST_RUN
    },
    Call {
        piece: 100,
        ..FIRST_RUN
    },
    Call {
        piece: 1000,
        ..FIRST_RUN
    },
];

/// A run of the first job.
pub const FIRST_RUN: Call = Call {
    job: JOB,
    out: OUT,
    trace: TRACE,
    ..RUNS
};

#[test]
fn a_job_gives_its_trace_and_its_output(rt: HostRuntime) -> Result<(), Fail> {
    all_give(&rt, FIRST)
}

#[test]
fn worked_jobs_give_their_texts(rt: HostRuntime) -> Result<(), Fail> {
    all_give(&rt, WORKED)?;
    gives(&rt, &MANY_PAGES)
}

/// What a run of a job gives that is made of these parts.
pub fn of_parts(
    rt: &(impl Abort + Alloc<A = Global> + Threads + Wait + Sync),
    parts: &[&[u8]],
) -> Result<Box<Given>, Fail> {
    let job = joined(rt.alloc(), parts)?;
    Ok(given_by(rt, rt.alloc(), RUN, &job, 1000, [&[], &[], &[]])?)
}

// Words by which an entry tells that something went wrong.
const SIGNS: &[&str] = &["MacFail", "noroom", "EpochSpent", "VersionSpent"];

// Whether the last two words of a line are the same.
fn ends_twice(line: &str) -> bool {
    let mut words = line.rsplit(' ');
    words.next() == words.next()
}

/// Adds a line to a text.
pub fn push_line(onto: &mut String, line: &str) -> Result<(), Fail> {
    onto.push_str(line)?;
    onto.push_str("\n")?;
    Ok(())
}

// Adds what of a line tells that something went wrong, behind so many pages that went out.
fn push_signs(line: &str, out: u64, told: &mut String) -> Result<(), Fail> {
    if line.contains(" bus ") {
        push_line(told, line)?;
    }
    for sign in SIGNS {
        if line.contains(*sign) {
            push_line(told, sign)?;
        }
    }
    if line.contains("MacFail") && ends_twice(line) {
        push_line(told, "one tag")?;
    }
    if line.ends_with("Spent") {
        write!(told, "{out} out\n")?;
    }
    Ok(())
}

/// Adds what of a trace tells that something went wrong, in its order: each whole line on a page that could not be reloaded, and such
/// words. Where both tags of a record are the same it tells that there is one, and behind a number that is used up how many pages had
/// gone out.
pub fn push_all_signs(trace: &str, told: &mut String) -> Result<(), Fail> {
    let mut out = 0u64;
    for line in trace.lines() {
        if line.starts_with("r ewb ") {
            out = out.wrapping_add(1);
        }
        push_signs(line, out, told)?;
    }
    Ok(())
}

// Runs a job whose pages do not fit. What its trace tells of what went wrong is one of the texts `told`, and is all.
fn pages(
    rt: &(impl Abort + Alloc<A = Global> + Threads + Wait + Sync),
    row: &Paged,
) -> Result<(), Fail> {
    let script = if row.has_script { SCRIPT } else { b"" };
    let given = of_parts(rt, &[EPC, row.before, ENCLAVE, row.behind, script])?;
    let replies = joined(rt.alloc(), row.replies)?;
    compare(rt, &given, row.status, &replies);
    are_same(rt, given.store_faults, row.store_faults);
    let mut told = String::new(rt.alloc());
    let trace = str::from_utf8(&given.trace).unwrap_or("MacFail");
    push_all_signs(trace, &mut told)?;
    are_same(rt, row.told.contains(&told.as_str()), true);
    Ok(())
}

#[test]
fn pages_go_out_and_come_back_or_their_processor_is_told(rt: HostRuntime) -> Result<(), Fail> {
    for row in PAGED {
        pages(&rt, row)?;
    }
    Ok(())
}

#[test]
fn small_jobs_end_as_told(rt: HostRuntime) -> Result<(), Fail> {
    for (job, status, replies) in SMALL {
        let given = of_parts(&rt, &[*job])?;
        compare(&rt, &given, *status, replies);
    }
    Ok(())
}

/// Adds the text of a job whose four processors add one to a word a hundred times each.
pub fn push_many_adds(job: &mut String) -> Result<(), Fail> {
    job.push_str(MANY_ADDS)?;
    for number in 0..4 {
        write!(job, "cpu {number}\neenter A {number}\n")?;
        for _ in 0..100 {
            job.push_str("xadd 0x8000 1\n")?;
        }
        job.push_str("eexit\n")?;
    }
    Ok(())
}

fn of_many_adds(
    rt: &(impl Abort + Alloc<A = Global> + Threads + Wait + Sync),
) -> Result<Box<Given>, Fail> {
    let mut job = String::new(rt.alloc());
    push_many_adds(&mut job)?;
    of_parts(rt, &[job.as_bytes()])
}

// Turns the marks of the numbers that are lines of a text.
fn turn(text: &str, seen: &mut [bool]) {
    for line in text.lines() {
        if let Ok(number) = line.parse::<usize>() {
            if let Some(place) = seen.get_mut(number) {
                *place = !*place;
            }
        }
    }
}

// The answers of the adds of four processors to one word.
#[test]
fn no_add_is_lost_or_made_twice(rt: HostRuntime) -> Result<(), Fail> {
    let given = of_many_adds(&rt)?;
    let text = str::from_utf8(&given.out).unwrap_or("");
    let mut seen = vec![in rt.alloc(); false; 400]?;
    turn(text, &mut seen);
    are_same(&rt, given.status, Status::Done);
    are_same(&rt, seen.contains(&false), false);
    are_same(&rt, text.lines().count(), 1 + 4 * 103);
    Ok(())
}
