//! Jobs that are run by rounds of turns on one book each, and traces that are played on a book turn by turn.

use crate::calls::print_calls;
use crate::playing::play;
use crate::read;
use crate::turning::{Work, run};
use backing_store::planned_store::PlannedStore;
use job_text::reader::read_job;
use run_course::book::Book;
use run_jobs::ends::End;
use sgx_rules::entries::Entry;
use sgx_types::names::Memory;
use std::alloc::Global;
use std::io;
use trace_reader::reader::read_trace;
use trace_text::trace::print_trace;

/// Prints the trace of the job of a name, where the work is done so.
pub fn tell_trace(rt: &HostRuntime, name: &str, how: Work) -> io::Result<()> {
    print_trace_of(rt, name, book_of(rt, name, how)?)
}

/// Says how the run of the job of a name ends.
pub fn tell_end(rt: &HostRuntime, name: &str) -> io::Result<()> {
    print_end(rt, name, book_of(rt, name, Work::Given)?)
}

/// Says how much is made of the trace of a name.
pub fn tell_played(rt: &HostRuntime, name: &str) -> io::Result<()> {
    print_told(rt, name, told_of(rt, name)?)
}

// ---- runs by rounds

// The book of the job of a name behind its run by rounds. None where the text is no job's, or memory was refused.
fn book_of(rt: &HostRuntime, name: &str, how: Work) -> io::Result<Option<Box<Book<PlannedStore>>>> {
    let job = read(rt, name, ".job")?;
    match run_of(rt.alloc(), &job, how) {
        Ok(book) => Ok(book),
        Err(Memory) => Ok(None),
    }
}

fn run_of(
    alloc: Global,
    text: &[u8],
    how: Work,
) -> Result<Option<Box<Book<PlannedStore>>>, Memory> {
    let Some(mut book) = start_of(alloc, text)? else {
        return Ok(None);
    };
    run(alloc, &mut *book, how)?;
    Ok(Some(book))
}

// The book of a job that has done nothing yet, unless the text is no job's. It is in a box, since dropping it is dear to check wherever
// its owner can end.
fn start_of(alloc: Global, text: &[u8]) -> Result<Option<Box<Book<PlannedStore>>>, Memory> {
    let Ok(job) = read_job(alloc, text) else {
        return Ok(None);
    };
    let book = Book::start(alloc, job, PlannedStore::new())?;
    Ok(Some(Box::new(alloc, book)?))
}

fn print_trace_of(
    rt: &HostRuntime,
    name: &str,
    book: Option<Box<Book<PlannedStore>>>,
) -> io::Result<()> {
    println!(rt; "{name}")?;
    match &book {
        Some(book) => print_entries(rt, book.entries()),
        None => println!(rt; "no run"),
    }
}

fn print_entries(rt: &HostRuntime, entries: &[Entry]) -> io::Result<()> {
    let Ok(trace) = print_trace(rt.alloc(), entries) else {
        return println!(rt; "no memory");
    };
    match str::from_utf8(&trace) {
        Ok(text) => print!(rt; "{text}"),
        Err(_) => println!(rt; "no text"),
    }
}

fn print_end(
    rt: &HostRuntime,
    name: &str,
    book: Option<Box<Book<PlannedStore>>>,
) -> io::Result<()> {
    match &book {
        Some(book) => println!(rt;
            "{name} {}",
            name_of(End::of(book.is_spent(), book.has_loss()))
        ),
        None => println!(rt; "{name}: no run"),
    }
}

fn name_of(end: End) -> &'static str {
    match end {
        End::Done => "done",
        End::Bus => "bus",
        End::Spent => "spent",
    }
}

// ---- traces that are played

// How much of a trace is made.
#[derive(Clone, Copy)]
enum Told {
    Part { played: usize, entries: usize },
    All { entries: usize },
    OtherCalls,
    Unread,
}

// What is told of the trace of a name.
fn told_of(rt: &HostRuntime, name: &str) -> io::Result<Result<Told, Memory>> {
    let given = run_name(name);
    let trace = read(rt, name, ".trace")?;
    let job = read(rt, given, ".job")?;
    let calls = read(rt, given, ".calls")?;
    Ok(compare(rt.alloc(), &job, &trace, &calls))
}

// Of which run a trace is: what stands before a dash, where one was changed.
fn run_name(name: &str) -> &str {
    match name.split_once('-') {
        Some((given, _)) => given,
        None => name,
    }
}

fn compare(alloc: Global, job: &[u8], trace: &[u8], calls: &[u8]) -> Result<Told, Memory> {
    match read_trace(alloc, trace) {
        Ok(entries) => compare_entries(alloc, job, &entries, calls),
        Err(_) => Ok(Told::Unread),
    }
}

fn compare_entries(
    alloc: Global,
    job: &[u8],
    entries: &[Entry],
    calls: &[u8],
) -> Result<Told, Memory> {
    let Some(mut book) = start_of(alloc, job)? else {
        return Ok(Told::Unread);
    };
    let played = play(alloc, &mut *book, entries)?;
    let parts = Box::new(alloc, Box::into_inner(book).into_parts())?;
    let made = print_calls(alloc, parts.store.calls())?;
    Ok(told_by(played, entries.len(), made.as_slice() == calls))
}

fn told_by(played: usize, entries: usize, are_calls: bool) -> Told {
    if played < entries {
        Told::Part { played, entries }
    } else if are_calls {
        Told::All { entries }
    } else {
        Told::OtherCalls
    }
}

fn print_told(rt: &HostRuntime, name: &str, told: Result<Told, Memory>) -> io::Result<()> {
    match told {
        Ok(Told::Part { played, entries }) => println!(rt; "{name}: {played} of {entries} entries"),
        Ok(Told::All { entries }) => println!(rt;
            "{name}: all {entries} entries, and all calls of the store"
        ),
        Ok(Told::OtherCalls) => print_why(rt, name, "all entries, and other calls of the store"),
        Ok(Told::Unread) => print_why(rt, name, "no job, or no trace"),
        Err(Memory) => print_why(rt, name, "no memory"),
    }
}

// Why a name has no count of entries.
fn print_why(rt: &HostRuntime, name: &str, why: &str) -> io::Result<()> {
    println!(rt; "{name}: {why}")
}
