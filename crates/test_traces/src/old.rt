//! Old traces, read from sources: their four numbers, or the line of their fault. Each is read as a whole, and in pieces of 1 and of 7
//! bytes, which must give the same text. Then one is read whose source fails, and some from files that are opened at their first read.

use command_least::giving::give_least;
use io_edges::mem_sink::MemSink;
use io_edges::mem_source::MemSource;
use io_edges::std_edges::StdSource;
use job_grammar::jobs::Job;
use job_text::reader::read_job;
use std::alloc::Global;
use std::{fs, io};
use trace_file::faults::give_fault;
use trace_file::old_file::OldFile;
use trace_file::reading::read_old;
use trace_file::unread::Unread;
use trace_pieces::ungiven::Ungiven;
use trace_text::edition::Edition;

// Of which job a trace is: what stands before a dash, where one was changed.
fn job_name(name: &str) -> &str {
    match name.split_once('-') {
        Some((given, _)) => given,
        None => name,
    }
}

// A file of this name.
fn read(rt: &HostRuntime, name: &str, end: &str) -> io::Result<Vec<u8>> {
    let path = format!(in rt.alloc(); "{name}{end}")?;
    fs::read(rt, path.as_str())
}

/// What is told of the trace of this name, by the job of the same name.
pub(crate) fn tell_trace(rt: &HostRuntime, name: &str) -> io::Result<()> {
    println!(rt; "{name}")?;
    let trace = read(rt, name, ".trace")?;
    let text = read(rt, job_name(name), ".job")?;
    match read_job(rt.alloc(), &text) {
        Ok(job) => tell_job(rt, &job, &trace),
        Err(_) => println!(rt; "no job"),
    }
}

fn tell_job(rt: &HostRuntime, job: &Job, trace: &[u8]) -> io::Result<()> {
    match told(rt.alloc(), job, trace, 1 << 20) {
        Some(whole) => tell_whole(rt, job, trace, &whole),
        None => println!(rt; "nothing"),
    }
}

// The text on a trace that is read as a whole.
fn tell_whole(rt: &HostRuntime, job: &Job, trace: &[u8], whole: &[u8]) -> io::Result<()> {
    for size in [1, 7] {
        if !is_told(rt.alloc(), job, trace, size, whole) {
            println!(rt; "in pieces of {size} another answer")?;
        }
    }
    match str::from_utf8(whole) {
        Ok(lines) => print!(rt; "{lines}"),
        Err(_) => println!(rt; "no text"),
    }
}

fn is_told(alloc: Global, job: &Job, trace: &[u8], size: usize, whole: &[u8]) -> bool {
    match told(alloc, job, trace, size) {
        Some(text) => text.as_slice() == whole,
        None => false,
    }
}

// The text on a trace of a job, which is read in pieces of a size. None where there is none.
fn told(alloc: Global, job: &Job, trace: &[u8], size: usize) -> Option<Vec<u8>> {
    let mut out = MemSink::new(alloc, 16, &[]).ok()?;
    match give_text(alloc, job, trace, size, &mut out) {
        Ok(()) => out.bytes().to_vec(alloc).ok(),
        Err(_) => None,
    }
}

fn give_text(
    alloc: Global,
    job: &Job,
    trace: &[u8],
    size: usize,
    out: &mut MemSink,
) -> Result<(), Ungiven> {
    let mut source = MemSource::new(alloc, trace, size.max(1), &[])?;
    give(alloc, job, &mut source, out)
}

fn give(
    alloc: Global,
    job: &Job,
    source: &mut MemSource,
    out: &mut MemSink,
) -> Result<(), Ungiven> {
    match read_old(alloc, Edition::Two, source) {
        Ok(entries) => give_least(alloc, job, &entries, out),
        Err(Unread::Bad { line }) => give_fault(alloc, out, line),
        Err(Unread::Failed | Unread::Memory) => Ok(()),
    }
}

/// The third call of a source fails.
pub(crate) fn tell_failing(rt: &HostRuntime) -> io::Result<()> {
    let Ok(mut source) = MemSource::new(rt.alloc(), b"trace 2\nend 0\n", 5, &[3]) else {
        return println!(rt; "no memory");
    };
    let told = read_old(rt.alloc(), Edition::Two, &mut source);
    println!(rt;
        "failing: {}, {} faults",
        told.err() == Some(Unread::Failed),
        source.faults()
    )
}

/// What is read of the file at a path.
pub(crate) fn tell_file(rt: &HostRuntime, path: &str) -> io::Result<()> {
    let mut source = StdSource::new(OldFile::new(rt, path));
    match read_old(rt.alloc(), Edition::Two, &mut source) {
        Ok(entries) => println!(rt;
            "{path}: {} entries, {} faults",
            entries.len(),
            source.faults()
        ),
        Err(unread) => println!(rt;
            "{path}: {}, {} faults",
            unread == Unread::Failed,
            source.faults()
        ),
    }
}
