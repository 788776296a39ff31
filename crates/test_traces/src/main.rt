// Reads traces from files and says of each how many entries it has, or the line of its fault. A word before their paths says how:
// `whole`; or `pieces`, and then each is read in pieces of 1, 2 and 7 bytes too, and what was read is printed again; or `cuts`,
// and then each proper front of each is read, which must be refused with the line that holds the cut; or `migrated`, and then the text
// of each in the second edition is printed, where it is one of the first; or `old`, and then each is read as an old trace of its job; or
// `files`, and then each is a file that is opened at its first read. The word `failing` stands for an old trace whose source fails.
#![tactic(auto)]

mod old;

ghost use Rattle.std.specs.Prelude.{◌<◌};

use sgx_rules::entries::Entry;
use std::alloc::{AllocError, Global};
use std::{env, fs, io};
use trace_migrate::migrating::migrate;
use trace_reader::reader::{TraceReader, read_trace};
use trace_reader::refusals::TraceRefusal;
use trace_text::edition::Edition;
use trace_text::trace::print_trace;

fn main(rt: HostRuntime) -> io::Result<()> {
    let mut mode = Mode::Whole;
    for word in env::args(&rt)?.skip(1) {
        match word.as_str() {
            "whole" => mode = Mode::Whole,
            "pieces" => mode = Mode::Pieces,
            "cuts" => mode = Mode::Cuts,
            "migrated" => mode = Mode::Migrated,
            "old" => mode = Mode::Old,
            "files" => mode = Mode::Files,
            "failing" => old::tell_failing(&rt)?,
            path => tell(&rt, mode, path)?,
        }
    }
    Ok(())
}

// How the texts of the paths behind a word are read.
#[derive(Clone, Copy, PartialEq, Eq)]
enum Mode {
    Whole,
    Pieces,
    Cuts,
    Migrated,
    Old,
    Files,
}

fn tell(rt: &HostRuntime, mode: Mode, path: &str) -> io::Result<()> {
    match mode {
        Mode::Old => old::tell_trace(rt, path),
        Mode::Files => old::tell_file(rt, path),
        _ => tell_read(rt, mode, path),
    }
}

fn tell_read(rt: &HostRuntime, mode: Mode, path: &str) -> io::Result<()> {
    let text = fs::read_to_string(rt, path)?;
    let bytes = text.as_bytes();
    match mode {
        Mode::Cuts => tell_cuts(rt, path, bytes),
        Mode::Migrated => tell_migrated(rt, path, bytes),
        Mode::Pieces => tell_text(rt, path, bytes, true),
        _ => tell_text(rt, path, bytes, false),
    }
}

fn tell_text(rt: &HostRuntime, path: &str, bytes: &[u8], in_pieces: bool) -> io::Result<()> {
    let told = read_trace(rt.alloc(), bytes);
    tell_told(rt, path, bytes, in_pieces, &told)
}

fn tell_told(
    rt: &HostRuntime,
    path: &str,
    bytes: &[u8],
    in_pieces: bool,
    told: &Result<Vec<Entry>, TraceRefusal>,
) -> io::Result<()> {
    if in_pieces && !are_alike(rt.alloc(), bytes, told) {
        println!(rt; "{path}: in pieces another answer")?;
    }
    match told {
        Ok(entries) if !in_pieces || is_printed(rt.alloc(), entries, bytes) => {
            println!(rt; "{path}: {} entries", entries.len())
        }
        Ok(_) => println!(rt; "{path}: printed otherwise"),
        Err(TraceRefusal::Fault { line }) => println!(rt; "{path}: line {line}"),
        Err(TraceRefusal::Memory) => println!(rt; "{path}: no memory"),
    }
}

fn tell_migrated(rt: &HostRuntime, path: &str, bytes: &[u8]) -> io::Result<()> {
    if bytes.len() > 1 << 30 {
        return println!(rt; "{path}: too long");
    }
    match migrate(rt.alloc(), bytes) {
        Ok(text) => println!(rt; "{path}: {}", str::from_utf8(&text).unwrap_or("no text")),
        Err(TraceRefusal::Fault { line }) => println!(rt; "{path}: line {line}"),
        Err(TraceRefusal::Memory) => println!(rt; "{path}: no memory"),
    }
}

// Says whether each proper front of a text is refused with the line that holds the cut, or which is the first that is not.
fn tell_cuts(rt: &HostRuntime, path: &str, bytes: &[u8]) -> io::Result<()> {
    let mut line = 1;
    for count in 0..bytes.len() {
        if !is_refused(rt.alloc(), &bytes[..count], TraceRefusal::Fault { line }) {
            return println!(rt; "{path}: another answer to its first {count} bytes");
        }
        line = line.saturating_add(u64::from(bytes[count] == b'\n'));
    }
    println!(rt; "{path}: {} proper fronts refused", bytes.len())
}

// Whether the front of a text is refused so, whole and in pieces of 1 byte, and whether that is kept.
fn is_refused(alloc: Global, front: &[u8], fault: TraceRefusal) -> bool {
    read_trace(alloc, front).err() == Some(fault)
        && read_pieces(alloc, front, 1).err() == Some(fault)
        && is_kept(alloc, front, fault)
}

// Whether a reader in pieces of 1 byte that finds a fault answers it again at each later call. The line that is cut has its fault at
// its line feed, since a space stands before it.
fn is_kept(alloc: Global, front: &[u8], fault: TraceRefusal) -> bool {
    match with_a_faulty_line(alloc, front) {
        Ok(text) => is_answered_again(alloc, &text, front.len(), fault),
        Err(_) => false,
    }
}

fn is_answered_again(alloc: Global, text: &[u8], last: usize, fault: TraceRefusal) -> bool {
    let mut reader = TraceReader::new(alloc, Edition::Two);
    let is_so = is_answered_behind(alloc, &mut reader, text, last, fault);
    let ends = reader.finish().err();
    is_so && ends == Some(fault)
}

// Whether the fault is the answer to each byte behind the last good one.
fn is_answered_behind(
    alloc: Global,
    reader: &mut TraceReader,
    text: &[u8],
    last: usize,
    fault: TraceRefusal,
) -> bool {
    for (count, piece) in text.chunks(1).enumerate() {
        let told = reader.feed(alloc, piece);
        let want = if count <= last { Ok(()) } else { Err(fault) };
        if told != want {
            return false;
        }
    }
    true
}

// A front of a text, whose cut line goes on with a space and a line feed, and one line more.
fn with_a_faulty_line(alloc: Global, front: &[u8]) -> Result<Vec<u8>, AllocError> {
    let mut text = front.to_vec(alloc)?;
    text.extend_from_slice(b" \n\n")?;
    Ok(text)
}

// Whether the entries have these bytes as their text.
fn is_printed(alloc: Global, entries: &[Entry], bytes: &[u8]) -> bool {
    match print_trace(alloc, entries) {
        Ok(text) => text.as_slice() == bytes,
        Err(_) => false,
    }
}

// What is read in pieces. A fault in the middle is answered again at the end.
fn read_pieces(alloc: Global, bytes: &[u8], size: usize) -> Result<Vec<Entry>, TraceRefusal>
    requires { 0 < size }
{
    let mut reader = TraceReader::new(alloc, Edition::Two);
    for piece in bytes.chunks(size) {
        let _ = reader.feed(alloc, piece);
    }
    reader.finish()
}

fn are_alike(alloc: Global, bytes: &[u8], told: &Result<Vec<Entry>, TraceRefusal>) -> bool {
    for size in [1, 2, 7] {
        if !is_alike(alloc, bytes, size, told) {
            return false;
        }
    }
    true
}

fn is_alike(
    alloc: Global,
    bytes: &[u8],
    size: usize,
    told: &Result<Vec<Entry>, TraceRefusal>,
) -> bool
    requires { 0 < size }
{
    let read = read_pieces(alloc, bytes, size);
    is_same(&read, told)
}

fn is_same(
    read: &Result<Vec<Entry>, TraceRefusal>,
    told: &Result<Vec<Entry>, TraceRefusal>,
) -> bool {
    match (read, told) {
        (Ok(entries), Ok(others)) => entries.as_slice() == others.as_slice(),
        (Err(refusal), Err(other)) => *refusal == *other,
        _ => false,
    }
}
