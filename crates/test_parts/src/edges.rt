//! Sources and sinks over memory and over readers and writers that fail. Each is taken through rows by one call.

ghost use Rattle.std.specs.Prelude.{◌≤◌};

use io_edges::failed_edges::{FailedSink, FailedSource};
use io_edges::faults::Failed;
use io_edges::giving::give_all;
use io_edges::late_file::LateFile;
use io_edges::mem_sink::{CAPACITY, MemSink};
use io_edges::mem_source::MemSource;
use io_edges::reading::{ReadEnd, read_all};
use io_edges::sinks::Sink;
use io_edges::sources::Source;
use io_edges::std_edges::{StdSink, StdSource};
use std::alloc::Global;
use std::io;
use std::io::{ErrorKind, Read, Write};
use std::process::Abort;
use std::test::Fail;

const TEXT: &[u8] = b"abcdefghijklmnopqrstuvwxyz0123456789ABCD";

/// Gives two bytes, and then fails.
#[derive(Drop)]
struct TwoBytes {
    is_spent: bool,
}

impl Read for TwoBytes {
    fn read(&mut self, buf: &mut [u8]) -> io::Result<usize> {
        if self.is_spent || buf.len() < 2 {
            return Err(ErrorKind::Other.into());
        }
        self.is_spent = true;
        buf[..2].copy_from_slice(b"ab");
        Ok(2)
    }
}

/// Takes three bytes, then none, and then fails.
#[derive(Drop)]
struct ThreeBytes {
    calls: u8,
}

impl Write for ThreeBytes {
    fn write(&mut self, buf: &[u8]) -> io::Result<usize> {
        self.calls = self.calls.saturating_add(1);
        match self.calls {
            1 => Ok(buf.len().min(3)),
            2 => Ok(0),
            _ => Err(ErrorKind::Other.into()),
        }
    }

    fn flush(&mut self) -> io::Result<()> {
        Ok(())
    }
}

/// How many calls of a source or of a sink failed.
trait Counted {
    fn faulty(&self) -> u64;
}

impl<R> Counted for StdSource<R> {
    fn faulty(&self) -> u64 {
        self.faults()
    }
}

impl<W> Counted for StdSink<W> {
    fn faulty(&self) -> u64 {
        self.faults()
    }
}

impl Counted for FailedSource {
    fn faulty(&self) -> u64 {
        self.faults()
    }
}

impl Counted for FailedSink {
    fn faulty(&self) -> u64 {
        self.faults()
    }
}

impl Counted for MemSource {
    fn faulty(&self) -> u64 {
        self.faults()
    }
}

impl Counted for MemSink {
    fn faulty(&self) -> u64 {
        self.faults()
    }
}

/// A call that takes bytes into what is behind a place, its answer, the bytes that stand there then, all of them, and how many
/// calls have failed.
type Taken = (usize, Result<usize, Failed>, &'static [u8], u64);

/// A call that gives bytes, its answer, and how many calls have failed then.
type Given<'a> = (&'a [u8], Result<usize, Failed>, u64);

fn are_bytes(bytes: &[u8], others: &[u8]) -> bool {
    bytes == others
}

fn takes<S: Source + Counted>(rt: &impl Abort, source: &mut S, into: &mut [u8], rows: &[Taken]) {
    for (at, answer, bytes, faults) in rows {
        assert!(rt; *at < into.len());
        let told = (source.take(&mut into[*at..]), source.faulty());
        assert_eq!(rt; told, (*answer, *faults));
        assert!(rt; are_bytes(into, bytes));
    }
}

fn gives<K: Sink + Counted>(rt: &impl Abort, sink: &mut K, rows: &[Given]) {
    for (from, answer, faults) in rows {
        assert!(rt; !from.is_empty());
        let told = (sink.give(from), sink.faulty());
        assert_eq!(rt; told, (*answer, *faults));
    }
}

const TWO: &[Taken] = &[(0, Ok(2), b"ab\0\0\0", 0), (0, Err(Failed), b"ab\0\0\0", 1)];

#[test]
fn a_reader_is_a_source(rt: HostRuntime) {
    let mut source = StdSource::new(TwoBytes { is_spent: false });
    takes(&rt, &mut source, &mut [0; 5], TWO);
}

const THREE: &[Given] = &[
    (b"abcd", Ok(3), 0),
    (b"d", Err(Failed), 1),
    (b"d", Err(Failed), 2),
];

#[test]
fn a_writer_is_a_sink(rt: HostRuntime) {
    let mut sink = StdSink::new(ThreeBytes { calls: 0 });
    gives(&rt, &mut sink, THREE);
}

const NEVER: &[Taken] = &[
    (0, Err(Failed), b"ab", 1),
    (0, Err(Failed), b"ab", 2),
    (0, Err(Failed), b"ab", 3),
];

#[test]
fn a_source_that_was_not_opened_fails_at_every_call(rt: HostRuntime) {
    takes(&rt, &mut FailedSource::new(), &mut [b'a', b'b'], NEVER);
}

const NEVER_MADE: &[Given] = &[
    (b"a", Err(Failed), 1),
    (b"a", Err(Failed), 2),
    (b"a", Err(Failed), 3),
];

#[test]
fn a_sink_that_was_not_made_fails_at_every_call(rt: HostRuntime) {
    gives(&rt, &mut FailedSink::new(), NEVER_MADE);
}

const UNMADE: &[Given] = &[
    (b"abcd", Err(Failed), 1),
    (b"abcd", Err(Failed), 2),
    (b"abcd", Err(Failed), 3),
];

// Files by their paths, and what is given to each.
const FILES: &[(&str, &[Given])] = &[
    ("/dev/null", &[(b"abcd", Ok(4), 0), (b"e", Ok(1), 0)]),
    ("/dev/full", &[(b"abcd", Err(Failed), 1)]),
    ("/no/such/folder", UNMADE),
    ("/", UNMADE),
    ("", UNMADE),
];

#[test]
fn a_late_file_is_a_sink(rt: HostRuntime) {
    for (path, rows) in FILES {
        gives(&rt, &mut StdSink::new(LateFile::new(&rt, path)), rows);
    }
}

const PIECES: &[Taken] = &[
    (0, Ok(3), b"abc\0", 0),
    (0, Err(Failed), b"abc\0", 1),
    (2, Ok(2), b"abde", 1),
];

const REST: &[Taken] = &[(0, Ok(3), b"fghe", 1), (0, Ok(0), b"fghe", 1)];

fn gives_pieces(rt: &impl Abort, source: &mut MemSource) {
    let mut into = [0; 4];
    takes(rt, source, &mut into, PIECES);
    assert!(rt; are_bytes(source.left(), b"fgh"));
    takes(rt, source, &mut into, REST);
}

#[test]
fn memory_gives_pieces(rt: HostRuntime) -> Result<(), Fail> {
    let mut source = MemSource::new(rt.alloc(), b"abcdefgh", 3, &[2])?;
    gives_pieces(&rt, &mut source);
    Ok(())
}

const PARTS: &[Given] = &[
    (b"abcd", Ok(3), 0),
    (b"de", Err(Failed), 1),
    (b"de", Ok(2), 1),
];

#[test]
fn memory_takes_pieces(rt: HostRuntime) -> Result<(), Fail> {
    let mut sink = MemSink::new(rt.alloc(), 3, &[2])?;
    gives(&rt, &mut sink, PARTS);
    assert!(rt; are_bytes(sink.bytes(), b"abcde"));
    Ok(())
}

// All but three bytes are in it.
const LAST: &[Given] = &[
    (b"bcdef", Ok(3), 0),
    (b"e", Err(Failed), 1),
    (b"e", Err(Failed), 2),
    (b"e", Err(Failed), 3),
];

fn is_filled(rt: &impl Abort, sink: &mut MemSink, most: &[u8]) {
    gives(rt, sink, &[(most, Ok(16_777_213), 0)]);
    gives(rt, sink, LAST);
    assert_eq!(rt; sink.bytes().len(), 16_777_216);
    assert!(rt; are_bytes(&sink.bytes()[16_777_212..], b"abcd"));
}

#[test]
fn memory_takes_no_more_than_it_has_room_for(rt: HostRuntime) -> Result<(), Fail> {
    let bytes = vec![in rt.alloc(); b'a'; CAPACITY - 3]?;
    let mut sink = MemSink::new(rt.alloc(), CAPACITY, &[])?;
    is_filled(&rt, &mut sink, &bytes);
    Ok(())
}

// A reading of the text up to a limit, in pieces, of which one call fails: whether it gives the text or how it ends, how many
// bytes are left then, and how many calls failed.
#[derive(Clone, Copy)]
struct Reading {
    piece: usize,
    failing: u64,
    limit: usize,
    ends: (Result<bool, ReadEnd>, usize, u64),
}

// Whether what is read is the text.
fn is_text(alloc: Global, source: &mut MemSource, limit: usize) -> Result<bool, ReadEnd>
    requires { limit ≤ 64 }
{
    let bytes = read_all(alloc, source, limit)?;
    Ok(bytes.as_slice() == TEXT)
}

fn is_read(rt: &impl Abort, alloc: Global, reading: &Reading) -> Result<(), Fail> {
    assert!(rt; reading.piece >= 1);
    assert!(rt; reading.limit <= 64);
    let mut source = MemSource::new(alloc, TEXT, reading.piece, &[reading.failing])?;
    let read = is_text(alloc, &mut source, reading.limit);
    let ends = (read, source.left().len(), source.faults());
    assert_eq!(rt; ends, reading.ends, "call {} fails", reading.failing);
    Ok(())
}

// Reads the text with one call of the source failing: one of the first `calls`, which a reading takes, or the next.
fn read_with_a_fault(rt: &impl Abort, alloc: Global, piece: usize, calls: u64) -> Result<(), Fail> {
    let mut before = 0usize;
    for failing in 1..=calls.saturating_add(1) {
        let ends = if failing <= calls {
            (Err(ReadEnd::Failed), TEXT.len().saturating_sub(before), 1)
        } else {
            (Ok(true), 0, 0)
        };
        let reading = Reading {
            piece,
            failing,
            limit: 64,
            ends,
        };
        is_read(rt, alloc, &reading)?;
        before = before.saturating_add(piece);
    }
    Ok(())
}

// How large a piece is, and how many calls a reading of the text takes.
const READINGS: [(usize, u64); 3] = [(1, 41), (7, 7), (16, 4)];

#[test]
fn a_fault_ends_the_reading(rt: HostRuntime) -> Result<(), Fail> {
    for (piece, calls) in READINGS {
        read_with_a_fault(&rt, rt.alloc(), piece, calls)?;
    }
    Ok(())
}

// Forty bytes are more than twenty.
const LIMITS: &[Reading] = &[
    Reading {
        piece: 16,
        failing: 0,
        limit: 20,
        ends: (Err(ReadEnd::TooLong), 19, 0),
    },
    Reading {
        piece: 16,
        failing: 0,
        limit: 40,
        ends: (Ok(true), 0, 0),
    },
];

#[test]
fn no_more_than_one_byte_past_the_limit_is_read(rt: HostRuntime) -> Result<(), Fail> {
    for reading in LIMITS {
        is_read(&rt, rt.alloc(), reading)?;
    }
    Ok(())
}

// Gives the text with this call of the sink failing: whether all of it is given and how many calls fail, and how many bytes are
// given before.
fn is_given(
    rt: &impl Abort,
    alloc: Global,
    piece: usize,
    failing: u64,
    ends: (Result<(), Failed>, u64),
    before: usize,
) -> Result<(), Fail> {
    assert!(rt; piece >= 1);
    let mut sink = MemSink::new(alloc, piece, &[failing])?;
    let given = (give_all(&mut sink, TEXT), sink.faults());
    assert_eq!(rt; given, ends, "call {failing} fails");
    assert!(rt; give_all(&mut sink, b"") == Ok(()));
    assert!(rt; are_bytes(sink.bytes(), &TEXT[..before.min(40)]));
    Ok(())
}

// .. one of the first `calls`, which the text takes, or the next.
fn give_with_a_fault(rt: &impl Abort, alloc: Global, piece: usize, calls: u64) -> Result<(), Fail> {
    let mut before = 0usize;
    for failing in 1..=calls.saturating_add(1) {
        let ends = if failing <= calls {
            (Err(Failed), 1)
        } else {
            (Ok(()), 0)
        };
        is_given(rt, alloc, piece, failing, ends, before)?;
        before = before.saturating_add(piece);
    }
    Ok(())
}

// How large a piece is, and how many calls the text takes.
const GIVINGS: [(usize, u64); 3] = [(1, 40), (7, 6), (16, 3)];

#[test]
fn a_fault_ends_the_giving(rt: HostRuntime) -> Result<(), Fail> {
    for (piece, calls) in GIVINGS {
        give_with_a_fault(&rt, rt.alloc(), piece, calls)?;
    }
    Ok(())
}
