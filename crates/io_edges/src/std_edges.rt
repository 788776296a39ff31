//! Edges over the readers and writers of the system.

ghost use Rattle.std.specs.Prelude.{◌≡◌, ◌<◌, ◌≤◌, length, None, IfOk, OnOk, OnErr, IsErr};
ghost use Rattle.io_edges.specs.inner.Faults.{HasCause, one_more};

use crate::faults::Failed;
use crate::sinks::Sink;
use crate::sources::Source;
use std::io::{Read, Write};
use std::marker::Model;

/// A source over a reader of the system. It doesn't tell what the reader has. Each error of the reader is a fault, an
/// interruption too.
#[derive(Drop)]
pub struct StdSource<R> {
    reader: R,
    faults: u64,
}

impl<R> Model for StdSource<R> {
    ghost use Rattle.std.specs.Prelude.{ℕ};

    ghost Value = { ℕ };

    ghost view = { λ s. s.faults };
}

impl<R> StdSource<R> {
    pub fn new(reader: R) -> Self
        ensures { result ≡ 0 }
    {
        StdSource { reader, faults: 0 }
    }

    /// How many of its calls failed.
    pub fn faults(&self) -> u64
        ensures { result ≡ self.now }
    {
        self.faults
    }
}

impl<R: Read> Source for StdSource<R> {
    ghost left = { λ _. None };

    ghost faults = { λ s. s };

    fn take(&mut self, into: &mut [u8]) -> Result<usize, Failed>
        requires { 0 < length into.old }

        ensures counted { OnErr result (self.new ≡ one_more self.old) }
        ensures done { OnOk result (self.new ≡ self.old) }

        ensures bound { IfOk result (λ n. n ≤ length into.new) }
        ensures length { length into.new ≡ length into.old }
        ensures cause { HasCause self.old self.new (IsErr result) }
    {
        match self.reader.read(into) {
            Ok(n) => Ok(n),
            Err(_) => {
                self.faults = self.faults.saturating_add(1);
                Err(Failed)
            }
        }
    }
}

/// A sink over a writer of the system. It doesn't tell what the writer was given. Each error of the writer is a fault,
/// an interruption too, and so is a call that takes no byte. Hand in a writer that holds nothing back: a fault that
/// comes when a buffer is emptied later is not seen here.
#[derive(Drop)]
pub struct StdSink<W> {
    writer: W,
    faults: u64,
}

impl<W> Model for StdSink<W> {
    ghost use Rattle.std.specs.Prelude.{ℕ};

    ghost Value = { ℕ };

    ghost view = { λ s. s.faults };
}

impl<W> StdSink<W> {
    pub fn new(writer: W) -> Self
        ensures { result ≡ 0 }
    {
        StdSink { writer, faults: 0 }
    }

    /// How many of its calls failed.
    pub fn faults(&self) -> u64
        ensures { result ≡ self.now }
    {
        self.faults
    }
}

impl<W: Write> Sink for StdSink<W> {
    ghost given = { λ _. None };

    ghost faults = { λ s. s };

    fn give(&mut self, from: &[u8]) -> Result<usize, Failed>
        requires { 0 < length from.now }

        ensures counted { OnErr result (self.new ≡ one_more self.old) }
        ensures done { OnOk result (self.new ≡ self.old) }

        ensures some { IfOk result (λ n. 1 ≤ n) }
        ensures bound { IfOk result (λ n. n ≤ length from.now) }
        ensures cause { HasCause self.old self.new (IsErr result) }
    {
        match self.writer.write(from) {
            Ok(n) if n > 0 => Ok(n),
            _ => {
                self.faults = self.faults.saturating_add(1);
                Err(Failed)
            }
        }
    }
}
