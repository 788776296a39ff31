//! A source over memory.

ghost use Rattle.std.specs.Prelude.{◌≡◌, ◌<◌, ◌≤◌, length, Some, IfOk, IsErr};
ghost use Rattle.io_edges.specs.inner.Faults.{HasCause};
ghost use Rattle.io_edges.specs.inner.Sources.{Gives};
ghost use Rattle.io_edges.specs.inner.MemSource.{new_source, take_of};

use crate::faults::Failed;
use crate::sources::Source;
use sgx_types::names::Memory;
use std::alloc::Global;
use std::marker::Model;

/// A source over memory, which gives its bytes in pieces and fails at chosen calls.
#[derive(Drop)]
pub struct MemSource {
    bytes: Vec<u8>,
    at: usize,
    piece: usize,
    fails: Vec<u64>,
    calls: u64,
    faults: u64,
}

impl Model for MemSource {
    ghost use Rattle.std.specs.Prelude.{◌≤◌, drop, vec_len};
    ghost use Rattle.io_edges.specs.inner.MemSource.{SourceState};

    ghost Value = { SourceState };

    ghost view = { λ s. record {
      left = drop s.at s.bytes.items;
      piece = s.piece;
      fails = s.fails.items;
      calls = s.calls;
      faults = s.faults;
    } };

    ghost invariant = { λ s. (s.at ≤ vec_len s.bytes) × (1 ≤ s.piece) };
}

impl MemSource {
    /// A source of these bytes. A call gives at most `piece` bytes. Exactly the calls whose number is in `fails`
    /// fail, where the first call has number 1.
    pub fn new(alloc: Global, bytes: &[u8], piece: usize, fails: &[u64]) -> Result<Self, Memory>
        requires { 1 ≤ piece }
        ensures { IfOk result (λ source. source ≡ new_source bytes.now piece fails.now) }
    {
        Ok(MemSource {
            bytes: bytes.to_vec(alloc)?,
            at: 0,
            piece,
            fails: fails.to_vec(alloc)?,
            calls: 0,
            faults: 0,
        })
    }

    /// The bytes that it still has.
    pub fn left(&self) -> &[u8]
        ensures { result.now ≡ self.now.left }
    {
        &self.bytes[self.at..]
    }

    /// How many of its calls failed.
    pub fn faults(&self) -> u64
        ensures { result ≡ self.now.faults }
    {
        self.faults
    }
}

impl Source for MemSource {
    ghost left = { λ s. Some s.left };

    ghost faults = { λ s. s.faults };

    fn take(&mut self, into: &mut [u8]) -> Result<usize, Failed>
        requires { 0 < length into.old }

        ensures answer { result ≡ (take_of self.old into.old).answer }
        ensures source { self.new ≡ (take_of self.old into.old).source }
        ensures slice { into.new ≡ (take_of self.old into.old).slice }

        // What a source promises besides, where that doesn't follow from these three.
        ensures given { IfOk result (λ n. Gives into.old into.new n self.old.left) }
        ensures cause { HasCause self.old.faults self.new.faults (IsErr result) }
    {
        self.calls = self.calls.saturating_add(1);
        if self.fails.contains(&self.calls) {
            self.faults = self.faults.saturating_add(1);
            return Err(Failed);
        }
        let rest = &self.bytes[self.at..];
        let n = self.piece.min(into.len()).min(rest.len());
        into[..n].copy_from_slice(&rest[..n]);
        self.at += n;
        Ok(n)
    }
}
