//! A sink over memory.

ghost use Rattle.std.specs.Prelude.{◌≡◌, ◌<◌, ◌≤◌, length, Some, IfOk, IsErr};
ghost use Rattle.io_edges.specs.inner.Faults.{HasCause};

use crate::faults::Failed;
use crate::sinks::Sink;
use sgx_types::names::Memory;
use std::alloc::Global;
use std::marker::Model;

/// How many bytes a sink over memory has room for.
pub const CAPACITY: usize = 1 << 24;

/// A sink over memory, which takes bytes in pieces and fails at chosen calls and where it is full.
#[derive(Drop)]
pub struct MemSink {
    bytes: Vec<u8>,
    piece: usize,
    fails: Vec<u64>,
    calls: u64,
    faults: u64,
}

impl Model for MemSink {
    ghost use Rattle.std.specs.Prelude.{◌≤◌, vec_len, vec_capacity};
    ghost use Rattle.io_edges.specs.inner.MemSink.{SinkState};
    ghost use Rattle.io_edges.specs.declared.mem_sink.TheConstants.{CAPACITY};

    ghost Value = { SinkState };

    ghost view = { λ s. record {
      given = s.bytes.items;
      piece = s.piece;
      fails = s.fails.items;
      calls = s.calls;
      faults = s.faults;
    } };

    ghost invariant = { λ s.
        (vec_len s.bytes ≤ CAPACITY) × (CAPACITY ≤ vec_capacity s.bytes) × (1 ≤ s.piece) };
}

impl MemSink {
    ghost use Rattle.io_edges.specs.inner.MemSink.{new_sink};

    /// An empty sink with room for 2^24 bytes. A call takes at most `piece` bytes. Exactly the calls whose number is
    /// in `fails` fail, where the first call has number 1, and those into a full sink.
    pub fn new(alloc: Global, piece: usize, fails: &[u64]) -> Result<Self, Memory>
        requires { 1 ≤ piece }
        ensures { IfOk result (λ sink. sink ≡ new_sink piece fails.now) }
    {
        Ok(MemSink {
            bytes: Vec::with_capacity(alloc, CAPACITY)?,
            piece,
            fails: fails.to_vec(alloc)?,
            calls: 0,
            faults: 0,
        })
    }

    /// The bytes that it took.
    pub fn bytes(&self) -> &[u8]
        ensures { result.now ≡ self.now.given }
    {
        &self.bytes
    }

    /// How many of its calls failed.
    pub fn faults(&self) -> u64
        ensures { result ≡ self.now.faults }
    {
        self.faults
    }
}

impl Sink for MemSink {
    ghost use Rattle.io_edges.specs.inner.MemSink.{give_of};

    ghost given = { λ s. Some s.given };

    ghost faults = { λ s. s.faults };

    fn give(&mut self, from: &[u8]) -> Result<usize, Failed>
        requires { 0 < length from.now }

        ensures answer { result ≡ (give_of self.old from.now).answer }
        ensures sink { self.new ≡ (give_of self.old from.now).sink }

        // What a sink promises besides, where that doesn't follow from these two.
        ensures some { IfOk result (λ n. 1 ≤ n) }
        ensures cause { HasCause self.old.faults self.new.faults (IsErr result) }
    {
        self.calls = self.calls.saturating_add(1);
        let room = CAPACITY - self.bytes.len();
        if self.fails.contains(&self.calls) || room == 0 {
            self.faults = self.faults.saturating_add(1);
            return Err(Failed);
        }
        let n = self.piece.min(from.len()).min(room);
        self.bytes.extend_from_slice(&from[..n]).unwrap();
        Ok(n)
    }
}
