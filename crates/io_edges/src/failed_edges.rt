//! Edges that fail at every call.

ghost use Rattle.std.specs.Prelude.{◌≡◌, ◌<◌, [], length, None, Some, IsErr};
ghost use Rattle.io_edges.specs.inner.Faults.{HasCause, one_more};

use crate::faults::Failed;
use crate::sinks::Sink;
use crate::sources::Source;
use std::marker::Model;

/// A source that fails at every call, in the place of a file that could not be opened.
#[derive(Default, Drop)]
pub struct FailedSource {
    faults: u64,
}

impl Model for FailedSource {
    ghost use Rattle.std.specs.Prelude.{ℕ};

    ghost Value = { ℕ };

    ghost view = { λ s. s.faults };
}

impl FailedSource {
    pub fn new() -> Self
        ensures { result ≡ 0 }
    {
        FailedSource { faults: 0 }
    }

    /// How many calls were made.
    pub fn faults(&self) -> u64
        ensures { result ≡ self.now }
    {
        self.faults
    }
}

impl Source for FailedSource {
    ghost left = { λ _. None };

    ghost faults = { λ s. s };

    fn take(&mut self, into: &mut [u8]) -> Result<usize, Failed>
        requires { 0 < length into.old }

        ensures fails { IsErr result }
        ensures counted { self.new ≡ one_more self.old }
        ensures slice { into.new ≡ into.old }
        ensures cause { HasCause self.old self.new (IsErr result) }
    {
        self.faults = self.faults.saturating_add(1);
        Err(Failed)
    }
}

/// A sink that fails at every call, in the place of a file that could not be made.
#[derive(Default, Drop)]
pub struct FailedSink {
    faults: u64,
}

impl Model for FailedSink {
    ghost use Rattle.std.specs.Prelude.{ℕ};

    ghost Value = { ℕ };

    ghost view = { λ s. s.faults };
}

impl FailedSink {
    pub fn new() -> Self
        ensures { result ≡ 0 }
    {
        FailedSink { faults: 0 }
    }

    /// How many calls were made.
    pub fn faults(&self) -> u64
        ensures { result ≡ self.now }
    {
        self.faults
    }
}

impl Sink for FailedSink {
    ghost given = { λ _. Some [] };

    ghost faults = { λ s. s };

    fn give(&mut self, from: &[u8]) -> Result<usize, Failed>
        requires { 0 < length from.now }

        ensures fails { IsErr result }
        ensures counted { self.new ≡ one_more self.old }
        ensures cause { HasCause self.old self.new (IsErr result) }
    {
        self.faults = self.faults.saturating_add(1);
        Err(Failed)
    }
}
