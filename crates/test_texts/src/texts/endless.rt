//! A source that has no end.

ghost use Rattle.std.specs.Prelude.{◌≡◌, ◌<◌, ◌≤◌, length, None, IfOk, IsErr};
ghost use Rattle.io_edges.specs.inner.Faults.{HasCause};

use crate::same::are_same;
use io_edges::faults::Failed;
use io_edges::sources::Source;
use std::test::Fail;
use trace_file::reading::read_old;
use trace_file::unread::Unread;
use trace_text::edition::Edition;

/// A source of bytes without end.
#[derive(Debug, Drop)]
pub struct EndlessSource {
    given: u64,
}

impl EndlessSource {
    pub fn new() -> EndlessSource {
        EndlessSource { given: 0 }
    }

    /// How many bytes it gave.
    pub fn given(&self) -> u64 {
        self.given
    }
}

impl Source for EndlessSource {
    ghost left = { λ _. None };

    ghost faults = { λ _. 0 };

    fn take(&mut self, into: &mut [u8]) -> Result<usize, Failed>
        requires { 0 < length into.old }
        ensures bound { IfOk result (λ n. n ≤ length into.new) }
        ensures length { length into.new ≡ length into.old }
        ensures cause { HasCause 0 0 (IsErr result) }
    {
        into.fill(b'\n');
        self.given = self.given.saturating_add(into.len() as u64);
        Ok(into.len())
    }
}

// A text without end is refused as too long, though its first line is faulty, and is read no further than one byte past the longest.
#[test]
fn an_endless_text_is_too_long(rt: HostRuntime) -> Result<(), Fail> {
    let mut source = EndlessSource::new();
    let told = read_old(rt.alloc(), Edition::Two, &mut source);
    assert!(rt; told.err() == Some(Unread::Bad { line: 0 }));
    are_same(&rt, source.given(), (1 << 30) + 1);
    Ok(())
}
