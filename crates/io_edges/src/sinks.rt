//! Where bytes go to.

ghost use Rattle.std.specs.Prelude.{◌≡◌, ◌<◌, ◌≤◌, ℕ, List, Option, length, take, IfOk, OnErr, IsErr};
ghost use Rattle.io_edges.specs.inner.Faults.{HasCause};
ghost use Rattle.io_edges.specs.Sinks.{followed_by};

use crate::faults::Failed;

/// Where bytes go to: a file, a terminal, or memory.
pub trait Sink {
    /// The bytes that it was given so far, where it tells them.
    ghost given: { Self → Option (List ℕ) };

    /// How often it has failed. A count that would pass 2^64 - 1 stands still.
    ghost faults: { Self → ℕ };

    /// Takes bytes from the front of the slice, and answers how many, at least 1.
    fn give(&mut self, from: &[u8]) -> Result<usize, Failed>
        requires { 0 < length from.now }
        ensures some { IfOk result (λ n. 1 ≤ n) }
        ensures bound { IfOk result (λ n. n ≤ length from.now) }

        // Where it tells, exactly the bytes that it took are appended.
        ensures given { IfOk result (λ n.
            given self.new ≡ followed_by (given self.old) (take n from.now)) }

        // A call that fails takes nothing.
        ensures err { OnErr result (given self.new ≡ given self.old) }
        ensures cause { HasCause (faults self.old) (faults self.new) (IsErr result) };
}
