//! Where bytes come from.

ghost use Rattle.std.specs.Prelude.{◌≡◌, ◌<◌, ◌≤◌, ℕ, List, Option, length, IfOk, OnErr, OnSome, IfSome, IsErr};
ghost use Rattle.io_edges.specs.inner.Faults.{HasCause};
ghost use Rattle.io_edges.specs.Sources.{fewer};
ghost use Rattle.io_edges.specs.inner.Sources.{Gives};

use crate::faults::Failed;

/// Where bytes come from: a file, or memory.
pub trait Source {
    /// The bytes that it still has, where it tells them.
    ghost left: { Self → Option (List ℕ) };

    /// How often it has failed. A count that would pass 2^64 - 1 stands still.
    ghost faults: { Self → ℕ };

    /// Puts bytes at the front of the slice, and answers how many. 0 is the end of the input.
    fn take(&mut self, into: &mut [u8]) -> Result<usize, Failed>
        requires { 0 < length into.old }
        ensures bound { IfOk result (λ n. n ≤ length into.new) }
        ensures length { length into.new ≡ length into.old }

        // The bytes given are the front of what was left, and the rest is left.
        ensures given { IfOk result (λ n. IfSome (left self.old) (Gives into.old into.new n)) }
        ensures rest { IfOk result (λ n. left self.new ≡ fewer n (left self.old)) }

        // A call that fails takes nothing.
        ensures err { OnErr result (left self.new ≡ left self.old) }
        ensures err_slice { OnErr result (OnSome (left self.old) (into.new ≡ into.old)) }
        ensures cause { HasCause (faults self.old) (faults self.new) (IsErr result) };
}
