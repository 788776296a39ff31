//! How much there was to judge in a trace.

ghost use Rattle.std.specs.Prelude.{◌≡◌, ◌+◌, IfOk};
ghost use Rattle.trace_tally.specs.Tally.{more_if};
ghost use Rattle.trace_tally.specs.inner.Tally.{counts_with};

use sgx_types::names::Memory;

/// What one entry is to the tally (this project's own).
#[derive(Clone, Copy)]
pub struct Seen {
    /// A page is written out.
    pub written: bool,
    /// .. whose enclave a processor was inside when it was blocked.
    pub entered: bool,
    /// A page is blocked that a processor caches.
    pub cached: bool,
    /// A page is reloaded.
    pub reloaded: bool,
    /// .. that was reloaded before.
    pub again: bool,
    /// A right driver is never refused so.
    pub odd: bool,
}

/// How many entries gave the rules something to judge (this project's own).
#[derive(Clone, Copy)]
pub struct Counts {
    /// Pages that were written out.
    pub written: u64,
    /// .. and whose enclave a processor was inside when they were blocked.
    pub entered: u64,
    /// Pages that were blocked while a processor cached them.
    pub cached: u64,
    /// Pages that were reloaded.
    pub reloaded: u64,
    /// .. and had been reloaded before.
    pub again: u64,
}

impl Counts {
    /// Nothing was counted.
    pub(crate) const NONE: Counts = Counts {
        written: 0,
        entered: 0,
        cached: 0,
        reloaded: 0,
        again: 0,
    };

    /// An entry more is counted.
    pub(crate) fn with(self, seen: Seen) -> Result<Counts, Memory>
        ensures { IfOk result (λ counts. counts ≡ counts_with seen self) }
    {
        Ok(Counts {
            written: more_if(seen.written, self.written)?,
            entered: more_if(seen.entered, self.entered)?,
            cached: more_if(seen.cached, self.cached)?,
            reloaded: more_if(seen.reloaded, self.reloaded)?,
            again: more_if(seen.again, self.again)?,
        })
    }
}

/// One more. There is no number above 2^64 - 1, and no memory for so many entries.
pub(crate) fn more(count: u64) -> Result<u64, Memory>
    ensures { IfOk result (λ next. next ≡ count + 1) }
{
    count.checked_add(1).ok_or(Memory)
}

fn more_if(is: bool, count: u64) -> Result<u64, Memory>
    ensures { IfOk result (λ next. next ≡ more_if is count) }
{
    if is { more(count) } else { Ok(count) }
}
