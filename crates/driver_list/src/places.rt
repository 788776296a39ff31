//! Where a page stands in a table over the pages of a job.

ghost use Rattle.std.specs.Prelude.{◌≡◌, ◌+◌, ◌<◌, ◌≤◌, ◌^◌, length, sum, IfOk};
ghost use Rattle.driver_list.specs.inner.Places.{IsPlaced, place_of, total};

use sgx_types::names::{Memory, Page, SECS_NUMBER};
use std::alloc::Global;
use std::marker::Model;

/// The places of pages in a table: first those of the SECSs, then those of the version array pages, and then a range for the TCS and
/// REG pages of each enclave, one after another. Contracts see how many pages there are.
#[derive(Drop)]
pub(crate) struct Places {
    // By enclave, how many TCS and REG pages it has. Enclave 1 is the first.
    counts: Vec<u32>,
    // How many version array pages there are.
    arrays: u32,
    // By enclave, the place of its first TCS or REG page.
    firsts: Vec<usize>,
}

impl Model for Places {
    ghost use Rattle.driver_list.specs.inner.Places.{PageCounts};

    ghost Value = { PageCounts };

    ghost use Rattle.driver_list.specs.inner.Ranges.{counts_of, AreRangesKept};

    ghost view = { counts_of };

    ghost invariant = { AreRangesKept };
}

impl Places {
    /// A place for the SECS of each enclave, for so many version array pages, and for each TCS and REG page of the enclaves from 1 on,
    /// by how many of them each has.
    pub(crate) fn new(alloc: Global, counts: &[u32], arrays: u32) -> Result<Places, Memory>
        requires enclaves { length counts.now ≤ 8 }
        requires arrays { arrays ≤ 9 }
        requires pages { length counts.now + arrays + sum counts.now < 2 ^ 32 }
        ensures { IfOk result (λ places. places ≡ record { own = counts.now; arrays = arrays }) }
    {
        let mut by_enclave = Vec::with_capacity(alloc, counts.len())?;
        let mut firsts = Vec::with_capacity(alloc, counts.len())?;
        let mut total = counts.len() + arrays as usize;
        for count in counts {
            by_enclave.push_reserved(*count);
            firsts.push_reserved(total);
            total += *count as usize;
        }
        Ok(Places {
            counts: by_enclave,
            arrays,
            firsts,
        })
    }

    /// How many places there are.
    pub(crate) fn total(&self) -> usize
        ensures value { result ≡ total self.now }
        ensures few { result < 2 ^ 32 }
    {
        let own: usize = self.counts.iter().map(|count| *count as usize).sum();
        self.counts.len() + self.arrays as usize + own
    }

    /// The place of a page of the job.
    pub(crate) fn place(&self, page: Page) -> usize
        requires { IsPlaced self.now page }
        ensures value { result ≡ place_of self.now page }
        ensures within { result < total self.now }
    {
        if page.enclave == 0 {
            return self.counts.len() + page.number as usize;
        }
        let before = usize::from(page.enclave) - 1;
        if page.number == SECS_NUMBER {
            return before;
        }
        self.firsts[before] + page.number as usize
    }
}
