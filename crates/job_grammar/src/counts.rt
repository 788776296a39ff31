//! How many pages, frames and version array pages a job needs.

ghost use Rattle.std.specs.Prelude.{◌≡◌, ◌+◌, ◌-◌, ◌*◌, ◌/◌, ◌^◌, ◌≤◌, length, map, min, sum_by};
ghost use Rattle.job_grammar.specs.Jobs.{page_count, enclave_pages};
ghost use Rattle.job_grammar.specs.inner.Jobs.{enclave_view};

use crate::jobs::{EnclaveJob, Op, PageLine};

/// How many pages the lines add. A sum that would pass 2^64 - 1 stands there.
fn pages_of(lines: &[PageLine]) -> u64
    ensures { result ≡ min (sum_by page_count lines.now) (2 ^ 64 - 1) }
{
    let mut pages: u64 = 0;
    for line in lines {
        pages = pages.saturating_add(u64::from(line.count()));
    }
    pages
}

/// How many pages the enclaves have. A sum that would pass 2^64 - 1 stands there.
pub(crate) fn total_pages(enclaves: &[EnclaveJob]) -> u64
    ensures { result ≡ min (sum_by enclave_pages (map enclave_view enclaves.now)) (2 ^ 64 - 1) }
{
    let mut pages: u64 = 0;
    for enclave in enclaves {
        pages = pages.saturating_add(pages_of(&enclave.lines));
    }
    pages
}

/// How many version array pages the enclaves need.
pub(crate) fn va_pages_of(enclaves: &[EnclaveJob]) -> u32
    requires pages { sum_by enclave_pages (map enclave_view enclaves.now) ≤ 4096 }
    requires enclaves { length enclaves.now ≤ 8 }
    ensures value { result ≡ (sum_by enclave_pages (map enclave_view enclaves.now) + length enclaves.now) / 500 + 1 }
    ensures few { result ≤ 9 }
{
    (total_pages(enclaves) as u32 + enclaves.len() as u32) / 500 + 1
}

/// How many frames the enclaves and the processors need.
pub(crate) fn needed_by(enclaves: &[EnclaveJob], scripts: &[Vec<Op>]) -> u32
    requires pages { sum_by enclave_pages (map enclave_view enclaves.now) ≤ 4096 }
    requires enclaves { length enclaves.now ≤ 8 }
    requires scripts { length scripts.now ≤ 16 }
    ensures { result ≡ length enclaves.now + ((sum_by enclave_pages (map enclave_view enclaves.now) + length enclaves.now) / 500 + 1)
        + 3 * length scripts.now + 1 }
{
    enclaves.len() as u32 + va_pages_of(enclaves) + 3 * scripts.len() as u32 + 1
}
