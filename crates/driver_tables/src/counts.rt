//! How many places each enclave has in a table of pages.

ghost use Rattle.std.specs.Prelude.{◌≡◌, ◌≤◌, ◌^◌, map, IfOk};
ghost use Rattle.std.specs.List.{All};
ghost use Rattle.job_grammar.specs.inner.Jobs.{enclave_view};
ghost use Rattle.driver_tables.specs.inner.Counts.{IsShort, last_end, enclave_places, IsLow};

use job_grammar::jobs::{EnclaveJob, PageLine};
use sgx_types::names::Memory;
use std::alloc::Global;

// One past the highest page number that the lines name.
fn places_of(lines: &[PageLine]) -> u32
    requires { All IsShort lines.now }
    ensures { result ≡ last_end lines.now }
{
    let mut end = 0;
    for line in lines {
        end = end.max(line.first() + line.count());
    }
    end
}

/// For each enclave from number 1 on, one past its highest page number.
pub(crate) fn page_counts(alloc: Global, enclaves: &[EnclaveJob]) -> Result<Vec<u32>, Memory>
    requires { All IsLow enclaves.now }
    ensures { IfOk result (λ counts. counts.items ≡ map enclave_places (map enclave_view enclaves.now)) }
{
    let mut counts = Vec::with_capacity(alloc, enclaves.len())?;
    for enclave in enclaves {
        counts.push_reserved(places_of(&enclave.lines));
    }
    Ok(counts)
}
