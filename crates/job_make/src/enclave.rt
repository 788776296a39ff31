//! The enclave of a made job.

ghost use Rattle.std.specs.Prelude.{◌≡◌, ◌≤◌, IfOk};
ghost use Rattle.job_grammar.specs.inner.Jobs.{enclave_view};
ghost use Rattle.job_make.specs.MadeJob.{least_size, made_bytes, made_enclave, tcs_of};

use job_grammar::jobs::{EnclaveJob, PageLine};
use sgx_types::names::{Memory, PAGE_BYTES, Perm};
use std::alloc::Global;

/// Where the enclave lies, in bytes.
const BASE: u64 = 0x1000_0000;

/// Pages that can be read and written.
const READ_WRITE: Perm = Perm {
    r: true,
    w: true,
    x: false,
};

/// The line of the TCS page of a processor.
fn tcs_line(cpu: u32) -> PageLine
    requires { cpu ≤ 3 }
    ensures { result ≡ tcs_of cpu }
{
    PageLine::Tcs {
        page: cpu,
        ossa: 4 + cpu,
        nssa: 1,
        plain: false,
    }
}

/// The least lawful size with room for the pages of the enclave.
#[tactic(auto, using(crate::proofs::EnclaveSizes::next_is_least))]
fn least_size_of(size: u32) -> u64
    requires least { 4 ≤ size }
    requires most { size ≤ 2000 }
    ensures { result ≡ least_size (made_bytes size) }
{
    (u64::from(size + 9) * PAGE_BYTES).next_power_of_two()
}

/// The enclave of a made job.
pub(crate) fn enclave_of(alloc: Global, size: u32) -> Result<EnclaveJob, Memory>
    requires least { 4 ≤ size }
    requires most { size ≤ 2000 }
    ensures { IfOk result (λ enclave. enclave_view enclave ≡ made_enclave size) }
{
    let lines = vec![in alloc;
        tcs_line(0),
        tcs_line(1),
        tcs_line(2),
        tcs_line(3),
        PageLine::Reg {
            first: 4,
            count: 4,
            perm: READ_WRITE,
            value: 0,
            plain: false
        },
        PageLine::Reg {
            first: 8,
            count: size + 1,
            perm: READ_WRITE,
            value: 5,
            plain: false
        },
    ]?;
    Ok(EnclaveJob {
        base: BASE,
        size: least_size_of(size),
        lines,
        expect: None,
    })
}
