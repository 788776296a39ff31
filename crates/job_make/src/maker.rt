//! Making a job.

ghost use Rattle.std.specs.Prelude.{◌≡◌, ◌≤◌, ℕ, IfOk};
ghost use Rattle.job_grammar.specs.inner.Valid.{IsValid};
ghost use Rattle.job_make.specs.MadeJob.{least_size, made_bytes, made_job};
ghost use Rattle.job_make.specs.inner.MadeJob.{IsLeastLawful};

use crate::enclave::enclave_of;
use crate::scripts::draw_scripts;
use job_grammar::jobs::{Job, JobParts, Marks};
use sgx_types::names::Memory;
use std::alloc::Global;

/// The job of a number and a size, from 4 to 2000: an enclave of `size + 9` pages, of which five eighths or so have a frame, and four
/// processors that do `size` operations each. The number alone decides which; it starts the generator. A processor loads only words
/// that no other stores. The job is this project's own.
pub fn make_job(alloc: Global, number: u64, size: u32) -> Result<Job, Memory>
    requires least { 4 ≤ size }
    requires most { size ≤ 2000 }
    ensures { IfOk result (λ job. job ≡ made_job number size) }
{
    let mut enclaves = Vec::new(alloc);
    enclaves.push(enclave_of(alloc, size)?)?;
    let scripts = draw_scripts(alloc, number, size)?;
    let epc = (5 * size / 8 + 3).max(32);
    Ok(Job::new(JobParts {
        epc,
        marks: Marks::of_frames(epc),
        key: [0; 32],
        start_epoch: 1,
        start_version: 1,
        enclaves,
        plans: Vec::new(alloc),
        scripts,
    }))
}

/// A made job is valid.
pub fn what_is_made_is_valid()
    ensures { (number size : ℕ) → 4 ≤ size → size ≤ 2000 → IsValid (made_job number size) }
{}

/// The size of its enclave is the least lawful one that has room for its pages.
pub fn the_enclave_is_the_least()
    ensures { (size : ℕ) → 4 ≤ size → size ≤ 2000 → IsLeastLawful 0x10000000 (made_bytes size) (least_size (made_bytes size)) }
{}
