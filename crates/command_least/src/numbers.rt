//! The four numbers on a trace of a job, and the text that tells them.

ghost use Rattle.std.specs.Prelude.{◌≡◌, ◌≤◌, IfOk, length, reverse};
ghost use Rattle.command_least.specs.Accesses.{accesses_of, page_frames, made};
ghost use Rattle.command_least.specs.Fewest.{IsFewest, IsLeastText, least_text};

use crate::accesses::accesses_of;
use crate::fewest::fewest_loads;
use crate::reloads::made;
use job_grammar::jobs::Job;
use sgx_rules::entries::Entry;
use sgx_types::names::Memory;
use std::alloc::Global;
use text_words::words::Word::{Decimal, Name};
use text_words::words::push_line;

/// How far a trace's reloads were from the fewest.
#[derive(Clone, Copy)]
pub struct Numbers {
    /// How many accesses of enclave code were done.
    pub accesses: u64,

    /// How many frames of 4096 bytes enclaves' pages can have.
    pub frames: u32,

    /// The fewest loads by which those accesses can be served in those frames, none of which holds a page at first.
    pub least: u64,

    /// How many reloads of REG pages were done.
    pub made: u64,
}

/// The numbers on a trace of a job. The entries stand oldest first; any list of entries is taken. A trace begins with pages that were
/// built into frames, and a plan with none, so `made` can be below `least`. The time for n entries grows as n log n, however many
/// frames there are.
pub fn numbers_of(alloc: Global, job: &Job, entries: &[Entry]) -> Result<Numbers, Memory>
    ensures accesses { IfOk result (λ numbers. numbers.accesses ≡ length (accesses_of (reverse entries.now))) }
    ensures frames { IfOk result (λ numbers. numbers.frames ≡ page_frames job.now) }
    ensures least { IfOk result (λ numbers. IsFewest (accesses_of (reverse entries.now)) (page_frames job.now) numbers.least) }
    ensures made { IfOk result (λ numbers. numbers.made ≡ made (reverse entries.now)) }
{
    let made = made(alloc, entries)?;
    let accesses = accesses_of(alloc, entries)?;
    let frames = frames(job);
    Ok(Numbers {
        accesses: accesses.len() as u64,
        frames,
        least: fewest_loads(alloc, &accesses, frames)?,
        made,
    })
}

// The job's frames, but for those of the version array pages and of the enclaves.
fn frames(job: &Job) -> u32
    ensures frames { result ≡ page_frames job.now }
    ensures some { 1 ≤ result }
{
    let enclaves = job.enclaves().len() as u32;
    job.epc() - job.va_pages() - enclaves
}

/// The text on a trace of a job: a line for each of the four numbers. The entries stand oldest first.
pub fn print_least(alloc: Global, job: &Job, entries: &[Entry]) -> Result<Vec<u8>, Memory>
    ensures { IfOk result (λ text. IsLeastText job.now (reverse entries.now) text.items) }
{
    print_numbers(alloc, numbers_of(alloc, job, entries)?)
}

#[tactic(auto, unfolding(crate::specs::Fewest::least_text))]
fn print_numbers(alloc: Global, numbers: Numbers) -> Result<Vec<u8>, Memory>
    ensures { IfOk result (λ text. text.items ≡ least_text numbers.accesses numbers.frames numbers.least numbers.made) }
{
    let mut text = Vec::new(alloc);
    push_line(Name("accesses"), &[Decimal(numbers.accesses)], &mut text)?;
    push_line(Name("frames"), &[Decimal(numbers.frames.into())], &mut text)?;
    push_line(Name("least"), &[Decimal(numbers.least)], &mut text)?;
    push_line(Name("made"), &[Decimal(numbers.made)], &mut text)?;
    Ok(text)
}
