//! The summary of a run of a made job.

ghost use Rattle.page_commands.specs.Summary.{loaded_value, summary_of};
ghost use Rattle.std.specs.List.{sum_by};
ghost use Rattle.std.specs.Prelude.{◌≡◌, ◌≤◌, ◌%◌, ◌^◌, IfOk};

use crate::exchanges::number_of_xadds;
use job_grammar::jobs::Job;
use sgx_rules::entries::{Action, Answer, Entry, Event};
use sgx_types::names::Memory;
use std::alloc::Global;
use text_words::words::Word::{Decimal, Name};
use text_words::words::push_line;

/// The summary of a run of a job that was made of a size, whose entries are given oldest first: its pages and its operations, the sum
/// mod 2^64 of what loads were answered, and how many replies exchanges have, whatever these were. It is a function of the job, since
/// each processor of a made job loads only words that it alone stores (this project's own).
#[tactic(auto, unfolding(crate::specs::Summary::summary_of))]
pub fn print_summary(
    alloc: Global,
    job: &Job,
    size: u32,
    entries: &[Entry],
) -> Result<Vec<u8>, Memory>
    requires { size ≤ 2000 }
    ensures { IfOk result (λ text. text.items ≡ summary_of job.now size entries.now) }
{
    let size = u64::from(size);
    let xadds = number_of_xadds(alloc, job, entries)?;
    let mut text = Vec::new(alloc);
    push_line(Name("pages"), &[Decimal(size + 9)], &mut text)?;
    push_line(Name("operations"), &[Decimal(4 * (size + 2))], &mut text)?;
    push_line(Name("loads"), &[Decimal(sum_of_loads(entries))], &mut text)?;
    push_line(Name("xadds"), &[Decimal(xadds)], &mut text)?;
    Ok(text)
}

#[tactic(auto, using(crate::proofs::SumLaws::sum_more))]
fn sum_of_loads(entries: &[Entry]) -> u64
    ensures { result ≡ sum_by loaded_value entries.now % 2 ^ 64 }
{
    let mut sum: u64 = 0;
    for entry in entries {
        sum = sum.wrapping_add(loaded(entry));
    }
    sum
}

// What a load was answered, and 0 for any other entry.
fn loaded(entry: &Entry) -> u64
    ensures { result ≡ loaded_value entry.now }
{
    match entry.event {
        Event::Did {
            action: Action::Load { .. },
            answer: Answer::Value(value),
        } => value,
        _ => 0,
    }
}
