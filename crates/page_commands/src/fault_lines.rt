//! The line on what is wrong with a job.

ghost use Rattle.std.specs.Prelude.{◌≡◌, ◌++◌, codes, IfOk, OnOk};
ghost use Rattle.std.specs.Fmt.{decimal};
ghost use Rattle.page_commands.specs.Runs.{job_fault_line, kind_text};

use job_lines::kinds::JobKind;
use job_text::refusals::Fault;
use sgx_types::names::Memory;
use std::alloc::Global;
use text_words::words::Word::{Decimal, Name};
use text_words::words::push_word;

/// The line on the first fault of a job. Line 0 is the whole text.
pub fn print_fault(alloc: Global, fault: Fault) -> Result<Vec<u8>, Memory>
    ensures { IfOk result (λ text. text.items ≡ job_fault_line fault) }
{
    let mut text = Vec::new(alloc);
    push_word(Name("job line "), &mut text)?;
    push_word(Decimal(fault.line.into()), &mut text)?;
    push_word(Name(": "), &mut text)?;
    push_kind(fault.kind, &mut text)?;
    text.push(b'\n')?;
    Ok(text)
}

fn push_kind(kind: JobKind, onto: &mut Vec<u8>) -> Result<(), Memory>
    ensures { OnOk result (onto.new.items ≡ onto.old.items ++ kind_text kind) }
{
    match kind {
        JobKind::NotUtf8 => push_word(Name("NotUtf8"), onto),
        JobKind::Word => push_word(Name("Word"), onto),
        JobKind::Number => push_word(Name("Number"), onto),
        JobKind::Order => push_word(Name("Order"), onto),
        JobKind::Twice => push_word(Name("Twice"), onto),
        JobKind::Range => push_word(Name("Range"), onto),
        JobKind::TooMany => push_word(Name("TooMany"), onto),
        JobKind::Missing => push_word(Name("Missing"), onto),
        JobKind::TcsShared => push_word(Name("TcsShared"), onto),
        JobKind::EpcTooSmall { needed } => push_needed(needed, onto),
        JobKind::TooLong => push_word(Name("TooLong"), onto),
    }
}

fn push_needed(needed: u32, onto: &mut Vec<u8>) -> Result<(), Memory>
    ensures { OnOk result (onto.new.items ≡ onto.old.items ++ codes "EpcTooSmall " ++ decimal needed) }
{
    push_word(Name("EpcTooSmall "), onto)?;
    push_word(Decimal(needed.into()), onto)?;
    Ok(())
}
