//! The text of a verdict.

ghost use Rattle.std.specs.Prelude.{◌≡◌, IfOk};
ghost use Rattle.page_commands.specs.VerdictText.{rule_name, verdict_text};

pub use audit_check::verdict::Verdict;
use history_rules::rules::Rule;
use sgx_types::names::Memory;
use std::alloc::Global;
use text_words::words::Word::{Decimal, Name};
use text_words::words::push_line;

/// The line on a verdict: `yes`, or `no` with the place, counted from 0, and the name of the rule that fails there.
#[tactic(auto, unfolding(crate::specs::VerdictText::verdict_text))]
pub fn print_verdict(alloc: Global, verdict: Verdict) -> Result<Vec<u8>, Memory>
    ensures { IfOk result (λ text. text.items ≡ verdict_text verdict) }
{
    let mut text = Vec::new(alloc);
    match verdict {
        Verdict::Yes => push_line(Name("yes"), &[], &mut text)?,
        Verdict::No { place, rule } => push_line(
            Name("no"),
            &[Decimal(place as u64), Name(rule_name(rule))],
            &mut text,
        )?,
    }
    Ok(text)
}

/// The name by which a rule is told.
pub fn rule_name(rule: Rule) -> &'static str
    ensures { result.now ≡ rule_name rule }
{
    match rule {
        Rule::Script => "Script",
        Rule::Refusal => "Refusal",
        Rule::Flat => "Flat",
        Rule::Fits => "Fits",
        Rule::Stale => "Stale",
        Rule::Evict => "Evict",
        Rule::Fresh => "Fresh",
        Rule::Sealed => "Sealed",
        Rule::Measure => "Measure",
        Rule::Age => "Age",
        Rule::Kick => "Kick",
    }
}
