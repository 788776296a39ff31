//! Which rule an entry breaks first, where the machine made another one of the same instruction.

ghost use Rattle.std.specs.Prelude.{◌≡◌, Some, List};
ghost use Rattle.sgx_rules.specs.declared.entries.Entry.{Entry};
ghost use Rattle.job_grammar.specs.Jobs.{JobView};
ghost use Rattle.history_rules.specs.inner.Histories.{is_machines};
ghost use Rattle.history_machine.specs.Histories.{FailsAmong};
ghost use Rattle.audit_machine.specs.inner.Rivals.{AreRivals, KeepsMachines, rule_back, rule_of, rule_of_allowed, rule_of_answer};
ghost use Rattle.audit_machine.specs.inner.Rivals.{rule_of_denied, rule_of_done, rule_of_formed, rule_of_reasons, rule_out};

use crate::forms::has_form;
use history_rules::rules::Rule;
use sgx_rules::entries::{Action, Answer, Entry, Event};
use sgx_rules::refusals::Refusal;

/// The first of the processor's rules that an entry breaks, where the machine made another entry of the same instruction there: of the
/// rules that the entry and this one differ in, the first in the order in which rules are named.
pub fn first_broken(entry: &Entry, made: &Entry) -> Rule
    ensures { (j : JobView) (past : List Entry) → AreRivals entry.now made.now → KeepsMachines j past made.now
        → FailsAmong is_machines j past (Some entry.now) result }
{
    rule_of(&entry.event, &made.event)
}

fn rule_of(event: &Event, made: &Event) -> Rule
    ensures { result ≡ rule_of event.now made.now }
{
    match (*event, *made) {
        (Event::Did { action, answer }, Event::Did { answer: right, .. }) => rule_of_done(
            action, answer, right,
        ),
        (Event::Did { action, answer }, Event::Refused { why, .. }) => rule_of_allowed(
            action, answer, why,
        ),
        (Event::Refused { action, why }, Event::Did { .. }) => rule_of_denied(action, why),
        (Event::Refused { action, why }, Event::Refused { why: found, .. }) => rule_of_reasons(
            action, why, found,
        ),
        _ => Rule::Refusal,
    }
}

// Both are done, with other answers.
fn rule_of_done(action: Action, answer: Answer, right: Answer) -> Rule
    ensures { result ≡ rule_of_done action answer right }
{
    match action {
        Action::Ewb { .. } => rule_out(answer, right),
        Action::Eld { .. } => rule_back(answer, right),
        _ => rule_of_answer(action, answer),
    }
}

// Both are done, and their instruction is not the end of a write-out or of a load.
fn rule_of_answer(action: Action, answer: Answer) -> Rule
    ensures { result ≡ rule_of_answer action answer }
{
    if has_form(action, answer) {
        rule_of_formed(action)
    } else {
        Rule::Refusal
    }
}

// An answer of the right form is another one than flat memory's, but that of an `init` is the measurement's, and that of a start of EWB
// the version that is due.
fn rule_of_formed(action: Action) -> Rule
    ensures { result ≡ rule_of_formed action }
{
    match action {
        Action::Init { .. } => Rule::Measure,
        Action::EwbStart { .. } => Rule::Fresh,
        _ => Rule::Flat,
    }
}

// Two ends of one write-out.
fn rule_out(answer: Answer, right: Answer) -> Rule
    ensures { result ≡ rule_out answer right }
{
    let (
        Answer::Moved { page, version, .. },
        Answer::Moved {
            page: g,
            version: v,
            ..
        },
    ) = (answer, right)
    else {
        return Rule::Refusal;
    };
    if page != g {
        return Rule::Refusal;
    }
    if version == v {
        Rule::Sealed
    } else {
        Rule::Evict
    }
}

// Two ends of one load.
fn rule_back(answer: Answer, right: Answer) -> Rule
    ensures { result ≡ rule_back answer right }
{
    let (Answer::Moved { page, .. }, Answer::Moved { page: g, .. }) = (answer, right) else {
        return Rule::Refusal;
    };
    if page == g {
        Rule::Fresh
    } else {
        Rule::Refusal
    }
}

// It was done where the machine refused.
fn rule_of_allowed(action: Action, answer: Answer, found: Refusal) -> Rule
    ensures { result ≡ rule_of_allowed action answer found }
{
    match (action, answer, found) {
        (Action::Init { .. }, Answer::Hash(_), Refusal::BadMeasure { .. }) => Rule::Measure,
        _ => Rule::Refusal,
    }
}

// It was refused where the machine did it.
fn rule_of_denied(action: Action, why: Refusal) -> Rule
    ensures { result ≡ rule_of_denied action why }
{
    match (action, why) {
        (Action::Init { .. }, Refusal::BadMeasure { .. }) => Rule::Measure,
        _ => Rule::Refusal,
    }
}

// It was refused for another reason.
fn rule_of_reasons(action: Action, why: Refusal, found: Refusal) -> Rule
    ensures { result ≡ rule_of_reasons action why found }
{
    match (action, why, found) {
        (Action::Init { .. }, Refusal::BadMeasure { .. }, Refusal::BadMeasure { .. }) =>
            Rule::Measure,
        _ => Rule::Refusal,
    }
}
