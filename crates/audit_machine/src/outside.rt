//! Instructions of processors by who is none of them.

ghost use Rattle.std.specs.Prelude.{◌≡◌, true, Some};
ghost use Rattle.audit_machine.specs.inner.Asked.{Takes};
ghost use Rattle.audit_machine.specs.inner.Outside.{rule_of_done, rule_of_refused};
ghost use Rattle.machine_laws.specs.inner.Steps.{IsNoProcessor, is_of_cpus};
ghost use Rattle.sgx_machine.specs.inner.Parts.{state_of};
ghost use Rattle.script_rules.specs.Script.{action_of};

use crate::forms::has_form;
use crate::same::same_refusal;
use history_rules::rules::Rule;
use sgx_machine::machine::Machine;
use sgx_rules::entries::{Action, Entry, Event};
use sgx_rules::refusals::Refusal;

/// Judges an entry whose instruction is a processor's, where its actor is none: a driver, or a processor past the 16th. No machine makes
/// it: its row is looked at as who is inside no enclave sees it. None where it tells that the instruction was refused as the row says: it
/// keeps each of the processor's rules, and nothing changes. Else the rule that it breaks first: Refusal where it tells otherwise than the
/// row, and else Flat, since flat memory takes such an instruction from processors alone.
pub fn ask_outside(machine: &Machine, entry: &Entry, action: &Action) -> Option<Rule>
    requires own { action_of entry.now.event ≡ Some action.now }
    requires of_cpus { is_of_cpus action.now ≡ true }
    requires nobody { IsNoProcessor entry.now.actor }
    ensures { Takes (state_of machine.now) entry.now (state_of machine.now) result }
{
    machine.note_outsiders();
    match machine.refusal_outside(action) {
        Some(found) => rule_of_refused(found, &entry.event),
        None => Some(rule_of_done(&entry.event)),
    }
}

// The rule that is broken where no case of the row holds: the instruction was refused all the same, or done, with an answer of its row's
// form or not.
fn rule_of_done(event: &Event) -> Rule
    ensures { result ≡ rule_of_done event.now }
{
    match *event {
        Event::Did { action, answer } if has_form(action, answer) => Rule::Flat,
        _ => Rule::Refusal,
    }
}

// The rule that is broken where this is the first case of the row. None where the instruction was refused for it.
fn rule_of_refused(found: Refusal, event: &Event) -> Option<Rule>
    ensures { result ≡ rule_of_refused found event.now }
{
    match *event {
        Event::Refused { why, .. } if same_refusal(why, found) => None,
        _ => Some(Rule::Refusal),
    }
}
