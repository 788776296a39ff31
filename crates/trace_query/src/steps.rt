//! What an entry is to the caches of processors.

ghost use Rattle.std.specs.Prelude.{◌≡◌};
ghost use Rattle.sgx_rules.specs.declared.entries.Answer.{Answer};
ghost use Rattle.sgx_rules.specs.declared.entries.Event.TheVariants.{Did};
ghost use Rattle.trace_query.specs.inner.Sights.{step_by, step_of};

use sgx_rules::entries::{Action, Entry, Event};
use sgx_types::names::Actor;

/// A processor goes into an enclave, or out of all, and then caches nothing; or it fills a translation.
#[derive(Clone, Copy)]
pub(crate) enum Step {
    Turns { cpu: u8, to: Option<u16> },
    Fills { cpu: u8, number: u32 },
}

/// The step that an entry is, None where it is none.
pub(crate) fn step_by(entry: &Entry) -> Option<Step>
    ensures { result ≡ step_by entry.now.actor entry.now.event }
{
    match (entry.actor, entry.event) {
        (Actor::Cpu(cpu), Event::Did { action, .. }) => step_of(cpu.0, action),
        _ => None,
    }
}

fn step_of(cpu: u8, action: Action) -> Option<Step>
    ensures { (answer : Answer) → result ≡ step_of cpu (Did action answer) }
{
    match action {
        Action::Enter { enclave, .. } | Action::Resume { enclave, .. } => Some(Step::Turns {
            cpu,
            to: Some(enclave),
        }),
        Action::Exit | Action::Aex { .. } => Some(Step::Turns { cpu, to: None }),
        Action::Fill { number, .. } => Some(Step::Fills { cpu, number }),
        _ => None,
    }
}
