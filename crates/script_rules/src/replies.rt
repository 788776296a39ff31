//! Which entries answer operations of a script.

ghost use Rattle.std.specs.Prelude.{◌≡◌};
ghost use Rattle.script_rules.specs.Script.{is_reply, is_reply_action};

use sgx_rules::entries::{Action, Cause, Event};

/// Whether an entry answers an operation of a script. A resumption answers one where the processor was not interrupted.
pub fn is_reply(interrupted: bool, event: &Event) -> bool
    ensures { result ≡ is_reply interrupted event.now }
{
    match event {
        Event::Did { action, .. } | Event::Refused { action, .. } => {
            is_reply_action(interrupted, action)
        }
        Event::Bus { .. } => true,
        Event::Age { .. } | Event::Kick { .. } => false,
    }
}

fn is_reply_action(interrupted: bool, action: &Action) -> bool
    ensures { result ≡ is_reply_action interrupted action.now }
{
    match action {
        Action::Resume { .. } => !interrupted,
        Action::Enter { .. }
        | Action::Exit
        | Action::Aex {
            cause: Cause::Timer,
        }
        | Action::Load { .. }
        | Action::Store { .. }
        | Action::Xadd { .. }
        | Action::Set { .. }
        | Action::Plus { .. }
        | Action::Pf { .. }
        | Action::OutLoad { .. }
        | Action::OutStore { .. } => true,
        _ => false,
    }
}
