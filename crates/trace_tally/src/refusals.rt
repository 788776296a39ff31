//! The refusals that stand in a trace, by their kind.

ghost use Rattle.std.specs.Prelude.{◌≡◌, ◌+◌, OnOk};
ghost use Rattle.trace_tally.specs.Tally.{is_of, refusals_with, with_refusal};

use crate::counts::more;
use sgx_rules::entries::{Action, Event};
use sgx_rules::refusals::Refusal;
use sgx_types::names::Memory;
use trace_text::names::{action_name, refusal_name};

/// The refusals of one instruction by one name: the first of them, how many there are, and the place of the first one, which is the number
/// of entries before it (this project's own).
#[derive(Clone, Copy)]
pub struct RefusalCount {
    pub action: Action,
    pub why: Refusal,
    pub count: u64,
    pub place: u64,
}

impl RefusalCount {
    fn is_of(&self, action: &Action, why: &Refusal) -> bool
        ensures { result ≡ is_of self.now action.now why.now }
    {
        action_name(&self.action) == action_name(action)
            && refusal_name(&self.why) == refusal_name(why)
    }
}

/// Takes an event more, which stands at this place. There are at most so many rows as instructions and refusals have names.
pub(crate) fn push_refusal(
    rows: &mut Vec<RefusalCount>,
    event: &Event,
    place: u64,
) -> Result<(), Memory>
    ensures { OnOk result (rows.new.items ≡ refusals_with event.now place rows.old.items) }
{
    match event {
        Event::Refused { action, why } => count(rows, action, why, place),
        _ => Ok(()),
    }
}

fn count(
    rows: &mut Vec<RefusalCount>,
    action: &Action,
    why: &Refusal,
    place: u64,
) -> Result<(), Memory>
    ensures { OnOk result (rows.new.items ≡ with_refusal action.now why.now place rows.old.items) }
{
    for at in 0..rows.len() {
        if rows[at].is_of(action, why) {
            rows[at].count = more(rows[at].count)?;
            return Ok(());
        }
    }
    rows.push(RefusalCount {
        action: *action,
        why: *why,
        count: 1,
        place,
    })?;
    Ok(())
}
