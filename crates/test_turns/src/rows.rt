//! Rows: a step, and what is seen behind it.

use sgx_rules::entries::{Action, Answer, Entry, Event};
use sgx_types::names::Actor;

/// A step that is taken on a book. The work of what starts is kept.
#[derive(Clone, Copy)]
pub enum Step {
    /// None.
    Look,

    /// A turn.
    Turn(Actor),

    /// The end of what has started, by the work that was answered first.
    EndByFirst,

    /// .. by the work that was answered again.
    EndByLast,

    /// .. by the first work, with zeros in place of its record's cipher.
    EndOverZeros,

    /// The end of a write-out, by a work that no turn answered.
    EndByNew,

    /// Memory is refused to a worker.
    RefuseMemory,
}

/// What a step answers.
#[derive(Clone, Copy, Debug, PartialEq, Eq)]
pub enum Told {
    /// So many entries were made.
    Made(u32),

    /// The work of what has started, for the first time.
    Started,

    /// .. once more, and whether it is of the same version.
    Again { is_same: bool },

    /// Nothing, since the run was stopped.
    Stopped,

    /// Nothing, or nothing yet.
    Nothing,
}

/// What a step changes of what the book shows.
#[derive(Clone, Copy, Debug, PartialEq, Eq)]
pub enum Change {
    Same,

    /// There are so many entries more.
    Grown(usize),
}

/// What the last entry is.
#[derive(Clone, Copy, Debug, PartialEq, Eq)]
pub enum Last {
    Added,
    OutStarted,
    OutEnded,
    LoadStarted,

    /// The end of a load, and whether its tag is that of the record that the store gave.
    LoadEnded { is_given: bool },
    Other,
}

pub type Seen = (Told, Change, Last);

pub type Row = (Step, Seen);

/// What an entry is, where the store gave a record of this tag.
pub fn last_of(entry: Option<&Entry>, given: Option<[u8; 32]>) -> Last {
    let Some(
        Entry {
            actor,
            event: Event::Did { action, answer },
        },
    ) = entry
    else {
        return Last::Other;
    };
    match (actor, action) {
        (Actor::Builder, Action::Add { .. }) => Last::Added,
        (Actor::Reclaimer, Action::EwbStart { .. }) => Last::OutStarted,
        (Actor::Reclaimer, Action::Ewb { .. }) => Last::OutEnded,
        (Actor::Cpu(_), Action::EldStart { .. }) => Last::LoadStarted,
        (_, Action::Eld { .. }) => Last::LoadEnded {
            is_given: tag_of(answer) == given,
        },
        _ => Last::Other,
    }
}

fn tag_of(answer: &Answer) -> Option<[u8; 32]> {
    match answer {
        Answer::Moved { tag, .. } => Some(*tag),
        _ => None,
    }
}
