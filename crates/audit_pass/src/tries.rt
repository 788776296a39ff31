//! What may stand within the tries of a page.

ghost use Rattle.std.specs.Prelude.{◌≡◌};
ghost use Rattle.driver_rules.specs.inner.Decided.{is_end, is_last_try, is_look_ahead, is_track_of, is_try};
ghost use Rattle.std.specs.Option.{option_map};
ghost use Rattle.driver_pass.specs.inner.Viewed.{number_of};
ghost use Rattle.audit_pass.specs.inner.Told.{in_frame, in_tries, is_end_of, is_kick_or_try, is_start_of, kick_is};

use sgx_rules::entries::{Action, Event, Look};
use sgx_rules::refusals::Refusal;
use sgx_types::names::{Cpu, Frame, Page};

/// Whether an event may stand within the tries of the page that leaves a frame: a try of that frame and its end, a track, a kick.
pub(crate) fn is_in_tries(frame: Frame, event: Event) -> bool
    ensures { result ≡ in_tries frame event }
{
    match event {
        Event::Did { action, .. } => is_in_frame(frame, action),
        Event::Refused { action, .. } => is_in_frame(frame, action),
        Event::Kick { .. } => true,
        _ => false,
    }
}

fn is_in_frame(frame: Frame, action: Action) -> bool
    ensures { result ≡ in_frame frame action }
{
    match action {
        Action::EwbStart { frame: other, .. } => frame.0 == other.0,
        Action::Ewb { frame: other } => frame.0 == other.0,
        Action::Track { .. } => true,
        _ => false,
    }
}

/// Whether an event is a start of a write-out, or the refusal at which a run ends, or one since the slot is in use.
pub(crate) fn is_last_try(event: Event) -> bool
    ensures { result ≡ is_last_try event }
{
    match event {
        Event::Did {
            action: Action::EwbStart { .. },
            ..
        } => true,
        Event::Refused {
            action: Action::EwbStart { .. },
            why: Refusal::VersionSpent | Refusal::SlotOccupied { .. },
        } => true,
        _ => false,
    }
}

/// Whether an event is a start of a write-out, or the refusal of one: for want of a track or of a version, or since the slot is in use.
pub(crate) fn is_try(event: Event) -> bool
    ensures { result ≡ is_try event }
{
    match event {
        Event::Refused {
            action: Action::EwbStart { .. },
            why: Refusal::NotTracked { .. },
        } => true,
        _ => is_last_try(event),
    }
}

/// Whether an event is a track of an enclave, or the refusal of one at which a run ends.
pub(crate) fn is_track_of(enclave: u16, event: Event) -> bool
    ensures { result ≡ is_track_of enclave event }
{
    match event {
        Event::Did {
            action: Action::Track { enclave: other },
            ..
        } => other == enclave,
        Event::Refused {
            action: Action::Track { enclave: other },
            why: Refusal::EpochSpent,
        } => other == enclave,
        _ => false,
    }
}

/// Whether an event is the kick that is due.
pub(crate) fn is_kick_of(due: Option<Cpu>, event: Event) -> bool
    ensures { result ≡ kick_is (option_map number_of due) event }
{
    match (due, event) {
        (Some(due), Event::Kick { cpu }) => cpu.0 == due.0,
        _ => false,
    }
}

/// Whether an event is the first kick, or the last try where nobody is to be kicked.
pub(crate) fn is_kick_or_try(due: Option<Cpu>, event: Event) -> bool
    ensures { result ≡ is_kick_or_try (option_map number_of due) event }
{
    match due {
        Some(_) => is_kick_of(due, event),
        None => is_last_try(event),
    }
}

/// Whether an event is the end of a write-out.
pub(crate) fn is_end(event: Event) -> bool
    ensures { result ≡ is_end event }
{
    matches!(
        event,
        Event::Did {
            action: Action::Ewb { .. },
            ..
        }
    )
}

/// Whether an event is a look at a page that is due besides: it was taken, or the store had no room for its record.
pub(crate) fn is_look_ahead(page: Page, event: Event) -> bool
    ensures { result ≡ is_look_ahead page event }
{
    match event {
        Event::Age {
            page: other,
            look: Look::NoRoom | Look::Taken,
        } => other == page,
        _ => false,
    }
}

/// Whether an event is the start of the write-out of the page in a frame, or the refusal at which a run ends.
pub(crate) fn is_start_of(frame: Frame, event: Event) -> bool
    ensures { result ≡ is_start_of frame event }
{
    match event {
        Event::Did {
            action: Action::EwbStart { frame: other, .. },
            ..
        } => frame.0 == other.0,
        Event::Refused {
            action: Action::EwbStart { frame: other, .. },
            why: Refusal::VersionSpent,
        } => frame.0 == other.0,
        _ => false,
    }
}

/// Whether an event is the end of the write-out of the page in a frame.
pub(crate) fn is_end_of(frame: Frame, event: Event) -> bool
    ensures { result ≡ is_end_of frame event }
{
    match event {
        Event::Did {
            action: Action::Ewb { frame: other },
            ..
        } => frame.0 == other.0,
        _ => false,
    }
}
