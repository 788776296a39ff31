//! What an entry says of the processor that made it.

ghost use Rattle.std.specs.Prelude.{◌≡◌, ◌<◌, ◌^◌};
ghost use Rattle.driver_rules.specs.Stops.{is_last_refusal, spends};
ghost use Rattle.due_tables.specs.inner.Noting.{broken_after, broken_by, broken_in, exits, failed_by, last_after, page_loaded};
ghost use Rattle.due_tables.specs.inner.Noting.{start_failed, turn_after};

use crate::cpu_turns::{CpuTurn, Interruption, Last};
use cached_translations::processor::Mode;
use script_rules::replies::is_reply;
use sgx_rules::entries::{Action, BusWhy, Cause, Event};
use sgx_rules::refusals::Refusal;
use sgx_types::names::Page;

/// What stands of a processor behind an event of its own, before which it stood so.
pub(crate) fn turn_after(turn: CpuTurn, event: &Event, before: Mode) -> CpuTurn
    requires { turn.replied < 2 ^ 63 }
    ensures { result ≡ turn_after event.now before turn }
{
    let replies = is_reply(turn.interruption.is_some(), event);
    CpuTurn {
        replied: if replies {
            turn.replied + 1
        } else {
            turn.replied
        },
        is_kicked: turn.is_kicked && !exits(event),
        interruption: interruption_after(event, before, turn.interruption),
        last: last_after(event, turn.last),
    }
}

// Whether the processor left its enclave by this event.
fn exits(event: &Event) -> bool
    ensures { result ≡ exits event.now }
{
    matches!(
        event,
        Event::Did {
            action: Action::Exit | Action::Aex { .. },
            ..
        }
    )
}

// The interruption behind an event. Who enters, resumes or exits has none.
fn interruption_after(
    event: &Event,
    before: Mode,
    interruption: Option<Interruption>,
) -> Option<Interruption>
    ensures { result ≡ broken_after event.now before interruption }
{
    let Event::Did { action, .. } = event else {
        return interruption;
    };
    match action {
        Action::Enter { .. } | Action::Resume { .. } | Action::Exit => None,
        Action::Aex { cause } => interrupted_by(*cause, before),
        _ => interruption,
    }
}

// The interruption by an asynchronous exit. A timer and the end of the script are of the script's own.
fn interrupted_by(cause: Cause, before: Mode) -> Option<Interruption>
    ensures { result ≡ broken_by cause before }
{
    match cause {
        Cause::Fault => interrupted_in(before, true),
        Cause::Kick => interrupted_in(before, false),
        Cause::Timer | Cause::End => None,
    }
}

fn interrupted_in(before: Mode, for_page: bool) -> Option<Interruption>
    ensures { result ≡ broken_in before for_page }
{
    match before {
        Mode::Outside => None,
        Mode::Inside { enclave, tcs, .. } => Some(Interruption {
            enclave,
            tcs,
            for_page,
        }),
    }
}

// How an event leaves its processor, which the one before left so.
fn last_after(event: &Event, last: Last) -> Last
    ensures { result ≡ last_after event.now last }
{
    match event {
        Event::Did {
            action: Action::EldStart { frame, page, .. },
            ..
        } => Last::Loads {
            frame: *frame,
            page: *page,
        },
        Event::Refused {
            action: Action::EldStart { page, .. },
            why,
        } => start_failed(*page, why),
        Event::Refused {
            action: Action::Eld { .. },
            why,
        } => failed_by(page_loaded(last), why),
        Event::Bus { .. } => Last::WasEnded,
        _ => Last::Other,
    }
}

fn page_loaded(last: Last) -> Option<Page>
    ensures { result ≡ page_loaded last }
{
    match last {
        Last::Loads { page, .. } => Some(page),
        _ => None,
    }
}

// A refused load of a page. The record was none that was sealed under the page's version, or another page's.
fn failed_by(page: Option<Page>, refusal: &Refusal) -> Last
    ensures { result ≡ failed_by page refusal.now }
{
    let Some(page) = page else {
        return Last::WasEnded;
    };
    match refusal {
        Refusal::MacFail { .. } => Last::Fails {
            page,
            why: BusWhy::Mac,
        },
        Refusal::BadHeader { .. } => Last::Fails {
            page,
            why: BusWhy::Header,
        },
        _ => Last::WasEnded,
    }
}

// A refused start of a load. The slot held no version.
fn start_failed(page: Page, refusal: &Refusal) -> Last
    ensures { result ≡ start_failed page refusal.now }
{
    match refusal {
        Refusal::SlotEmpty => Last::Fails {
            page,
            why: BusWhy::Slot,
        },
        _ => Last::WasEnded,
    }
}

/// Whether the epochs or the versions are used up by this event: the run is stopped then.
pub(crate) fn spends(event: &Event) -> bool
    ensures { result ≡ spends event.now }
{
    match event {
        Event::Refused { why, .. } => is_last_refusal(why),
        _ => false,
    }
}

fn is_last_refusal(why: &Refusal) -> bool
    ensures { result ≡ is_last_refusal why.now }
{
    matches!(why, Refusal::EpochSpent | Refusal::VersionSpent)
}
