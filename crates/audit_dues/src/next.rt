//! Whether an event is what is due, where a page that is needed is fetched by its state in the driver's tables.

ghost use Rattle.std.specs.Prelude.{◌≡◌, length, map, option_map, IfSome};
ghost use Rattle.sgx_rules.specs.declared.entries.Event.{Event};
ghost use Rattle.sgx_rules.specs.Frames.{least_free};
ghost use Rattle.script_rules.specs.Script.{action_of};
ghost use Rattle.sgx_machine.specs.inner.Parts.{state_of};
ghost use Rattle.driver_list.specs.inner.Places.{IsPlaced};
ghost use Rattle.driver_rules.specs.Dues as fetches;
ghost use Rattle.driver_rules.specs.inner.Decided.{is_action, is_fetch, is_stop};
ghost use Rattle.due_tables.specs.inner.TcsTurns.{rows};
ghost use Rattle.audit_dues.specs.inner.Next.{CanFetch, built_by, fetch_by, fetch_seen, loads_by, next_by, slot_by, slot_seen};

use crate::same::same_action;
use driver_list::page_states::PageState;
use driver_tables::driver::Driver;
use due_tables::dues::{BuilderDue, CpuDue};
use due_tables::turns::Turns;
use sgx_machine::machine::Machine;
use sgx_rules::entries::{Action, BusWhy, Event};
use sgx_rules::refusals::Refusal;
use sgx_types::names::{Frame, Page, SlotAt, VaSlot};

/// Whether an event is what is due to the builder.
pub(crate) fn is_build_step(due: BuilderDue, event: &Event) -> bool
    ensures { result ≡ built_by due event.now }
{
    match due {
        BuilderDue::Stopped | BuilderDue::Finished | BuilderDue::Waits(_) => false,
        BuilderDue::Makes(action) => is_action(event, &action),
    }
}

/// Whether an event is what is due to a processor.
pub(crate) fn is_next(
    turns: &Turns,
    driver: &Driver,
    machine: &Machine,
    due: CpuDue,
    event: &Event,
) -> bool
    requires { CanFetch driver.now turns.now }
    ensures { result ≡ next_by (fetch_seen driver.now turns.now
        (least_free (state_of machine.now).frames (state_of machine.now).content)) due event.now }
{
    match due {
        CpuDue::Stopped | CpuDue::Finished | CpuDue::Waits(_) => false,
        CpuDue::Ends(frame) => is_action(event, &Action::Eld { frame }),
        CpuDue::Makes(step) => is_action(event, &step.action()),
        CpuDue::Reports { page, why } => is_stop(page, why, event),
        CpuDue::Needs(page) => is_fetch(turns, driver, machine, page, event),
    }
}

// The slot of a page that is outside, also of one whose last put failed.
fn slot(turns: &Turns, driver: &Driver, page: Page) -> Option<VaSlot>
    requires { map length turns.now.tcs ≡ rows driver.now.states.counts }
    ensures value { result ≡ slot_seen driver.now turns.now page }
    ensures placed { IfSome result (λ slot. IsPlaced driver.now.states.counts page) }
{
    if !turns.tcs.has_place(page) {
        return None;
    }
    slot_of(driver.states.state(page))
}

// .. by its state.
fn slot_of(state: PageState) -> Option<VaSlot>
    ensures { result ≡ slot_by state }
{
    match state {
        PageState::Away(slot) | PageState::Lost(slot) => Some(slot),
        _ => None,
    }
}

// An instruction, done or refused.
fn is_action(event: &Event, due: &Action) -> bool
    ensures { result ≡ is_action (action_of event.now) due.now }
{
    match event {
        Event::Did { action, .. } | Event::Refused { action, .. } => same_action(action, due),
        Event::Age { .. } | Event::Kick { .. } | Event::Bus { .. } => false,
    }
}

// An entry that tells why a page did not come back.
fn is_stop(page: Page, why: BusWhy, event: &Event) -> bool
    ensures { result ≡ is_stop page why event.now }
{
    match *event {
        Event::Bus {
            page: told,
            why: reason,
        } => told == page && reason == why,
        _ => false,
    }
}

// What may come of a page that is needed, where it is outside: the page that has to be back first is asked for. While that one is on its
// way out or is being loaded, no more than an earlier put of the page itself that failed is told.
fn is_fetch(turns: &Turns, driver: &Driver, machine: &Machine, page: Page, event: &Event) -> bool
    requires { CanFetch driver.now turns.now }
    ensures { result ≡ fetch_by page (fetch_seen driver.now turns.now
        (least_free (state_of machine.now).frames (state_of machine.now).content) page) event.now }
{
    let Some(out) = slot(turns, driver, page) else {
        return false;
    };
    let target = driver.target(page, out);
    match slot_of(driver.states.state(target)) {
        Some(slot) => is_ask(
            page,
            target,
            driver.slot_here(slot),
            machine.first_free(),
            event,
        ),
        None => is_stop(page, BusWhy::PutFailed, event),
    }
}

// What may come of asking for a record: the load starts, or is refused for its slot, or the page does not come back. Without a free frame
// the record is not asked for; a put that failed before is told all the same.
fn is_ask(
    page: Page,
    target: Page,
    slot: Option<SlotAt>,
    free: Option<Frame>,
    event: &Event,
) -> bool
    ensures { result ≡ is_fetch page (fetches.Asks target slot (option_map (λ f. f.0) free)) event.now }
{
    match event {
        Event::Bus { page: told, why } => match why {
            BusWhy::PutFailed => *told == page || *told == target,
            BusWhy::GetFailed | BusWhy::NoRecord => free.is_some() && *told == target,
            BusWhy::Mac | BusWhy::Header | BusWhy::Slot => false,
        },
        Event::Did { action, .. }
        | Event::Refused {
            action,
            why: Refusal::SlotEmpty,
        } => is_load(action, target, slot, free),
        Event::Refused { .. } | Event::Age { .. } | Event::Kick { .. } => false,
    }
}

// Whether this is the load of a page by its slot into a frame.
fn is_load(action: &Action, page: Page, slot: Option<SlotAt>, free: Option<Frame>) -> bool
    ensures { result ≡ loads_by page slot (option_map (λ f. f.0) free) action.now }
{
    match (slot, free) {
        (Some(slot), Some(frame)) => same_action(action, &Action::EldStart { frame, page, slot }),
        _ => false,
    }
}
