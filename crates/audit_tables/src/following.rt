//! Tells an entry of a trace to the driver's tables.

ghost use Rattle.std.specs.Prelude.{◌≡◌};
ghost use Rattle.audit_tables.specs.inner.Followed.{TablesCanFollow, IsFollowed};
ghost use Rattle.audit_tables.specs.inner.Following.{DoesEvent, DoesMove, FitsBegun, FitsEnded, FitsEvent, FitsGone, FitsMove};
ghost use Rattle.audit_tables.specs.inner.Following.{FitsRefused};
ghost use Rattle.audit_tables.specs.inner.Following.{FitsLook, FitsStarted, HasEnded, HasLooked, HasStarted, is_plain_event, with_begun};
ghost use Rattle.audit_tables.specs.inner.Following.{with_gone, with_refused};

use cached_translations::processor::Mode;
use driver_tables::driver::Driver;
use driver_tables::moves::is_own_page;
use due_notes::notes::note_tables;
use due_tables::turns::Turns;
use sgx_machine::starts::Start;
use sgx_rules::entries::{Action, Answer, Entry, Event, Look};
use sgx_types::names::{Actor, Frame, Page};
use sgx_types::record::Record;

/// Brings the driver's tables to an entry of a trace, which keeps each rule with it. `before` is how the entry's processor stood before it,
/// and `start` the open start that it ends, or that it has opened. `rec` is kept for a load that starts: of it the rules say nothing. The
/// holds, and the tables of what is due, are told the entry afterwards. Constant time.
pub fn follow(
    turns: &Turns,
    driver: &mut Driver,
    before: Mode,
    start: Option<Start>,
    rec: &Record,
    entry: &Entry,
)
    requires { TablesCanFollow turns.now driver.old before start entry.now }
    ensures { (can : TablesCanFollow turns.now driver.old before start entry.now)
        → IsFollowed can.j can.past driver.old entry.now driver.new }
{
    if is_plain(&entry.event) {
        note_tables(turns, driver, 0, before, entry);
    } else {
        follow_event(driver, start, rec, entry.actor, &entry.event);
    }
}

// An instruction that moves no page out or back, done or refused.
fn is_plain(event: &Event) -> bool
    ensures { result ≡ is_plain_event event.now }
{
    match event {
        Event::Did { action, .. } | Event::Refused { action, .. } => !matches!(
            action,
            Action::Block { .. }
                | Action::Track { .. }
                | Action::EwbStart { .. }
                | Action::Ewb { .. }
                | Action::EldStart { .. }
                | Action::Eld { .. }
        ),
        _ => false,
    }
}

// Any other entry.
fn follow_event(
    driver: &mut Driver,
    start: Option<Start>,
    rec: &Record,
    actor: Actor,
    event: &Event,
)
    requires { FitsEvent start actor event.now driver.old }
    ensures { DoesEvent start rec.now actor event.now driver.old driver.new }
{
    match *event {
        Event::Age { page, look } => note_look(driver, page, look),
        Event::Did { action, answer } => follow_done(driver, start, rec, actor, action, answer),
        Event::Refused {
            action: Action::Eld { .. },
            ..
        } => refuse_load(driver, actor, start),
        _ => {}
    }
}

// An instruction was done.
fn follow_done(
    driver: &mut Driver,
    start: Option<Start>,
    rec: &Record,
    actor: Actor,
    action: Action,
    answer: Answer,
)
    requires { FitsMove start actor action answer driver.old }
    ensures { DoesMove start rec.now actor action answer driver.old driver.new }
{
    match action {
        Action::EwbStart { .. } => note_start(driver, start),
        Action::Ewb { .. } => note_gone(driver, start, answer),
        Action::EldStart { frame, page, .. } => begin_load(driver, actor, frame, page, start, rec),
        Action::Eld { frame } => end_load(driver, actor, frame, start, answer),
        _ => {}
    }
}

// A page was looked at: a TCS or REG page at the head of the list, or another one, which is in none.
fn note_look(driver: &mut Driver, page: Page, look: Look)
    requires { FitsLook driver.old page }
    ensures { HasLooked driver.old page look driver.new }
{
    if is_own_page(page) {
        driver.look(page, look);
    } else {
        driver.look_aside(page, look);
    }
}

// A write-out started into a slot, which is out from then on.
fn note_start(driver: &mut Driver, start: Option<Start>)
    requires { FitsStarted start driver.old }
    ensures { HasStarted start driver.old driver.new }
{
    if let Some(start) = start {
        driver.slots.take_at(start.slot);
    }
}

// A page has gone out into the slot of the start that ended.
fn note_gone(driver: &mut Driver, start: Option<Start>, answer: Answer)
    requires { FitsGone start answer driver.old }
    ensures { driver.new ≡ with_gone start answer driver.old }
{
    if let (Some(start), Answer::Moved { page, .. }) = (start, answer) {
        driver.evict(page, start.slot, false);
    }
}

// A load started: its record is kept for the processor.
fn begin_load(
    driver: &mut Driver,
    actor: Actor,
    frame: Frame,
    page: Page,
    start: Option<Start>,
    rec: &Record,
)
    requires { FitsBegun actor page driver.old }
    ensures { driver.new ≡ with_begun actor frame page start rec.now driver.old }
{
    if let (Actor::Cpu(cpu), Some(start)) = (actor, start) {
        driver.start_load(cpu, page, start.slot, frame, rec);
    }
}

// A load has ended: its page is here again.
fn end_load(driver: &mut Driver, actor: Actor, frame: Frame, start: Option<Start>, answer: Answer)
    requires { FitsEnded actor start answer driver.old }
    ensures { HasEnded actor frame start answer driver.old driver.new }
{
    if let (Actor::Cpu(cpu), Some(start), Answer::Moved { page, .. }) = (actor, start, answer) {
        driver.kept.forget(cpu);
        if is_own_page(page) {
            driver.load(page, frame, start.slot);
        } else {
            driver.arrive(page, frame);
            driver.slots.give(start.slot);
        }
    }
}

// A load was refused: its page is away again.
fn refuse_load(driver: &mut Driver, actor: Actor, start: Option<Start>)
    requires { FitsRefused actor start driver.old }
    ensures { driver.new ≡ with_refused actor start driver.old }
{
    if let (
        Actor::Cpu(cpu),
        Some(
            Start {
                loads: Some(page),
                ..
            },
        ),
    ) = (actor, start)
    {
        driver.kept.forget(cpu);
        driver.load_refused(page);
    }
}
