//! Whether an entry keeps the rules Age and Kick.

ghost use Rattle.std.specs.Prelude.{ℕ, ◌≡◌, List};
ghost use Rattle.sgx_rules.specs.declared.entries.Entry.{Entry};
ghost use Rattle.sgx_types.specs.Making.{Making};
ghost use Rattle.job_grammar.specs.Jobs.{JobView};
ghost use Rattle.sgx_machine.specs.inner.Parts.{Parts, state_of};
ghost use Rattle.driver_rules.specs.Spares.{Outs};
ghost use Rattle.driver_rules.specs.inner.Decided.{keeps_age_by, keeps_kick};
ghost use Rattle.driver_laws.specs.inner.Agrees.{Keeping};
ghost use Rattle.driver_tables.specs.declared.driver.Driver.{Driver};
ghost use Rattle.driver_tables.specs.inner.Held.{ShowsHolds};
ghost use Rattle.driver_pass.specs.inner.Dues.{CanBeDue, due_in, HasAllSlots, ShowsOuts};
ghost use Rattle.driver_tables.specs.inner.Tells.{Tells};
ghost use Rattle.driver_pass.specs.inner.Standing.{StandsAt};
ghost use Rattle.audit_pass.specs.inner.Told.{age_told, due_told, in_form, in_pass, is_aside_told, kick_told, of_pass};

use crate::looks::looks_right;
use crate::tries::{
    is_end, is_end_of, is_in_tries, is_kick_of, is_kick_or_try, is_last_try, is_look_ahead,
    is_start_of, is_track_of, is_try,
};
use driver_pass::dues::due;
use driver_pass::keepers::first_keeper;
use driver_pass::pass::Pass;
use driver_pass::stages::{Aside, Form, Stage};
use driver_tables::driver::Driver;
use driver_tables::moves::is_own_page;
use sgx_machine::machine::Machine;
use sgx_rules::entries::{Action, Entry, Event};
use sgx_types::names::Actor;

/// Whether an entry keeps the rule Age: of the reclaimer's entries, that it is of the page that is due, and stands at this place of a pass
/// or beside it; and that a look names the head of the list and tells what is so of it, or names the page that is due besides. It holds by
/// whichever slots the tables count as out.
pub fn keeps_age(pass: &Pass, driver: &Driver, machine: &Machine, entry: &Entry) -> bool
    requires can { CanBeDue driver.now (state_of machine.now) pass.now.behind }
    ensures { (k : Keeping) (made : Making) (j : JobView) (past : List Entry) (out : Outs) → Tells k made j past driver.now machine.now
        → HasAllSlots k → ShowsOuts driver.now.slots past out → ShowsHolds j driver.now.active.own past
        → StandsAt made.first_epoch j past pass.now → result ≡ keeps_age_by j past out entry.now }
{
    is_age_kept(pass, driver, machine, entry)
}

/// Whether an entry keeps the rule Kick: that the tries of a page go on in one of three forms, and that its kicks, of exactly the
/// processors that keep it back, stand next to each other.
pub fn keeps_kick(pass: &Pass, machine: &Machine, entry: &Entry) -> bool
    ensures { (k : Keeping) (made : Making) (j : JobView) (past : List Entry) (d : Driver) → Tells k made j past d machine.now
        → StandsAt made.first_epoch j past pass.now → result ≡ keeps_kick j past entry.now }
{
    is_kick_kept(pass, machine, entry)
}

// ---- Age

fn is_age_kept(pass: &Pass, driver: &Driver, machine: &Machine, entry: &Entry) -> bool
    requires can { CanBeDue driver.now (state_of machine.now) pass.now.behind }
    ensures { result ≡ age_told driver.now (state_of machine.now) pass.now entry.now.actor entry.now.event }
{
    let Actor::Reclaimer = entry.actor else {
        return true;
    };
    match pass.aside() {
        Aside::None => is_due(pass, driver, machine, entry.event),
        Aside::ToGo(one) => is_start_of(one.frame, entry.event),
        Aside::Going(one) => is_end_of(one.frame, entry.event),
    }
}

// Where no page goes out beside the passes: a page that is due comes before what the pass gives.
fn is_due(pass: &Pass, driver: &Driver, machine: &Machine, event: Event) -> bool
    requires can { CanBeDue driver.now (state_of machine.now) pass.now.behind }
    ensures { result ≡ due_told driver.now pass.now event (due_in driver.now (state_of machine.now) pass.now.behind) }
{
    match due(driver, machine, pass.behind()) {
        Some(page) => is_look_ahead(page, event),
        None => is_of_pass(pass, driver, event),
    }
}

fn is_of_pass(pass: &Pass, driver: &Driver, event: Event) -> bool
    ensures { result ≡ of_pass driver.now pass.now event }
{
    looks_right(driver, event) && is_in_pass(pass, event)
}

// Whether an event of the reclaimer stands at this place of a pass.
fn is_in_pass(pass: &Pass, event: Event) -> bool
    ensures { result ≡ in_pass pass.now.taken pass.now.stage event }
{
    match (pass.stage(), event) {
        (Stage::Idle { works }, Event::Age { .. }) => works,
        (Stage::Scan { .. }, Event::Age { .. }) => true,
        (
            Stage::Block { next },
            Event::Did {
                action: Action::Block { frame },
                ..
            },
        ) => match pass.page(next) {
            Some(one) => one.frame.0 == frame.0,
            None => false,
        },
        (Stage::Tries { next, .. }, _) => match pass.page(next) {
            Some(one) => is_in_tries(one.frame, event),
            None => false,
        },
        _ => false,
    }
}

// ---- Kick

// Outside the tries of a page nothing is asked, nor of entries for a page that is due besides.
fn is_kick_kept(pass: &Pass, machine: &Machine, entry: &Entry) -> bool
    ensures { result ≡ kick_told machine.now pass.now entry.now.actor entry.now.event }
{
    let Stage::Tries { next, form } = pass.stage() else {
        return true;
    };
    let Some(one) = pass.page(next) else {
        return true;
    };
    match (entry.actor, form) {
        (Actor::Reclaimer, _) => {
            is_set_aside(pass, entry.event)
                || is_in_form(pass, machine, one.page.enclave, form, entry.event)
        }
        (_, Form::Kicks { .. }) => false,
        _ => true,
    }
}

// Whether an event of the reclaimer is for a page that goes out beside the passes.
fn is_set_aside(pass: &Pass, event: Event) -> bool
    ensures { result ≡ is_aside_told pass.now.aside event }
{
    match (pass.aside(), event) {
        (Aside::None, Event::Age { page, .. }) => !is_own_page(page),
        (Aside::None, _) => false,
        _ => true,
    }
}

// Whether an event of the reclaimer goes on with the tries of a page of an enclave.
fn is_in_form(pass: &Pass, machine: &Machine, enclave: u16, form: Form, event: Event) -> bool
    ensures { result ≡ in_form machine.now pass.now.kicks enclave form event }
{
    match form {
        Form::First => is_try(event),
        Form::Track => is_track_of(enclave, event),
        Form::Second => is_try(event),
        Form::Kick { epoch, .. } => is_kick_or_try(first_keeper(machine, enclave, epoch), event),
        Form::Kicks { next, .. } => is_kick_of(pass.kick_at(next), event),
        Form::Third { .. } => is_last_try(event),
        Form::Sealing => is_end(event),
    }
}
