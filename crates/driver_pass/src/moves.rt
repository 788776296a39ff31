//! How far a pass is behind an entry.

ghost use Rattle.std.specs.Prelude.{◌≡◌};
ghost use Rattle.driver_pass.specs.inner.Noted.{after_block, after_done, after_instruction, after_kick, after_look, after_page};
ghost use Rattle.driver_pass.specs.inner.Noted.{after_refused, aside_instructed, behind, behind_instructed, not_tracked, occupied};

use crate::stages::{Aside, Behind, Form, Stage};
use sgx_rules::entries::{Action, Answer, Event};
use sgx_rules::refusals::Refusal;

/// Behind a look, with so many looks left and so many pages taken.
pub(crate) fn after_look(left: u32, taken: usize) -> Stage
    ensures { result ≡ after_look left taken }
{
    if left > 0 {
        return Stage::Scan { left };
    }
    if taken > 0 {
        return Stage::Block { next: 0 };
    }
    Stage::Idle { works: true }
}

/// Behind an instruction, done or refused, with so many pages taken.
pub(crate) fn after_instruction(stage: Stage, taken: usize, event: Event) -> Stage
    ensures { result ≡ after_instruction stage taken event }
{
    match event {
        Event::Did { action, .. } => after_done(stage, taken, action),
        Event::Refused { action, why } => after_refused(stage, action, why),
        _ => stage,
    }
}

// Behind one that was done.
fn after_done(stage: Stage, taken: usize, action: Action) -> Stage
    ensures { result ≡ after_done stage taken action }
{
    match (stage, action) {
        (Stage::Block { next }, Action::Block { .. }) => after_block(behind(next, taken)),
        (Stage::Tries { next, .. }, Action::EwbStart { .. }) => Stage::Tries {
            next,
            form: Form::Sealing,
        },
        (Stage::Tries { next, .. }, Action::Track { .. }) => Stage::Tries {
            next,
            form: Form::Second,
        },
        (Stage::Tries { next, .. }, Action::Ewb { .. }) => after_page(behind(next, taken)),
        _ => stage,
    }
}

// Behind one that was refused: a try for want of a track is answered by a track, and then by kicks. Behind one that found its slot in
// use the try is made again, without kicks.
fn after_refused(stage: Stage, action: Action, why: Refusal) -> Stage
    ensures { result ≡ after_refused stage action why }
{
    match (stage, action, why) {
        (Stage::Tries { next, form }, Action::EwbStart { .. }, Refusal::NotTracked { epoch, .. }) =>
            {
                let form = not_tracked(form, epoch);
                Stage::Tries { next, form }
            }
        (Stage::Tries { next, form }, Action::EwbStart { .. }, Refusal::SlotOccupied { .. }) => {
            let form = occupied(form);
            Stage::Tries { next, form }
        }
        _ => stage,
    }
}

fn not_tracked(form: Form, epoch: u64) -> Form
    ensures { result ≡ not_tracked form epoch }
{
    match form {
        Form::First => Form::Track,
        Form::Second => Form::Kick {
            epoch,
            is_made: false,
        },
        _ => form,
    }
}

fn occupied(form: Form) -> Form
    ensures { result ≡ occupied form }
{
    match form {
        Form::Kick { epoch, .. } => Form::Third { epoch },
        _ => form,
    }
}

/// Behind the kick of this place, of so many.
pub(crate) fn after_kick(epoch: u64, place: usize, kicks: usize) -> Form
    ensures { result ≡ after_kick epoch (behind place kicks) }
{
    match behind(place, kicks) {
        Some(next) => Form::Kicks { epoch, next },
        None => Form::Third { epoch },
    }
}

// The next page to block, or the first one to write out.
fn after_block(next: Option<usize>) -> Stage
    ensures { result ≡ after_block next }
{
    match next {
        Some(next) => Stage::Block { next },
        None => Stage::Tries {
            next: 0,
            form: Form::First,
        },
    }
}

// The next page to write out, or the end of the pass, which who works began.
fn after_page(next: Option<usize>) -> Stage
    ensures { result ≡ after_page next }
{
    match next {
        Some(next) => Stage::Tries {
            next,
            form: Form::First,
        },
        None => Stage::Idle { works: true },
    }
}

// The place behind one, None behind the last of so many.
fn behind(place: usize, count: usize) -> Option<usize>
    ensures { result ≡ behind place count }
{
    let next = place.saturating_add(1);
    if next < count { Some(next) } else { None }
}

/// The page beside the passes behind an instruction: its write-out has started, or it has gone out.
pub(crate) fn aside_instructed(aside: Aside, event: Event) -> Aside
    ensures { result ≡ aside_instructed event aside }
{
    match (event, aside) {
        (
            Event::Did {
                action: Action::EwbStart { .. },
                ..
            },
            Aside::ToGo(one),
        ) => Aside::Going(one),
        (
            Event::Did {
                action: Action::Ewb { .. },
                ..
            },
            _,
        ) => Aside::None,
        _ => aside,
    }
}

/// What an instruction tells of the page that is due next.
pub(crate) fn behind_instructed(event: Event) -> Behind
    ensures { result ≡ behind_instructed event }
{
    match event {
        Event::Did {
            action: Action::Ewb { .. },
            answer: Answer::Moved { page, .. },
        } => Behind::Out(page),
        _ => Behind::Nothing,
    }
}
