//! Answers and refusals that are read.

ghost use Rattle.std.specs.Prelude.{◌≡◌, IfSome};
ghost use Rattle.trace_lines.specs.inner.Reading.{Took, answer_in, fielded_of, left, refusal_of};
ghost use Rattle.trace_text.specs.Fields.{AllFit, answer_fields, answer_form, epa_form, form_of, refusal_fields};

use crate::cursor::{Cursor, page};
use crate::names::{bare, fault};
use crate::words::{number, small, tag};
use sgx_rules::entries::{Action, Answer};
use sgx_rules::refusals::Refusal;
use trace_text::edition::Edition;

/// What a done instruction answered, in the form that it answers in.
#[tactic(auto, unfolding(crate::specs::inner::Reading::answer_in))]
pub(crate) fn answer(edition: Edition, action: &Action, words: &mut Cursor) -> Answer
    ensures read { answer_in (form_of edition action.now) (left words.old) ≡ (result, left words.new) }
    ensures fits { AllFit (answer_fields result) }
    ensures form { answer_form result ≡ form_of edition action.now }
{
    match action {
        Action::Epa { .. } => va_number(edition, words),
        Action::Create { .. }
        | Action::Add { .. }
        | Action::Extend { .. }
        | Action::Exit
        | Action::Aex { .. }
        | Action::Fill { .. }
        | Action::Store { .. }
        | Action::Set { .. }
        | Action::OutStore { .. }
        | Action::Block { .. }
        | Action::Track { .. } => Answer::Plain,
        Action::Enter { .. } => Answer::Cssa(small(words.next())),
        Action::Resume { .. }
        | Action::Load { .. }
        | Action::Xadd { .. }
        | Action::Plus { .. }
        | Action::OutLoad { .. } => Answer::Value(number(words.next())),
        Action::Init { .. } => Answer::Hash(tag(words.next())),
        Action::EwbStart { .. } | Action::EldStart { .. } => Answer::Version(number(words.next())),
        Action::Ewb { .. } | Action::Eld { .. } => Answer::Moved {
            page: page(words),
            version: number(words.next()),
            tag: tag(words.next()),
        },
        Action::Pf { .. } => Answer::Pf(fault(words.next())),
    }
}

/// The number of a version array page, where the edition has it.
#[tactic(auto, unfolding(crate::specs::inner::Reading::answer_in))]
fn va_number(edition: Edition, words: &mut Cursor) -> Answer
    ensures read { answer_in (epa_form edition) (left words.old) ≡ (result, left words.new) }
    ensures fits { AllFit (answer_fields result) }
    ensures form { answer_form result ≡ epa_form edition }
{
    match edition {
        Edition::One => Answer::Plain,
        Edition::Two => Answer::Va(small(words.next())),
    }
}

/// The refusal of a name, with its fields.
#[tactic(auto, unfolding(crate::specs::inner::Reading::fielded_of))]
fn fielded(name: &[u8], words: &mut Cursor) -> Option<Refusal>
    ensures read { Took result (left words.new) (fielded_of name.now (left words.old)) }
    ensures fits { IfSome result (λ refusal. AllFit (refusal_fields refusal)) }
{
    if name == b"PrevTrk".as_slice() {
        Some(Refusal::PrevTrk {
            older: small(words.next()),
        })
    } else if name == b"NotTracked".as_slice() {
        Some(Refusal::NotTracked {
            epoch: number(words.next()),
            older: small(words.next()),
        })
    } else if name == b"SlotOccupied".as_slice() {
        Some(Refusal::SlotOccupied {
            version: number(words.next()),
        })
    } else if name == b"MacFail".as_slice() {
        Some(Refusal::MacFail {
            given: tag(words.next()),
            computed: tag(words.next()),
        })
    } else if name == b"BadHeader".as_slice() {
        Some(Refusal::BadHeader {
            enclave: number(words.next()),
            address: number(words.next()),
            flags: number(words.next()),
        })
    } else if name == b"ChildPresent".as_slice() {
        Some(Refusal::ChildPresent {
            count: small(words.next()),
        })
    } else if name == b"BadMeasure".as_slice() {
        Some(Refusal::BadMeasure {
            made: tag(words.next()),
        })
    } else {
        None
    }
}

/// A refusal's name and its fields.
#[tactic(auto, unfolding(crate::specs::inner::Reading::refusal_of))]
pub(crate) fn refusal(words: &mut Cursor) -> Option<Refusal>
    ensures read { Took result (left words.new) (refusal_of (left words.old)) }
    ensures fits { IfSome result (λ refusal. AllFit (refusal_fields refusal)) }
{
    let name = words.next();
    match bare(name) {
        Some(refusal) => Some(refusal),
        None => fielded(name, words),
    }
}
