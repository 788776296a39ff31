//! Instructions that are read, each by its name and its operands.

ghost use Rattle.std.specs.Prelude.{◌≡◌, IfSome};
ghost use Rattle.trace_lines.specs.inner.Reading.{Took, action_of, left, operands_in};
ghost use Rattle.trace_text.specs.Fields.{AllFit, action_fields};

use crate::cursor::{Cursor, init, page, slot};
use crate::names::{Row, access, cause, instruction, kind, perm};
use crate::words::{byte, enclave, expect, frame, number, small};
use sgx_rules::entries::Action;

/// What stands behind an instruction's name.
#[tactic(auto, unfolding(crate::specs::inner::Reading::operands_in))]
fn operands(row: Row, words: &mut Cursor) -> Action
    ensures read { operands_in row (left words.old) ≡ (result, left words.new) }
    ensures fits { AllFit (action_fields result) }
{
    match row {
        Row::Epa => Action::Epa {
            frame: frame(words.next()),
        },
        Row::Create => Action::Create {
            enclave: enclave(words.next()),
            frame: frame(words.next()),
            base: number(words.next()),
            size: number(words.next()),
        },
        Row::Add => Action::Add {
            enclave: enclave(words.next()),
            number: small(words.next()),
            frame: frame(words.next()),
            kind: kind(words.next()),
            perm: perm(words.next()),
            init: init(words),
        },
        Row::Extend => Action::Extend {
            frame: frame(words.next()),
            chunk: byte(words.next()),
        },
        Row::Init => Action::Init {
            enclave: enclave(words.next()),
            expect: expect(words.next()),
        },
        Row::Enter => Action::Enter {
            enclave: enclave(words.next()),
            tcs: small(words.next()),
            tcs_frame: frame(words.next()),
            ssa_frame: frame(words.next()),
        },
        Row::Resume => Action::Resume {
            enclave: enclave(words.next()),
            tcs: small(words.next()),
            tcs_frame: frame(words.next()),
            ssa_frame: frame(words.next()),
        },
        Row::Exit => Action::Exit,
        Row::Aex => Action::Aex {
            cause: cause(words.next()),
        },
        Row::Fill => Action::Fill {
            number: small(words.next()),
            frame: frame(words.next()),
        },
        Row::Load => Action::Load {
            off: number(words.next()),
        },
        Row::Store => Action::Store {
            off: number(words.next()),
            value: number(words.next()),
        },
        Row::Xadd => Action::Xadd {
            off: number(words.next()),
            value: number(words.next()),
        },
        Row::Set => Action::Set {
            value: number(words.next()),
        },
        Row::Plus => Action::Plus {
            value: number(words.next()),
        },
        Row::Pf => Action::Pf {
            op: access(words.next()),
            off: number(words.next()),
        },
        Row::OutLoad => Action::OutLoad {
            enclave: enclave(words.next()),
            off: number(words.next()),
        },
        Row::OutStore => Action::OutStore {
            enclave: enclave(words.next()),
            off: number(words.next()),
            value: number(words.next()),
        },
        Row::Block => Action::Block {
            frame: frame(words.next()),
        },
        Row::Track => Action::Track {
            enclave: enclave(words.next()),
        },
        Row::EwbStart => Action::EwbStart {
            frame: frame(words.next()),
            slot: slot(words),
        },
        Row::Ewb => Action::Ewb {
            frame: frame(words.next()),
        },
        Row::EldStart => Action::EldStart {
            frame: frame(words.next()),
            page: page(words),
            slot: slot(words),
        },
        Row::Eld => Action::Eld {
            frame: frame(words.next()),
        },
    }
}

/// The instruction of a name, with its operands.
#[tactic(auto, unfolding(crate::specs::inner::Reading::action_of))]
pub(crate) fn action(name: &[u8], words: &mut Cursor) -> Option<Action>
    ensures read { Took result (left words.new) (action_of name.now (left words.old)) }
    ensures fits { IfSome result (λ action. AllFit (action_fields action)) }
{
    Some(operands(instruction(name)?, words))
}
