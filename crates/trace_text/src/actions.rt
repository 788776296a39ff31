//! The words of instructions, answers and refusals.

ghost use Rattle.std.specs.Prelude.{◌≡◌, ◌+◌, [], ◌∷◌, length};
ghost use Rattle.std.specs.Fmt.{decimal};
ghost use Rattle.text_words.specs.inner.Room.{HasRoom, UsesRoom};
ghost use Rattle.text_words.specs.Words.{enclave_word, hexadecimal};
ghost use Rattle.text_words.specs.inner.Words.{with_words};
ghost use Rattle.trace_text.specs.Fields.{action_fields, init_fields, page_words, words_of_fields};

use crate::edition::Edition;
use crate::names::{access_name, cause_name, kind_name, perms_name};
use crate::room::ACTION_ROOM;
use sgx_rules::entries::{AccessOp, Action, Cause};
use sgx_types::lawful::PageInit;
use sgx_types::names::{Frame, Kind, Memory, Page, Perm, SlotAt};
use text_words::words::Word::{Decimal, Digest, Enclave, Hexadecimal, Name};
use text_words::words::{write_spaced, write_words};

/// Writes an instruction's words: its name, and its operands in their order. Each list of words is made in a function of its own, since a
/// function pays at its entry for those of all its arms.
#[tactic(auto, using(crate::proofs::FieldLaws::add_words, crate::proofs::FieldLaws::init_words))]
pub(crate) fn write_action(edition: Edition, action: &Action, onto: &mut Vec<u8>)
    requires { HasRoom ACTION_ROOM onto.old }
    ensures text { onto.new.items ≡ with_words onto.old.items (words_of_fields edition (action_fields action.now)) }
    ensures room { UsesRoom ACTION_ROOM onto.old onto.new }
{
    match *action {
        Action::Epa { frame } => write_framed("epa", frame, onto),
        Action::Create {
            enclave,
            frame,
            base,
            size,
        } => write_create(enclave, frame, base, size, onto),
        Action::Add {
            enclave,
            number,
            frame,
            kind,
            perm,
            init,
        } => write_add(enclave, number, frame, kind, perm, init, onto),
        Action::Extend { frame, chunk } => write_extend(frame, chunk, onto),
        Action::Init { enclave, expect } => write_init(enclave, expect, onto),
        Action::Enter {
            enclave,
            tcs,
            tcs_frame,
            ssa_frame,
        } => write_entering("enter", enclave, tcs, tcs_frame, ssa_frame, onto),
        Action::Resume {
            enclave,
            tcs,
            tcs_frame,
            ssa_frame,
        } => write_entering("resume", enclave, tcs, tcs_frame, ssa_frame, onto),
        Action::Exit => write_spaced(Name("exit"), onto),
        Action::Aex { cause } => write_aex(cause, onto),
        Action::Fill { number, frame } => write_fill(number, frame, onto),
        Action::Load { off } => write_load(off, onto),
        Action::Store { off, value } => write_update("store", off, value, onto),
        Action::Xadd { off, value } => write_update("xadd", off, value, onto),
        Action::Set { value } => write_valued("set", value, onto),
        Action::Plus { value } => write_valued("plus", value, onto),
        Action::Pf { op, off } => write_pf(op, off, onto),
        Action::OutLoad { enclave, off } => write_outload(enclave, off, onto),
        Action::OutStore {
            enclave,
            off,
            value,
        } => write_outstore(enclave, off, value, onto),
        Action::Block { frame } => write_framed("block", frame, onto),
        Action::Track { enclave } => write_track(enclave, onto),
        Action::EwbStart { frame, slot } => write_ewbstart(frame, slot, onto),
        Action::Ewb { frame } => write_framed("ewb", frame, onto),
        Action::EldStart { frame, page, slot } => write_eldstart(edition, frame, page, slot, onto),
        Action::Eld { frame } => write_framed("eld", frame, onto),
    }
}

/// An instruction with a frame alone.
fn write_framed(name: &'static str, frame: Frame, onto: &mut Vec<u8>)
    requires { HasRoom (length name.now + 300) onto.old }
    ensures text { onto.new.items ≡ with_words onto.old.items (name.now ∷ decimal frame.0 ∷ []) }
    ensures room { UsesRoom (length name.now + 300) onto.old onto.new }
{
    write_words(&[Name(name), frame.into()], onto);
}

/// An instruction with a value alone.
fn write_valued(name: &'static str, value: u64, onto: &mut Vec<u8>)
    requires { HasRoom (length name.now + 300) onto.old }
    ensures text { onto.new.items ≡ with_words onto.old.items (name.now ∷ decimal value ∷ []) }
    ensures room { UsesRoom (length name.now + 300) onto.old onto.new }
{
    write_words(&[Name(name), Decimal(value)], onto);
}

fn write_aex(cause: Cause, onto: &mut Vec<u8>)
    requires { HasRoom ACTION_ROOM onto.old }
    ensures text { onto.new.items ≡ with_words onto.old.items (words_of_fields Edition.Two (action_fields (Action.Aex cause))) }
    ensures room { UsesRoom ACTION_ROOM onto.old onto.new }
{
    write_words(&[Name("aex"), Name(cause_name(cause))], onto);
}

fn write_track(enclave: u16, onto: &mut Vec<u8>)
    requires { HasRoom ACTION_ROOM onto.old }
    ensures text { onto.new.items ≡ with_words onto.old.items (words_of_fields Edition.Two (action_fields (Action.Track enclave))) }
    ensures room { UsesRoom ACTION_ROOM onto.old onto.new }
{
    write_words(&[Name("track"), Enclave(enclave.into())], onto);
}

fn write_create(enclave: u16, frame: Frame, base: u64, size: u64, onto: &mut Vec<u8>)
    requires { HasRoom ACTION_ROOM onto.old }
    ensures text { onto.new.items ≡ with_words onto.old.items
        (words_of_fields Edition.Two (action_fields (Action.Create enclave frame base size))) }
    ensures room { UsesRoom ACTION_ROOM onto.old onto.new }
{
    write_words(
        &[
            Name("create"),
            Enclave(enclave.into()),
            frame.into(),
            Hexadecimal(base),
            Hexadecimal(size),
        ],
        onto,
    );
}

fn write_add(
    enclave: u16,
    number: u32,
    frame: Frame,
    kind: Kind,
    perm: Perm,
    init: PageInit,
    onto: &mut Vec<u8>,
)
    requires { HasRoom ACTION_ROOM onto.old }
    ensures text { onto.new.items ≡ with_words onto.old.items
        (words_of_fields Edition.Two (action_fields (Action.Add enclave number frame kind perm init))) }
    ensures room { UsesRoom ACTION_ROOM onto.old onto.new }
{
    write_words(
        &[
            Name("add"),
            Enclave(enclave.into()),
            Decimal(number.into()),
            frame.into(),
            Name(kind_name(kind)),
            Name(perms_name(perm)),
        ],
        onto,
    );
    write_page_init(init, onto);
}

fn write_page_init(init: PageInit, onto: &mut Vec<u8>)
    requires { HasRoom 150 onto.old }
    ensures text { onto.new.items ≡ with_words onto.old.items (words_of_fields Edition.Two (init_fields init)) }
    ensures room { UsesRoom 150 onto.old onto.new }
{
    match init {
        PageInit::Words(value) => write_words(&[Name("words"), Decimal(value)], onto),
        PageInit::Tcs { ossa, nssa } => write_words(
            &[Name("tcs"), Decimal(ossa.into()), Decimal(nssa.into())],
            onto,
        ),
    }
}

fn write_extend(frame: Frame, chunk: u8, onto: &mut Vec<u8>)
    requires { HasRoom ACTION_ROOM onto.old }
    ensures text { onto.new.items ≡ with_words onto.old.items (words_of_fields Edition.Two (action_fields (Action.Extend frame chunk))) }
    ensures room { UsesRoom ACTION_ROOM onto.old onto.new }
{
    write_words(&[Name("extend"), frame.into(), Decimal(chunk.into())], onto);
}

fn write_init(enclave: u16, expect: Option<[u8; 32]>, onto: &mut Vec<u8>)
    requires { HasRoom ACTION_ROOM onto.old }
    ensures text { onto.new.items ≡ with_words onto.old.items (words_of_fields Edition.Two (action_fields (Action.Init enclave expect))) }
    ensures room { UsesRoom ACTION_ROOM onto.old onto.new }
{
    let expected = match expect {
        None => Name("-"),
        Some(digest) => Digest(digest),
    };
    write_words(&[Name("init"), Enclave(enclave.into()), expected], onto);
}

/// An entry into an enclave, by the first time or again.
fn write_entering(
    name: &'static str,
    enclave: u16,
    tcs: u32,
    tcs_frame: Frame,
    ssa_frame: Frame,
    onto: &mut Vec<u8>,
)
    requires { HasRoom (length name.now + 300) onto.old }
    ensures text { onto.new.items
        ≡ with_words onto.old.items (name.now ∷ enclave_word enclave ∷ decimal tcs ∷ decimal tcs_frame.0 ∷ decimal ssa_frame.0 ∷ []) }
    ensures room { UsesRoom (length name.now + 300) onto.old onto.new }
{
    write_words(
        &[
            Name(name),
            Enclave(enclave.into()),
            Decimal(tcs.into()),
            tcs_frame.into(),
            ssa_frame.into(),
        ],
        onto,
    );
}

// Nearly all lines are accesses and the fills before them, so the words of these are written one by one, with no list of them.
fn write_fill(number: u32, frame: Frame, onto: &mut Vec<u8>)
    requires { HasRoom ACTION_ROOM onto.old }
    ensures text { onto.new.items ≡ with_words onto.old.items (words_of_fields Edition.Two (action_fields (Action.Fill number frame))) }
    ensures room { UsesRoom ACTION_ROOM onto.old onto.new }
{
    write_spaced(Name("fill"), onto);
    write_spaced(Decimal(number.into()), onto);
    write_spaced(frame.into(), onto);
}

fn write_load(off: u64, onto: &mut Vec<u8>)
    requires { HasRoom ACTION_ROOM onto.old }
    ensures text { onto.new.items ≡ with_words onto.old.items (words_of_fields Edition.Two (action_fields (Action.Load off))) }
    ensures room { UsesRoom ACTION_ROOM onto.old onto.new }
{
    write_spaced(Name("load"), onto);
    write_spaced(Hexadecimal(off), onto);
}

#[inline(always)]
fn write_update(name: &'static str, off: u64, value: u64, onto: &mut Vec<u8>)
    requires { HasRoom (length name.now + 300) onto.old }
    ensures text { onto.new.items ≡ with_words onto.old.items (name.now ∷ hexadecimal off ∷ decimal value ∷ []) }
    ensures room { UsesRoom (length name.now + 300) onto.old onto.new }
{
    write_spaced(Name(name), onto);
    write_spaced(Hexadecimal(off), onto);
    write_spaced(Decimal(value), onto);
}

fn write_pf(access: AccessOp, off: u64, onto: &mut Vec<u8>)
    requires { HasRoom ACTION_ROOM onto.old }
    ensures text { onto.new.items ≡ with_words onto.old.items (words_of_fields Edition.Two (action_fields (Action.Pf access off))) }
    ensures room { UsesRoom ACTION_ROOM onto.old onto.new }
{
    write_words(
        &[Name("pf"), Name(access_name(access)), Hexadecimal(off)],
        onto,
    );
}

fn write_outload(enclave: u16, off: u64, onto: &mut Vec<u8>)
    requires { HasRoom ACTION_ROOM onto.old }
    ensures text { onto.new.items ≡ with_words onto.old.items (words_of_fields Edition.Two (action_fields (Action.OutLoad enclave off))) }
    ensures room { UsesRoom ACTION_ROOM onto.old onto.new }
{
    write_words(
        &[Name("outload"), Enclave(enclave.into()), Hexadecimal(off)],
        onto,
    );
}

fn write_outstore(enclave: u16, off: u64, value: u64, onto: &mut Vec<u8>)
    requires { HasRoom ACTION_ROOM onto.old }
    ensures text { onto.new.items
        ≡ with_words onto.old.items (words_of_fields Edition.Two (action_fields (Action.OutStore enclave off value))) }
    ensures room { UsesRoom ACTION_ROOM onto.old onto.new }
{
    write_words(
        &[
            Name("outstore"),
            Enclave(enclave.into()),
            Hexadecimal(off),
            Decimal(value),
        ],
        onto,
    );
}

fn write_ewbstart(frame: Frame, slot: SlotAt, onto: &mut Vec<u8>)
    requires { HasRoom ACTION_ROOM onto.old }
    ensures text { onto.new.items ≡ with_words onto.old.items (words_of_fields Edition.Two (action_fields (Action.EwbStart frame slot))) }
    ensures room { UsesRoom ACTION_ROOM onto.old onto.new }
{
    write_words(
        &[
            Name("ewbstart"),
            frame.into(),
            slot.frame.into(),
            Decimal(slot.index.into()),
        ],
        onto,
    );
}

fn write_eldstart(edition: Edition, frame: Frame, page: Page, slot: SlotAt, onto: &mut Vec<u8>)
    requires { HasRoom ACTION_ROOM onto.old }
    ensures text { onto.new.items ≡ with_words onto.old.items (words_of_fields edition (action_fields (Action.EldStart frame page slot))) }
    ensures room { UsesRoom ACTION_ROOM onto.old onto.new }
{
    write_words(&[Name("eldstart"), frame.into()], onto);
    write_page(edition, page, onto);
    write_words(&[slot.frame.into(), Decimal(slot.index.into())], onto);
}

/// A page, as an edition has it.
pub(crate) fn write_page(edition: Edition, page: Page, onto: &mut Vec<u8>)
    requires { HasRoom 134 onto.old }
    ensures text { onto.new.items ≡ with_words onto.old.items (page_words edition page) }
    ensures room { UsesRoom 134 onto.old onto.new }
{
    match edition {
        Edition::Two if page.enclave == 0 => {
            write_words(&[Name("va"), Decimal(page.number.into())], onto)
        }
        Edition::Two if page.number == u32::MAX && page.enclave < 9 => {
            write_words(&[Enclave(page.enclave.into()), Name("secs")], onto)
        }
        _ => write_words(
            &[Enclave(page.enclave.into()), Decimal(page.number.into())],
            onto,
        ),
    }
}
