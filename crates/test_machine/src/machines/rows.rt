//! What a table's row asks of the machine, and what it answers.

use super::instructions::Instruction;
use cached_translations::processor::Mode;
use sgx_rules::entries::{AccessOp, Answer};
use sgx_rules::refusals::Refusal;
use sgx_types::layouts::TcsFields;
use sgx_types::names::{Actor, Cpu, Frame, Perm};

pub const BUILDER: Actor = Actor::Builder;

pub const FIRST: Actor = Actor::Cpu(Cpu(0));

pub const SECOND: Actor = Actor::Cpu(Cpu(1));

pub const RECLAIMER: Actor = Actor::Reclaimer;

pub const DONE: Result<Answer, Refusal> = Ok(Answer::Plain);

pub const NONE: Perm = Perm::NONE;

pub const READ: Perm = Perm {
    r: true,
    w: false,
    x: false,
};

pub const WRITE: Perm = Perm {
    r: false,
    w: true,
    x: false,
};

pub const READ_WRITE: Perm = Perm {
    r: true,
    w: true,
    x: false,
};

pub const READ_EXECUTE: Perm = Perm {
    r: true,
    w: false,
    x: true,
};

// One line of a test.
#[derive(Clone, Copy)]
pub enum Row {
    // An instruction, and what it has to answer.
    Step(Actor, Instruction, Result<Answer, Refusal>),
    // The end of the write-out of a frame, whose record is kept for an EndIn.
    EndOut(u32, Answer),
    // .. with sealed work of which one byte is not the page's.
    EndOutOther(u32, Answer),
    // The record that is kept and the one beside it change places.
    Swap,
    // The end of the load of a frame, with the record that was kept.
    EndIn(u32, Result<Answer, Refusal>),
    // The reclaimer kicks a processor: the machine is what it was.
    Kick(u8),
    // What the machine has to tell of itself.
    Tells(Reader, Told),
    // The REG pages from a number to below another are added, page n in frame n + 1, each of one word's copies.
    AddEach(u32, u32, u64),
    // The first processor misses each of these pages, fills in its translation from frame n + 1, and loads the word.
    TouchEach(u32, u32, u64),
}

// What the machine is asked of itself.
#[derive(Clone, Copy)]
pub enum Reader {
    Frames,
    Cpus,
    FirstFree,
    FreeCount,
    // The fields of the TCS page in a frame.
    Fields(u32),
    // Outside, or inside an enclave.
    Stands(u8),
    // Whether a processor holds a translation of a page, by its number.
    Holds(u8, u32),
    // How many processors are inside an enclave with an epoch at or below one.
    Older(u16, u64),
    IsInit(u16),
    // How many pages of an enclave are resident.
    Children(u16),
    // Whether a slot of the version array page in a frame is in use.
    AnyBusy(u32),
    // How many version array pages were made, and whether one of a number is in a frame.
    Arrays,
    HasArray(u32),
    // Whether the load into a frame may end.
    CanBring(u32),
    // Whether an access of a page can succeed, by the enclave and the number of the page.
    Lawful(u16, u32, AccessOp),
}

#[derive(Clone, Copy, Debug, PartialEq)]
pub enum Told {
    Count(u32),
    Free(Option<Frame>),
    Tcs(Option<TcsFields>),
    Mode(Mode),
    Is(bool),
}
