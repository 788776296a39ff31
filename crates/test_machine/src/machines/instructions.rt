//! Instructions by what tells them apart in these tests.

use super::rows::{NONE, READ_WRITE};
use sgx_rules::entries::{AccessOp, Action, Cause};
use sgx_types::lawful::PageInit;
use sgx_types::names::{Frame, Kind, Page, Perm, SlotAt};

// An instruction by what tells it from the others of these tests, in the order of its fields. Where no enclave is named it is
// enclave 1 of 16 pages at 0x10000, and its TCS page is page 0, whose one state save frame is page 1.
#[derive(Clone, Copy)]
pub enum Instruction {
    Epa(u32),
    Create(u32),
    CreateSized(u32, u64),
    AddTcs(u32),
    AddTcsOf(u32, u32, u32, u32),
    // A REG page that may be read and written.
    AddReg(u32, u32, u64),
    // A page of zeros.
    Add(u32, u32, Kind, Perm),
    AddWords(u32, u32, Kind, Perm, u64),
    Extend(u32, u8),
    Init(Option<[u8; 32]>),
    Enter(u32, u32),
    Resume(u32, u32),
    EnterBy(u32, u32, u32),
    ResumeBy(u32, u32, u32),
    Exit,
    Leave(Cause),
    Fill(u32, u32),
    Load(u64),
    Store(u64, u64),
    Xadd(u64, u64),
    Set(u64),
    Plus(u64),
    Fault(AccessOp, u64),
    OutLoad(u64),
    OutStore(u64, u64),
    Block(u32),
    Track,
    // By a slot of frame 0.
    StartOut(u32, u16),
    // Of a page into a frame, by a slot of frame 0.
    StartIn(u32, u32, u16),
    // By a slot of any frame.
    StartOutBy(u32, u32, u16),
    // Of any page, by a slot of any frame.
    StartInBy(Page, u32, u32, u16),
    // In full.
    Whole(Action),
}

impl Instruction {
    pub fn action(self) -> Action {
        match self {
            Instruction::Epa(frame) => Action::Epa {
                frame: Frame(frame),
            },
            Instruction::Create(frame) => create(frame, 0x10000),
            Instruction::CreateSized(frame, size) => create(frame, size),
            Instruction::AddTcs(frame) => add_tcs(0, frame, 1, 1),
            Instruction::AddTcsOf(number, frame, ossa, nssa) => add_tcs(number, frame, ossa, nssa),
            Instruction::AddReg(number, frame, value) => {
                add(number, frame, Kind::Reg, READ_WRITE, value)
            }
            Instruction::Add(number, frame, kind, perm) => add(number, frame, kind, perm, 0),
            Instruction::AddWords(number, frame, kind, perm, value) => {
                add(number, frame, kind, perm, value)
            }
            Instruction::Extend(frame, chunk) => Action::Extend {
                frame: Frame(frame),
                chunk,
            },
            Instruction::Init(expect) => Action::Init { enclave: 1, expect },
            Instruction::Enter(tcs_frame, ssa_frame) => enter(0, tcs_frame, ssa_frame),
            Instruction::EnterBy(tcs, tcs_frame, ssa_frame) => enter(tcs, tcs_frame, ssa_frame),
            Instruction::Resume(tcs_frame, ssa_frame) => resume(0, tcs_frame, ssa_frame),
            Instruction::ResumeBy(tcs, tcs_frame, ssa_frame) => resume(tcs, tcs_frame, ssa_frame),
            Instruction::Exit => Action::Exit,
            Instruction::Leave(cause) => Action::Aex { cause },
            Instruction::Fill(number, frame) => Action::Fill {
                number,
                frame: Frame(frame),
            },
            Instruction::Load(off) => Action::Load { off },
            Instruction::Store(off, value) => Action::Store { off, value },
            Instruction::Xadd(off, value) => Action::Xadd { off, value },
            Instruction::Set(value) => Action::Set { value },
            Instruction::Plus(value) => Action::Plus { value },
            Instruction::Fault(op, off) => Action::Pf { op, off },
            Instruction::OutLoad(off) => Action::OutLoad { enclave: 1, off },
            Instruction::OutStore(off, value) => Action::OutStore {
                enclave: 1,
                off,
                value,
            },
            Instruction::Block(frame) => Action::Block {
                frame: Frame(frame),
            },
            Instruction::Track => Action::Track { enclave: 1 },
            Instruction::StartOut(frame, index) => Action::EwbStart {
                frame: Frame(frame),
                slot: slot(index),
            },
            Instruction::StartIn(number, frame, index) => Action::EldStart {
                frame: Frame(frame),
                page: Page { enclave: 1, number },
                slot: slot(index),
            },
            Instruction::StartOutBy(frame, array, index) => Action::EwbStart {
                frame: Frame(frame),
                slot: SlotAt {
                    frame: Frame(array),
                    index,
                },
            },
            Instruction::StartInBy(page, frame, array, index) => Action::EldStart {
                frame: Frame(frame),
                page,
                slot: SlotAt {
                    frame: Frame(array),
                    index,
                },
            },
            Instruction::Whole(action) => action,
        }
    }
}

fn create(frame: u32, size: u64) -> Action {
    Action::Create {
        enclave: 1,
        frame: Frame(frame),
        base: 0x10000,
        size,
    }
}

fn add(number: u32, frame: u32, kind: Kind, perm: Perm, value: u64) -> Action {
    Action::Add {
        enclave: 1,
        number,
        frame: Frame(frame),
        kind,
        perm,
        init: PageInit::Words(value),
    }
}

fn add_tcs(number: u32, frame: u32, ossa: u32, nssa: u32) -> Action {
    Action::Add {
        enclave: 1,
        number,
        frame: Frame(frame),
        kind: Kind::Tcs,
        perm: NONE,
        init: PageInit::Tcs { ossa, nssa },
    }
}

fn enter(tcs: u32, tcs_frame: u32, ssa_frame: u32) -> Action {
    Action::Enter {
        enclave: 1,
        tcs,
        tcs_frame: Frame(tcs_frame),
        ssa_frame: Frame(ssa_frame),
    }
}

fn resume(tcs: u32, tcs_frame: u32, ssa_frame: u32) -> Action {
    Action::Resume {
        enclave: 1,
        tcs,
        tcs_frame: Frame(tcs_frame),
        ssa_frame: Frame(ssa_frame),
    }
}

fn slot(index: u16) -> SlotAt {
    SlotAt {
        frame: Frame(0),
        index,
    }
}
