//! What a table's row asks of flat memory.

use flat_machine::reply::FlatReply::{self, Did};
use sgx_rules::entries::{AccessOp, Action, Answer, Cause};
use sgx_types::lawful::PageInit;
use sgx_types::names::{Actor, Cpu, Frame, Kind, Perm};

pub const BUILDER: Actor = Actor::Builder;

pub const FIRST: Actor = Actor::Cpu(Cpu(0));

pub const SECOND: Actor = Actor::Cpu(Cpu(15));

pub const PLAIN: FlatReply = Did(Answer::Plain);

pub const NONE: Perm = Perm::NONE;

pub const READ: Perm = Perm {
    r: true,
    w: false,
    x: false,
};

pub const WRITE: Perm = Perm {
    r: false,
    w: true,
    x: false,
};

pub const READ_WRITE: Perm = Perm {
    r: true,
    w: true,
    x: false,
};

// One line of a test.
#[derive(Clone, Copy)]
pub enum Row {
    // An instruction, and what it has to reply.
    Step(Actor, Instruction, FlatReply),
    // The REG pages from a number to below another are added to enclave 1, of zeros.
    AddEach(u32, u32),
    // An enclave, the number of a page of it that was added, and the bytes that the page begins with; the others are 0.
    Bytes(u16, u32, &'static [u8]),
    // .. of a page that was not added: no byte is written.
    NoBytes(u16, u32),
}

// An instruction by what tells it from the others of these tests. Numbers of enclaves and pages stand in the order of its fields.
#[derive(Clone, Copy)]
pub enum Instruction {
    // A number, a base and a size.
    Create(u16, u64, u64),
    // An enclave, a page's number, and the first and the number of its state save pages.
    AddTcs(u16, u32, u32, u32),
    // An enclave, a page's number, its permissions and its words.
    AddReg(u16, u32, Perm, u64),
    // A page of zeros of enclave 1.
    AddZeros(u32, Kind, Perm),
    Extend(u8),
    Init(u16),
    Enter(u16, u32),
    Resume(u16, u32),
    Exit,
    Timer,
    Load(u64),
    Store(u64, u64),
    Xadd(u64, u64),
    Set(u64),
    Plus(u64),
    Fault(AccessOp, u64),
    // Of enclave 1, from outside.
    OutLoad(u64),
    OutStore(u64, u64),
}

// Frames play no part in flat memory.
const FRAME: Frame = Frame(4095);

impl Instruction {
    pub fn action(self) -> Action {
        match self {
            Instruction::Create(enclave, base, size) => Action::Create {
                enclave,
                frame: FRAME,
                base,
                size,
            },
            Instruction::AddTcs(enclave, number, ossa, nssa) => {
                let init = PageInit::Tcs { ossa, nssa };
                add(enclave, number, Kind::Tcs, NONE, init)
            }
            Instruction::AddReg(enclave, number, perm, value) => {
                add(enclave, number, Kind::Reg, perm, PageInit::Words(value))
            }
            Instruction::AddZeros(number, kind, perm) => {
                add(1, number, kind, perm, PageInit::Words(0))
            }
            Instruction::Extend(chunk) => Action::Extend {
                frame: FRAME,
                chunk,
            },
            Instruction::Init(enclave) => Action::Init {
                enclave,
                expect: None,
            },
            Instruction::Enter(enclave, tcs) => Action::Enter {
                enclave,
                tcs,
                tcs_frame: FRAME,
                ssa_frame: FRAME,
            },
            Instruction::Resume(enclave, tcs) => Action::Resume {
                enclave,
                tcs,
                tcs_frame: FRAME,
                ssa_frame: FRAME,
            },
            Instruction::Exit => Action::Exit,
            Instruction::Timer => Action::Aex {
                cause: Cause::Timer,
            },
            Instruction::Load(off) => Action::Load { off },
            Instruction::Store(off, value) => Action::Store { off, value },
            Instruction::Xadd(off, value) => Action::Xadd { off, value },
            Instruction::Set(value) => Action::Set { value },
            Instruction::Plus(value) => Action::Plus { value },
            Instruction::Fault(op, off) => Action::Pf { op, off },
            Instruction::OutLoad(off) => Action::OutLoad { enclave: 1, off },
            Instruction::OutStore(off, value) => Action::OutStore {
                enclave: 1,
                off,
                value,
            },
        }
    }
}

fn add(enclave: u16, number: u32, kind: Kind, perm: Perm, init: PageInit) -> Action {
    Action::Add {
        enclave,
        number,
        frame: FRAME,
        kind,
        perm,
        init,
    }
}
