//! The entries of a trace: who did what, and the answer.

use crate::refusals::Refusal;
use sgx_types::lawful::PageInit;
use sgx_types::names::{Actor, Cpu, Frame, Kind, Page, Perm, SlotAt};

/// Why a processor left its enclave asynchronously: its script's timer, a page that was away, a kick of the
/// reclaimer, or the script's end.
#[derive(Clone, Copy, Debug, PartialEq, Eq)]
pub enum Cause {
    Timer,
    Fault,
    Kick,
    End,
}

/// The kind of an access to an enclave's memory.
#[derive(Clone, Copy, Debug, PartialEq, Eq)]
pub enum AccessOp {
    Load,
    Store,
    Xadd,
}

/// Why no reload can help an access: its page was never added, is no PT_REG page, or lacks the permission.
#[derive(Clone, Copy, Debug, PartialEq, Eq)]
pub enum PfWhy {
    Absent,
    WrongType,
    NoPerm,
}

/// What the reclaimer's look at the head of the list of resident pages found.
#[derive(Clone, Copy, Debug, PartialEq, Eq)]
pub enum Look {
    Young,
    Held,
    NoRoom,
    Taken,
}

/// Why a page could not be reloaded: the store failed or has no record of it, its write-out was never kept, the record's tag or header is
/// another, or its slot has no version.
#[derive(Clone, Copy, Debug, PartialEq, Eq)]
pub enum BusWhy {
    GetFailed,
    NoRecord,
    PutFailed,
    Mac,
    Header,
    Slot,
}

/// One instruction with its operands. Offsets and addresses are in bytes, page numbers in pages of 4096 bytes.
#[derive(Clone, Copy, Debug, PartialEq, Eq)]
pub enum Action {
    Epa {
        frame: Frame,
    },
    Create {
        enclave: u16,
        frame: Frame,
        base: u64,
        size: u64,
    },
    Add {
        enclave: u16,
        number: u32,
        frame: Frame,
        kind: Kind,
        perm: Perm,
        init: PageInit,
    },
    Extend {
        frame: Frame,
        chunk: u8,
    },
    Init {
        enclave: u16,
        expect: Option<[u8; 32]>,
    },
    Enter {
        enclave: u16,
        tcs: u32,
        tcs_frame: Frame,
        ssa_frame: Frame,
    },
    Resume {
        enclave: u16,
        tcs: u32,
        tcs_frame: Frame,
        ssa_frame: Frame,
    },
    Exit,
    Aex {
        cause: Cause,
    },
    Fill {
        number: u32,
        frame: Frame,
    },
    Load {
        off: u64,
    },
    Store {
        off: u64,
        value: u64,
    },
    Xadd {
        off: u64,
        value: u64,
    },
    Set {
        value: u64,
    },
    Plus {
        value: u64,
    },
    Pf {
        op: AccessOp,
        off: u64,
    },
    OutLoad {
        enclave: u16,
        off: u64,
    },
    OutStore {
        enclave: u16,
        off: u64,
        value: u64,
    },
    Block {
        frame: Frame,
    },
    Track {
        enclave: u16,
    },
    EwbStart {
        frame: Frame,
        slot: SlotAt,
    },
    Ewb {
        frame: Frame,
    },
    EldStart {
        frame: Frame,
        page: Page,
        slot: SlotAt,
    },
    Eld {
        frame: Frame,
    },
}

/// What a done instruction answered. `Va` is the number of a version array page: how many were made before it.
#[derive(Clone, Copy, Debug, PartialEq, Eq)]
pub enum Answer {
    Plain,
    Cssa(u32),
    Value(u64),
    Hash([u8; 32]),
    Version(u64),
    Moved {
        page: Page,
        version: u64,
        tag: [u8; 32],
    },
    Pf(PfWhy),
    Va(u32),
}

/// What happened: an instruction was done or refused, the reclaimer looked at a page or kicked a processor, or a
/// processor was stopped by a page that could not be reloaded.
#[derive(Clone, Copy, Debug, PartialEq, Eq)]
pub enum Event {
    Did { action: Action, answer: Answer },
    Refused { action: Action, why: Refusal },
    Age { page: Page, look: Look },
    Kick { cpu: Cpu },
    Bus { page: Page, why: BusWhy },
}

/// One entry of the trace.
#[derive(Clone, Copy, Debug, PartialEq, Eq)]
pub struct Entry {
    pub actor: Actor,
    pub event: Event,
}
