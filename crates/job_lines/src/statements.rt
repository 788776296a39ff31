//! What the lines of a job say.

use sgx_types::names::Perm;

/// The first epoch of each enclave, and the first version.
#[derive(Clone, Copy)]
pub struct Start {
    pub epoch: u64,
    pub version: u64,
}

/// A page that a line names, whether it is added or not.
#[derive(Clone, Copy)]
pub struct NamedPage {
    pub enclave: u16,
    pub number: u64,
}

/// What a store line says.
#[derive(Clone, Copy)]
pub enum Plan {
    FailRoom { k: u64 },
    FailPut { k: u64 },
    FailGet { k: u64 },
    DropGet { page: NamedPage, g: u64 },
    Flip { page: NamedPage, g: u64, bit: u64 },
    Replay { page: NamedPage, g: u64, w: u64 },
    Swap { one: NamedPage, other: NamedPage },
}

/// What the line of an operation says.
#[derive(Clone, Copy)]
pub enum Operation {
    Enter { tcs: NamedPage },
    Resume { tcs: NamedPage },
    Exit,
    Timer,
    Load { off: u64 },
    Store { off: u64, value: u64 },
    Xadd { off: u64, value: u64 },
    Set { value: u64 },
    Plus { value: u64 },
    OutLoad { enclave: u16, off: u64 },
    OutStore { enclave: u16, off: u64, value: u64 },
}

/// What a line says, before any of its numbers is looked at.
#[derive(Clone, Copy)]
pub enum Statement {
    Epc {
        frames: u64,
    },
    Marks {
        low: u64,
        high: u64,
        scan: u64,
    },
    Key {
        key: [u8; 32],
    },
    Start(Start),
    Enclave {
        enclave: u16,
        base: u64,
        size: u64,
    },
    Tcs {
        page: u64,
        ossa: u64,
        nssa: u64,
        plain: bool,
    },
    Reg {
        first: u64,
        count: u64,
        perm: Perm,
        value: u64,
        plain: bool,
    },
    Expect {
        digest: [u8; 32],
    },
    Plan(Plan),
    Cpu {
        number: u64,
    },
    Operation(Operation),
}
