//! Why an instruction was refused.

ghost use Rattle.std.specs.Prelude.{◌≡◌};
ghost use Rattle.sgx_rules.specs.inner.Refusal.{code_of};

/// Why an instruction was refused. The names follow the error codes of Intel SDM volume 3D where it has one; the
/// others, and the order in which an instruction's conditions are asked, are this project's own.
#[derive(Clone, Copy, Debug, PartialEq, Eq)]
pub enum Refusal {
    PgInvld,
    PgIsSecs,
    NotBlockable,
    BlkState,
    Conflict,
    PrevTrk {
        older: u32,
    },
    EpochSpent,
    PageNotBlocked,
    NotTracked {
        epoch: u64,
        older: u32,
    },
    SlotOccupied {
        version: u64,
    },
    SlotEmpty,
    VersionSpent,
    MacFail {
        given: [u8; 32],
        computed: [u8; 32],
    },
    BadHeader {
        enclave: u64,
        address: u64,
        flags: u64,
    },
    ChildPresent {
        count: u32,
    },
    PageExists,
    BadRange,
    BadPerm,
    BadKind,
    NotInit,
    IsInit,
    BadMeasure {
        made: [u8; 32],
    },
    TcsBusy,
    NoFrame,
    NoSaved,
    FrameBusy,
    Absent,
    Blocked,
    NoPerm,
    Miss,
    NoFault,
    WrongMode,
}

/// The number of a refusal, from 1 to 32: its place in the list of refusals (this project's own).
pub fn code(refusal: &Refusal) -> u8
    ensures { result ≡ code_of refusal.now }
{
    match refusal {
        Refusal::PgInvld => 1,
        Refusal::PgIsSecs => 2,
        Refusal::NotBlockable => 3,
        Refusal::BlkState => 4,
        Refusal::Conflict => 5,
        Refusal::PrevTrk { .. } => 6,
        Refusal::EpochSpent => 7,
        Refusal::PageNotBlocked => 8,
        Refusal::NotTracked { .. } => 9,
        Refusal::SlotOccupied { .. } => 10,
        Refusal::SlotEmpty => 11,
        Refusal::VersionSpent => 12,
        Refusal::MacFail { .. } => 13,
        Refusal::BadHeader { .. } => 14,
        Refusal::ChildPresent { .. } => 15,
        Refusal::PageExists => 16,
        Refusal::BadRange => 17,
        Refusal::BadPerm => 18,
        Refusal::BadKind => 19,
        Refusal::NotInit => 20,
        Refusal::IsInit => 21,
        Refusal::BadMeasure { .. } => 22,
        Refusal::TcsBusy => 23,
        Refusal::NoFrame => 24,
        Refusal::NoSaved => 25,
        Refusal::FrameBusy => 26,
        Refusal::Absent => 27,
        Refusal::Blocked => 28,
        Refusal::NoPerm => 29,
        Refusal::Miss => 30,
        Refusal::NoFault => 31,
        Refusal::WrongMode => 32,
    }
}
