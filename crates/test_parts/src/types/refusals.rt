//! Refusals and their numbers.

use sgx_rules::refusals::{Refusal, code};

// The refusals in the order of their numbers.
const LISTED: [Refusal; 32] = [
    Refusal::PgInvld,
    Refusal::PgIsSecs,
    Refusal::NotBlockable,
    Refusal::BlkState,
    Refusal::Conflict,
    Refusal::PrevTrk { older: 2 },
    Refusal::EpochSpent,
    Refusal::PageNotBlocked,
    Refusal::NotTracked { epoch: 7, older: 1 },
    Refusal::SlotOccupied { version: 9 },
    Refusal::SlotEmpty,
    Refusal::VersionSpent,
    Refusal::MacFail {
        given: [1; 32],
        computed: [2; 32],
    },
    Refusal::BadHeader {
        enclave: 1,
        address: 73728,
        flags: 515,
    },
    Refusal::ChildPresent { count: 3 },
    Refusal::PageExists,
    Refusal::BadRange,
    Refusal::BadPerm,
    Refusal::BadKind,
    Refusal::NotInit,
    Refusal::IsInit,
    Refusal::BadMeasure { made: [3; 32] },
    Refusal::TcsBusy,
    Refusal::NoFrame,
    Refusal::NoSaved,
    Refusal::FrameBusy,
    Refusal::Absent,
    Refusal::Blocked,
    Refusal::NoPerm,
    Refusal::Miss,
    Refusal::NoFault,
    Refusal::WrongMode,
];

#[test]
fn the_refusals_are_numbered_from_1(rt: HostRuntime) {
    for (refusal, number) in LISTED.iter().zip(1..) {
        assert_eq!(rt; code(refusal), number, "{refusal:?}");
    }
}
