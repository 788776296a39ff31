//! Rows that flat memory refuses, each by its first case.

use super::rows::Instruction::*;
use super::rows::Row::{self, Step};
use super::rows::{BUILDER, FIRST, NONE, PLAIN, READ, READ_WRITE, SECOND, WRITE};
use super::world::play;
use flat_machine::reply::FlatReply::{Did, Refused};
use sgx_rules::entries::{AccessOp, Answer};
use sgx_rules::refusals::Refusal;
use sgx_types::names::Kind;
use std::test::Fail;

const BUILDS: &[Row] = &[
    Step(BUILDER, Create(0, 0, 0x2000), Refused(Refusal::BadRange)),
    Step(BUILDER, Create(9, 0, 0x2000), Refused(Refusal::BadRange)),
    Step(
        BUILDER,
        Create(1, 0x1000, 0x2000),
        Refused(Refusal::BadRange),
    ),
    Step(BUILDER, Create(1, 0, 0x1000), Refused(Refusal::BadRange)),
    Step(BUILDER, AddReg(1, 0, READ, 0), Refused(Refusal::Absent)),
    Step(BUILDER, Init(1), Refused(Refusal::Absent)),
    Step(BUILDER, Create(1, 0x2000, 0x2000), PLAIN),
    Step(
        BUILDER,
        Create(1, 0x2000, 0x2000),
        Refused(Refusal::PageExists),
    ),
    Step(
        BUILDER,
        AddZeros(0, Kind::Tcs, WRITE),
        Refused(Refusal::BadKind),
    ),
    Step(
        BUILDER,
        AddZeros(0, Kind::Secs, WRITE),
        Refused(Refusal::BadKind),
    ),
    Step(
        BUILDER,
        AddZeros(2, Kind::Reg, WRITE),
        Refused(Refusal::BadPerm),
    ),
    Step(BUILDER, AddReg(1, 2, READ, 0), Refused(Refusal::BadRange)),
    Step(BUILDER, AddTcs(1, 0, 1, 2), Refused(Refusal::BadRange)),
    Step(BUILDER, AddTcs(1, 0, 1, 0), Refused(Refusal::BadRange)),
    Step(BUILDER, AddTcs(1, 0, 1, 1), PLAIN),
    Step(BUILDER, AddReg(1, 0, READ, 0), Refused(Refusal::PageExists)),
    Step(BUILDER, Extend(15), PLAIN),
    Step(BUILDER, Extend(16), Refused(Refusal::BadRange)),
    Step(BUILDER, Init(1), PLAIN),
    Step(BUILDER, Init(1), Refused(Refusal::IsInit)),
    Step(
        BUILDER,
        AddZeros(0, Kind::Tcs, NONE),
        Refused(Refusal::IsInit),
    ),
];

#[test]
fn each_row_of_the_build_is_refused_by_its_first_case(rt: HostRuntime) -> Result<(), Fail> {
    play(&rt, rt.alloc(), &[BUILDS])
}

// State save frames: page 1, none, a TCS page, and a page that can only be read.
const ENTRIES: &[Row] = &[
    Step(BUILDER, Create(1, 0x1_0000, 0x1_0000), PLAIN),
    Step(BUILDER, Create(2, 0x1_0000, 0x1_0000), PLAIN),
    Step(BUILDER, AddTcs(1, 0, 1, 1), PLAIN),
    Step(BUILDER, AddReg(1, 1, READ_WRITE, 0), PLAIN),
    Step(BUILDER, AddTcs(1, 2, 9, 1), PLAIN),
    Step(BUILDER, AddTcs(1, 3, 0, 1), PLAIN),
    Step(BUILDER, AddTcs(1, 4, 5, 1), PLAIN),
    Step(BUILDER, AddReg(1, 5, READ, 0), PLAIN),
    Step(BUILDER, Init(1), PLAIN),
    Step(FIRST, Enter(3, 0), Refused(Refusal::Absent)),
    Step(FIRST, Enter(2, 0), Refused(Refusal::NotInit)),
    Step(FIRST, Enter(1, 9), Refused(Refusal::Absent)),
    Step(FIRST, Enter(1, 1), Refused(Refusal::BadKind)),
    Step(FIRST, Enter(1, 2), Refused(Refusal::Absent)),
    Step(FIRST, Enter(1, 3), Refused(Refusal::BadKind)),
    Step(FIRST, Enter(1, 4), Refused(Refusal::NoPerm)),
    Step(FIRST, Resume(1, 0), Refused(Refusal::NoSaved)),
    Step(FIRST, Exit, Refused(Refusal::WrongMode)),
    Step(FIRST, Timer, Refused(Refusal::WrongMode)),
    Step(FIRST, Enter(1, 0), Did(Answer::Cssa(0))),
    Step(FIRST, Enter(1, 0), Refused(Refusal::WrongMode)),
    Step(FIRST, Resume(1, 0), Refused(Refusal::WrongMode)),
    Step(SECOND, Enter(1, 0), Refused(Refusal::TcsBusy)),
    Step(SECOND, Resume(1, 0), Refused(Refusal::TcsBusy)),
    Step(FIRST, Timer, PLAIN),
    Step(FIRST, Enter(1, 0), Refused(Refusal::NoFrame)),
    Step(FIRST, Resume(1, 0), Did(Answer::Value(0))),
    Step(FIRST, Exit, PLAIN),
    Step(FIRST, Enter(1, 0), Did(Answer::Cssa(0))),
];

#[test]
fn each_entry_is_refused_by_its_first_case(rt: HostRuntime) -> Result<(), Fail> {
    play(&rt, rt.alloc(), &[ENTRIES])
}

const ACCESSES: &[Row] = &[
    Step(BUILDER, Create(1, 0x1_0000, 0x1_0000), PLAIN),
    Step(BUILDER, AddTcs(1, 0, 1, 1), PLAIN),
    Step(BUILDER, AddReg(1, 1, READ_WRITE, 0), PLAIN),
    Step(BUILDER, AddReg(1, 2, READ, 0), PLAIN),
    Step(BUILDER, AddReg(1, 3, NONE, 0), PLAIN),
    Step(BUILDER, Init(1), PLAIN),
    Step(FIRST, Load(1), Refused(Refusal::WrongMode)),
    Step(FIRST, Store(1, 1), Refused(Refusal::WrongMode)),
    Step(FIRST, Xadd(1, 1), Refused(Refusal::WrongMode)),
    Step(FIRST, Set(1), Refused(Refusal::WrongMode)),
    Step(FIRST, Plus(1), Refused(Refusal::WrongMode)),
    Step(FIRST, Fault(AccessOp::Load, 1), Refused(Refusal::WrongMode)),
    Step(FIRST, Enter(1, 0), Did(Answer::Cssa(0))),
    Step(FIRST, OutLoad(0), Refused(Refusal::WrongMode)),
    Step(FIRST, OutStore(0, 1), Refused(Refusal::WrongMode)),
    Step(FIRST, Load(0x9001), Refused(Refusal::BadRange)),
    Step(FIRST, Store(0x9004, 1), Refused(Refusal::BadRange)),
    Step(FIRST, Xadd(0x9007, 1), Refused(Refusal::BadRange)),
    Step(
        FIRST,
        Fault(AccessOp::Load, 0x1001),
        Refused(Refusal::BadRange),
    ),
    Step(FIRST, Load(0x9000), Refused(Refusal::Miss)),
    Step(FIRST, Store(0, 1), Refused(Refusal::Miss)),
    Step(FIRST, Xadd(0x1000_0000_0000, 1), Refused(Refusal::Miss)),
    Step(FIRST, Load(0x3000), Refused(Refusal::NoPerm)),
    Step(FIRST, Store(0x2000, 1), Refused(Refusal::NoPerm)),
    Step(FIRST, Xadd(0x2000, 1), Refused(Refusal::NoPerm)),
    Step(
        FIRST,
        Fault(AccessOp::Xadd, 0x1000),
        Refused(Refusal::NoFault),
    ),
    Step(
        FIRST,
        Fault(AccessOp::Load, 0x2000),
        Refused(Refusal::NoFault),
    ),
];

#[test]
fn each_access_is_refused_by_its_first_case(rt: HostRuntime) -> Result<(), Fail> {
    play(&rt, rt.alloc(), &[ACCESSES])
}
