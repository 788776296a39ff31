//! Small jobs, from the first instruction to the last.

use super::digests::{OTHER, THREE_PAGES, TWO_PAGES};
use super::instructions::Instruction::*;
use super::rows::Reader::*;
use super::rows::Row::{self, Step, Tells};
use super::rows::Told::{self, Count, Free, Is};
use super::rows::{BUILDER, DONE, FIRST, NONE, READ, READ_EXECUTE, SECOND};
use super::world::play;
use cached_translations::processor::Mode;
use sgx_rules::entries::{AccessOp, Action, Answer};
use sgx_rules::refusals::Refusal;
use sgx_types::lawful::PageInit;
use sgx_types::layouts::TcsFields;
use sgx_types::names::{Frame, Kind};
use std::test::Fail;

const TCS: TcsFields = TcsFields {
    ossa: 0x1000,
    cssa: 0,
    nssa: 1,
};

const INSIDE: Mode = Mode::Inside {
    enclave: 1,
    tcs: 0,
    tcs_frame: Frame(2),
    ssa_frame: Frame(3),
    epoch: 1,
};

const SMALL_JOB: &[Row] = &[
    Tells(Frames, Count(6)),
    Tells(FirstFree, Free(Some(Frame(0)))),
    Tells(FreeCount, Count(6)),
    Step(BUILDER, Epa(0), Ok(Answer::Va(0))),
    Step(BUILDER, Create(1), DONE),
    Step(BUILDER, AddTcs(2), DONE),
    Step(BUILDER, AddReg(1, 3, 0), DONE),
    Step(BUILDER, AddReg(2, 4, 7), DONE),
    Step(BUILDER, Init(None), Ok(Answer::Hash(THREE_PAGES))),
    Tells(FirstFree, Free(Some(Frame(5)))),
    Tells(FreeCount, Count(1)),
    Tells(Fields(2), Told::Tcs(Some(TCS))),
    Tells(Fields(3), Told::Tcs(None)),
    Tells(Fields(6), Told::Tcs(None)),
    Tells(Stands(0), Told::Mode(Mode::Outside)),
    Step(FIRST, Enter(2, 3), Ok(Answer::Cssa(0))),
    Step(FIRST, Fill(2, 4), DONE),
    Step(FIRST, Load(0x2000), Ok(Answer::Value(7))),
    Tells(Stands(0), Told::Mode(INSIDE)),
    Tells(Stands(1), Told::Mode(Mode::Outside)),
    Tells(Holds(0, 2), Is(true)),
    Tells(Holds(0, 1), Is(false)),
    Tells(Holds(1, 2), Is(false)),
    Step(FIRST, Exit, DONE),
    Tells(Stands(0), Told::Mode(Mode::Outside)),
    Tells(Holds(0, 2), Is(false)),
];

// The machine is what its readers tell before the build, after it, inside and after the exit.
#[test]
fn a_small_job_answers_as_on_paper(rt: HostRuntime) -> Result<(), Fail> {
    play(&rt, rt.alloc(), 6, 2, &[SMALL_JOB])?;
    Ok(())
}

const FAULTS: &[Row] = &[
    Step(BUILDER, Epa(6), Err(Refusal::BadRange)),
    Step(BUILDER, Epa(0), Ok(Answer::Va(0))),
    Step(BUILDER, Epa(0), Err(Refusal::FrameBusy)),
    Step(BUILDER, AddTcs(2), Err(Refusal::Absent)),
    Step(BUILDER, Create(1), DONE),
    Step(BUILDER, Create(5), Err(Refusal::PageExists)),
    Step(BUILDER, AddTcs(1), Err(Refusal::FrameBusy)),
    Step(BUILDER, AddTcs(2), DONE),
    Step(FIRST, Enter(2, 3), Err(Refusal::NotInit)),
    Step(BUILDER, AddReg(16, 3, 0), Err(Refusal::BadRange)),
    Step(BUILDER, AddReg(1, 3, 0), DONE),
    Step(BUILDER, AddReg(1, 5, 0), Err(Refusal::PageExists)),
    Step(
        BUILDER,
        Init(Some(THREE_PAGES)),
        Err(Refusal::BadMeasure { made: TWO_PAGES }),
    ),
    Step(BUILDER, AddReg(2, 4, 7), DONE),
    Step(
        BUILDER,
        Init(Some(THREE_PAGES)),
        Ok(Answer::Hash(THREE_PAGES)),
    ),
    Step(BUILDER, AddReg(3, 5, 0), Err(Refusal::IsInit)),
    Step(FIRST, Load(0x2000), Err(Refusal::WrongMode)),
    Step(FIRST, Enter(2, 4), Err(Refusal::Absent)),
    Step(FIRST, Enter(2, 3), Ok(Answer::Cssa(0))),
    Step(FIRST, Enter(2, 3), Err(Refusal::WrongMode)),
    Step(SECOND, Enter(2, 3), Err(Refusal::TcsBusy)),
    Step(FIRST, Load(0x2000), Err(Refusal::Miss)),
    Step(FIRST, Fill(2, 3), Err(Refusal::Absent)),
    Step(FIRST, Fill(0, 2), Err(Refusal::BadKind)),
    Step(FIRST, Fill(2, 4), DONE),
    Step(FIRST, Load(0x2004), Err(Refusal::BadRange)),
    Step(FIRST, Load(0x2ff8), Ok(Answer::Value(7))),
    Step(SECOND, Exit, Err(Refusal::WrongMode)),
    Step(FIRST, Exit, DONE),
    Step(SECOND, Enter(2, 3), Ok(Answer::Cssa(0))),
    Step(SECOND, Load(0x2000), Err(Refusal::Miss)),
    Step(BUILDER, Epa(5), Ok(Answer::Va(1))),
    Tells(FirstFree, Free(None)),
];

// Between the faults the same job goes on as without them.
#[test]
fn a_fault_is_told_and_changes_nothing(rt: HostRuntime) -> Result<(), Fail> {
    play(&rt, rt.alloc(), 6, 2, &[FAULTS])?;
    Ok(())
}

// TWO_PAGES with its last bit turned.
const WRONG: [u8; 32] = [
    0x33, 0x0a, 0xba, 0x8b, 0x01, 0xce, 0x90, 0x82, 0x84, 0x11, 0x84, 0x72, 0x74, 0xc3, 0x48, 0x9e,
    0xca, 0xcc, 0x25, 0xd1, 0x76, 0x24, 0xc5, 0x38, 0x44, 0x98, 0x11, 0x33, 0x8b, 0x24, 0xd2, 0xfb,
];

const CREATE_OTHER: Action = Action::Create {
    enclave: 2,
    frame: Frame(1),
    base: 0x2000,
    size: 0x2000,
};

const ADD_OTHER: Action = Action::Add {
    enclave: 2,
    number: 1,
    frame: Frame(3),
    kind: Kind::Reg,
    perm: READ_EXECUTE,
    init: PageInit::Words(7),
};

const INIT_OTHER: Action = Action::Init {
    enclave: 2,
    expect: None,
};

const INIT_OTHER_AS_TWO_PAGES: Action = Action::Init {
    enclave: 2,
    expect: Some(TWO_PAGES),
};

const DIGESTS: &[Row] = &[
    Step(BUILDER, Init(None), Err(Refusal::Absent)),
    Step(BUILDER, Create(0), DONE),
    Step(BUILDER, Whole(CREATE_OTHER), DONE),
    Step(BUILDER, AddTcs(2), DONE),
    Step(BUILDER, Whole(ADD_OTHER), DONE),
    Step(BUILDER, AddReg(1, 4, 0), DONE),
    Step(
        BUILDER,
        Whole(INIT_OTHER_AS_TWO_PAGES),
        Err(Refusal::BadMeasure { made: OTHER }),
    ),
    Step(
        BUILDER,
        Init(Some(WRONG)),
        Err(Refusal::BadMeasure { made: TWO_PAGES }),
    ),
    Step(BUILDER, Init(Some(TWO_PAGES)), Ok(Answer::Hash(TWO_PAGES))),
    Step(BUILDER, Init(Some(TWO_PAGES)), Err(Refusal::IsInit)),
    Step(BUILDER, Whole(INIT_OTHER), Ok(Answer::Hash(OTHER))),
    Tells(IsInit(1), Is(true)),
    Tells(IsInit(2), Is(true)),
    Tells(IsInit(3), Is(false)),
];

// Another enclave is built in between: each has a log of its own.
#[test]
fn init_compares_the_digest_of_its_log(rt: HostRuntime) -> Result<(), Fail> {
    play(&rt, rt.alloc(), 6, 2, &[DIGESTS])?;
    Ok(())
}

const LAWFUL: &[Row] = &[
    Step(BUILDER, Create(0), DONE),
    Step(BUILDER, AddTcs(1), DONE),
    Step(BUILDER, AddReg(1, 2, 0), DONE),
    Step(BUILDER, Add(2, 3, Kind::Reg, READ), DONE),
    Step(BUILDER, Add(3, 4, Kind::Reg, NONE), DONE),
    Tells(Lawful(1, 0, AccessOp::Load), Is(false)),
    Tells(Lawful(1, 0, AccessOp::Store), Is(false)),
    Tells(Lawful(1, 0, AccessOp::Xadd), Is(false)),
    Tells(Lawful(1, 1, AccessOp::Load), Is(true)),
    Tells(Lawful(1, 1, AccessOp::Store), Is(true)),
    Tells(Lawful(1, 1, AccessOp::Xadd), Is(true)),
    Tells(Lawful(1, 2, AccessOp::Load), Is(true)),
    Tells(Lawful(1, 2, AccessOp::Store), Is(false)),
    Tells(Lawful(1, 2, AccessOp::Xadd), Is(false)),
    Tells(Lawful(1, 3, AccessOp::Load), Is(false)),
    Tells(Lawful(1, 3, AccessOp::Store), Is(false)),
    Tells(Lawful(1, 3, AccessOp::Xadd), Is(false)),
    Tells(Lawful(1, 4, AccessOp::Load), Is(false)),
    Tells(Lawful(1, 4, AccessOp::Store), Is(false)),
    Tells(Lawful(1, 4, AccessOp::Xadd), Is(false)),
    Tells(Lawful(2, 1, AccessOp::Load), Is(false)),
    Tells(Lawful(2, 1, AccessOp::Store), Is(false)),
    Tells(Lawful(2, 1, AccessOp::Xadd), Is(false)),
];

// The pages that were added decide, whatever frames hold.
#[test]
fn accesses_are_lawful_by_page_and_permission(rt: HostRuntime) -> Result<(), Fail> {
    play(&rt, rt.alloc(), 6, 2, &[LAWFUL])?;
    Ok(())
}
