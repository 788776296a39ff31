//! Processors inside: states, accesses and faults.

use super::digests::{FOUR_PAGES, MANY_PAGES, THREE_PAGES, TWO_TCS};
use super::instructions::Instruction::*;
use super::rows::Reader::Holds;
use super::rows::Row::{self, AddEach, Step, Tells, TouchEach};
use super::rows::Told::Is;
use super::rows::{BUILDER, DONE, FIRST, READ, SECOND};
use super::world::play;
use sgx_rules::entries::{AccessOp, Action, Answer, Cause, PfWhy};
use sgx_rules::refusals::Refusal;
use sgx_types::names::{Frame, Kind};
use std::test::Fail;

const STACK: &[Row] = &[
    Step(BUILDER, Create(0), DONE),
    Step(BUILDER, AddTcsOf(0, 1, 1, 2), DONE),
    Step(BUILDER, AddReg(1, 2, 0), DONE),
    Step(BUILDER, AddReg(2, 3, 0), DONE),
    Step(BUILDER, Init(None), Ok(Answer::Hash(THREE_PAGES))),
    Step(FIRST, Enter(1, 2), Ok(Answer::Cssa(0))),
    Step(FIRST, Set(11), DONE),
    Step(FIRST, Leave(Cause::Timer), DONE),
    Step(FIRST, Enter(1, 3), Ok(Answer::Cssa(1))),
    Step(FIRST, Plus(1), Ok(Answer::Value(2))),
    Step(FIRST, Leave(Cause::Timer), DONE),
    Step(FIRST, Enter(1, 3), Err(Refusal::NoFrame)),
    Step(FIRST, Resume(1, 3), Ok(Answer::Value(2))),
    Step(FIRST, Exit, DONE),
    Step(FIRST, Resume(1, 2), Ok(Answer::Value(11))),
    Step(FIRST, Exit, DONE),
    Step(FIRST, Resume(1, 2), Err(Refusal::NoSaved)),
];

// A TCS with two state save frames: what was saved last is resumed first.
#[test]
fn states_are_saved_in_a_stack(rt: HostRuntime) -> Result<(), Fail> {
    play(&rt, rt.alloc(), 8, 2, &[STACK])?;
    Ok(())
}

// An enclave of four pages: page 2 can be read and written and has words 7, page 3 can be read and has words 5.
const FOUR_PAGES_BUILT: &[Row] = &[
    Step(BUILDER, Create(0), DONE),
    Step(BUILDER, AddTcs(1), DONE),
    Step(BUILDER, AddReg(1, 2, 0), DONE),
    Step(BUILDER, AddReg(2, 3, 7), DONE),
    Step(BUILDER, AddWords(3, 4, Kind::Reg, READ, 5), DONE),
    Step(BUILDER, Init(None), Ok(Answer::Hash(FOUR_PAGES))),
];

const ACCESSES: &[Row] = &[
    Step(FIRST, Load(0x2000), Err(Refusal::WrongMode)),
    Step(FIRST, Enter(1, 2), Ok(Answer::Cssa(0))),
    Step(FIRST, Store(0x3000, 1), Err(Refusal::Miss)),
    Step(FIRST, Fill(3, 4), DONE),
    Step(FIRST, Store(0x3000, 1), Err(Refusal::NoPerm)),
    Step(FIRST, Xadd(0x3000, 1), Err(Refusal::NoPerm)),
    Step(FIRST, Load(0x3000), Ok(Answer::Value(5))),
    Step(FIRST, Load(0x4000), Err(Refusal::Miss)),
    Step(FIRST, Fill(2, 3), DONE),
    Step(FIRST, Load(0x2000), Ok(Answer::Value(7))),
    Step(FIRST, Store(0x2008, 9), DONE),
    Step(FIRST, Xadd(0x2008, u64::MAX), Ok(Answer::Value(9))),
    Step(FIRST, Load(0x2008), Ok(Answer::Value(8))),
];

#[test]
fn accesses_go_by_their_translations(rt: HostRuntime) -> Result<(), Fail> {
    play(&rt, rt.alloc(), 8, 2, &[FOUR_PAGES_BUILT, ACCESSES])?;
    Ok(())
}

const CAUSES: &[Row] = &[
    Step(
        FIRST,
        Fault(AccessOp::Load, 0x4000),
        Err(Refusal::WrongMode),
    ),
    Step(FIRST, Enter(1, 2), Ok(Answer::Cssa(0))),
    Step(
        FIRST,
        Fault(AccessOp::Store, 0x3000),
        Ok(Answer::Pf(PfWhy::NoPerm)),
    ),
    Step(
        FIRST,
        Fault(AccessOp::Load, 0x4000),
        Ok(Answer::Pf(PfWhy::Absent)),
    ),
    Step(
        FIRST,
        Fault(AccessOp::Load, 0x0),
        Ok(Answer::Pf(PfWhy::WrongType)),
    ),
    Step(FIRST, Fault(AccessOp::Load, 0x2004), Err(Refusal::BadRange)),
    Step(FIRST, Fault(AccessOp::Load, 0x2000), Err(Refusal::NoFault)),
    // Page 2^32 + 2.
    Step(
        FIRST,
        Fault(AccessOp::Load, 0x1000_0000_2000),
        Ok(Answer::Pf(PfWhy::Absent)),
    ),
];

#[test]
fn faults_have_their_cause(rt: HostRuntime) -> Result<(), Fail> {
    play(&rt, rt.alloc(), 8, 2, &[FOUR_PAGES_BUILT, CAUSES])?;
    Ok(())
}

const OUTSIDE: &[Row] = &[
    Step(FIRST, Store(0x2000, 1), Err(Refusal::WrongMode)),
    Step(FIRST, Xadd(0x2000, 1), Err(Refusal::WrongMode)),
    Step(FIRST, Set(1), Err(Refusal::WrongMode)),
    Step(FIRST, Plus(1), Err(Refusal::WrongMode)),
    Step(FIRST, Leave(Cause::Timer), Err(Refusal::WrongMode)),
    Step(FIRST, OutLoad(0x2000), Ok(Answer::Value(u64::MAX))),
    Step(FIRST, OutStore(0x2000, 5), DONE),
    Step(FIRST, Enter(1, 2), Ok(Answer::Cssa(0))),
    Step(FIRST, OutLoad(0x2000), Err(Refusal::WrongMode)),
    Step(FIRST, OutStore(0x2000, 5), Err(Refusal::WrongMode)),
    Step(FIRST, Fill(2, 3), DONE),
    Step(FIRST, Load(0x2000), Ok(Answer::Value(7))),
];

#[test]
fn outside_there_is_no_access_to_the_enclave(rt: HostRuntime) -> Result<(), Fail> {
    play(&rt, rt.alloc(), 8, 2, &[FOUR_PAGES_BUILT, OUTSIDE])?;
    Ok(())
}

const TWO_INSIDE: &[Row] = &[
    Step(BUILDER, Create(0), DONE),
    Step(BUILDER, AddTcs(1), DONE),
    Step(BUILDER, AddReg(1, 2, 7), DONE),
    Step(BUILDER, AddTcsOf(2, 3, 3, 1), DONE),
    Step(BUILDER, AddReg(3, 4, 8), DONE),
    Step(BUILDER, Init(None), Ok(Answer::Hash(TWO_TCS))),
    Step(FIRST, Enter(1, 2), Ok(Answer::Cssa(0))),
    Step(SECOND, Enter(1, 2), Err(Refusal::TcsBusy)),
    Step(SECOND, EnterBy(2, 3, 4), Ok(Answer::Cssa(0))),
    Step(SECOND, Set(5), DONE),
    Step(FIRST, Set(3), DONE),
    Step(FIRST, Plus(1), Ok(Answer::Value(4))),
    Step(SECOND, Plus(1), Ok(Answer::Value(6))),
    Step(FIRST, Fill(1, 2), DONE),
    Step(SECOND, Load(0x1000), Err(Refusal::Miss)),
    Step(SECOND, Fill(3, 4), DONE),
    Step(FIRST, Load(0x1000), Ok(Answer::Value(7))),
    Step(SECOND, Load(0x3000), Ok(Answer::Value(8))),
    Step(SECOND, Leave(Cause::Fault), DONE),
    Step(FIRST, Load(0x1000), Ok(Answer::Value(7))),
    Step(FIRST, Exit, DONE),
    Step(FIRST, ResumeBy(2, 3, 4), Ok(Answer::Value(6))),
    Step(SECOND, Enter(1, 2), Ok(Answer::Cssa(0))),
    Step(FIRST, Exit, DONE),
    Step(SECOND, Exit, DONE),
];

// Each has its own accumulator, translations and state save frame.
#[test]
fn two_processors_are_inside_one_enclave(rt: HostRuntime) -> Result<(), Fail> {
    play(&rt, rt.alloc(), 8, 2, &[TWO_INSIDE])?;
    Ok(())
}

// An enclave with a TCS page and the REG pages 1 to 66 of words 3, page n in frame n + 1.
const CREATE_LARGE: Action = Action::Create {
    enclave: 1,
    frame: Frame(0),
    base: 0x8_0000,
    size: 0x8_0000,
};

const MANY: &[Row] = &[
    Step(BUILDER, Whole(CREATE_LARGE), DONE),
    Step(BUILDER, AddTcs(1), DONE),
    AddEach(1, 67, 3),
    Step(BUILDER, Init(None), Ok(Answer::Hash(MANY_PAGES))),
    Step(FIRST, Enter(1, 2), Ok(Answer::Cssa(0))),
    TouchEach(2, 67, 3),
    Tells(Holds(0, 2), Is(false)),
    Tells(Holds(0, 3), Is(true)),
    TouchEach(2, 3, 3),
    Tells(Holds(0, 3), Is(false)),
    Step(FIRST, Load(0x4_2000), Ok(Answer::Value(3))),
];

#[test]
fn the_sixty_fifth_translation_drops_the_oldest(rt: HostRuntime) -> Result<(), Fail> {
    play(&rt, rt.alloc(), 96, 2, &[MANY])?;
    Ok(())
}
