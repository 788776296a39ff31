//! Builds, and what refuses their steps.

use super::digests::{EXTENDED, TCS_ALONE};
use super::instructions::Instruction::*;
use super::rows::Row::{self, Step};
use super::rows::{BUILDER, DONE, NONE, READ, WRITE};
use super::world::play;
use sgx_rules::entries::Answer;
use sgx_rules::refusals::Refusal;
use sgx_types::names::Kind;
use std::test::Fail;

const REFUSALS: &[Row] = &[
    Step(BUILDER, Epa(4), Err(Refusal::BadRange)),
    Step(BUILDER, Epa(0), Ok(Answer::Va(0))),
    Step(BUILDER, Epa(0), Err(Refusal::FrameBusy)),
    Step(BUILDER, CreateSized(1, 0x3000), Err(Refusal::BadRange)),
    Step(BUILDER, Create(1), DONE),
    Step(BUILDER, Create(2), Err(Refusal::PageExists)),
    Step(BUILDER, AddTcs(2), DONE),
    Step(BUILDER, AddReg(0, 3, 0), Err(Refusal::PageExists)),
    Step(BUILDER, Add(1, 3, Kind::Va, NONE), Err(Refusal::BadKind)),
    Step(BUILDER, Add(1, 3, Kind::Reg, WRITE), Err(Refusal::BadPerm)),
    Step(BUILDER, Add(16, 3, Kind::Reg, READ), Err(Refusal::BadRange)),
    Step(BUILDER, Add(1, 2, Kind::Reg, READ), Err(Refusal::FrameBusy)),
    Step(BUILDER, Extend(2, 16), Err(Refusal::BadRange)),
    Step(BUILDER, Extend(3, 0), Err(Refusal::PgInvld)),
    Step(BUILDER, Extend(1, 0), Err(Refusal::BadKind)),
    Step(
        BUILDER,
        Init(Some([0; 32])),
        Err(Refusal::BadMeasure { made: TCS_ALONE }),
    ),
    Step(BUILDER, Init(None), Ok(Answer::Hash(TCS_ALONE))),
    Step(BUILDER, Init(None), Err(Refusal::IsInit)),
    Step(BUILDER, Add(1, 3, Kind::Reg, READ), Err(Refusal::IsInit)),
];

// The refusals of the build, between the instructions of a small one.
#[test]
fn each_row_of_the_build_is_refused_by_its_first_case(rt: HostRuntime) -> Result<(), Fail> {
    play(&rt, rt.alloc(), 4, 2, &[REFUSALS])?;
    Ok(())
}

// The bytes 1 to 8, low byte first.
const RISING: u64 = 0x0807_0605_0403_0201;

const CHUNKS: &[Row] = &[
    Step(BUILDER, Create(0), DONE),
    Step(BUILDER, AddTcs(1), DONE),
    Step(BUILDER, Extend(1, 0), DONE),
    Step(BUILDER, AddReg(1, 2, RISING), DONE),
    Step(BUILDER, Epa(3), Ok(Answer::Va(0))),
    Step(BUILDER, Extend(3, 1), Err(Refusal::BadKind)),
    Step(BUILDER, Extend(4, 1), Err(Refusal::BadRange)),
    Step(BUILDER, Extend(2, 1), DONE),
    Step(BUILDER, Extend(1, 15), DONE),
    Step(BUILDER, Init(Some(EXTENDED)), Ok(Answer::Hash(EXTENDED))),
    Step(BUILDER, Extend(2, 1), Err(Refusal::IsInit)),
    Step(BUILDER, Extend(2, 16), Err(Refusal::BadRange)),
];

// Chunks are measured as they were extended, whatever their order, and refused ones are not.
#[test]
fn extended_chunks_are_measured(rt: HostRuntime) -> Result<(), Fail> {
    play(&rt, rt.alloc(), 4, 2, &[CHUNKS])?;
    Ok(())
}
