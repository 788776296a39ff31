//! What flat memory answers.

mod refusals;
mod rows;
mod world;

use self::rows::Instruction::*;
use self::rows::Row::{self, AddEach, Bytes, NoBytes, Step};
use self::rows::{BUILDER, FIRST, PLAIN, READ, READ_WRITE, SECOND};
use self::world::play;
use flat_machine::reply::FlatReply::{Did, Refused};
use sgx_rules::entries::{AccessOp, Answer, PfWhy};
use sgx_rules::refusals::Refusal;
use std::test::Fail;

const SMALL_JOB: &[Row] = &[
    Step(BUILDER, Create(1, 0x1_0000, 0x1_0000), PLAIN),
    Step(BUILDER, AddTcs(1, 0, 1, 1), PLAIN),
    Step(BUILDER, AddReg(1, 1, READ_WRITE, 0), PLAIN),
    Step(BUILDER, AddReg(1, 2, READ_WRITE, 7), PLAIN),
    Step(BUILDER, Init(1), PLAIN),
    Step(FIRST, Enter(1, 0), Did(Answer::Cssa(0))),
    Step(FIRST, Load(0x2000), Did(Answer::Value(7))),
    Step(FIRST, Exit, PLAIN),
];

// The entries of a small job, written out: its frames and the digest are not told.
#[test]
fn a_small_job_answers_as_its_entries(rt: HostRuntime) -> Result<(), Fail> {
    play(&rt, rt.alloc(), &[SMALL_JOB])
}

// A TCS page with OSSA 0x1000, CSSA 1 and NSSA 2.
const SAVED_TCS: &[u8] = &[
    0, 0, 0, 0, 0, 0, 0, 0, 0, 0, 0, 0, 0, 0, 0, 0, 0, 0x10, 0, 0, 0, 0, 0, 0, 1, 0, 0, 0, 2, 0, 0,
    0,
];

const STACK: &[Row] = &[
    Step(BUILDER, Create(1, 0x1_0000, 0x1_0000), PLAIN),
    Step(BUILDER, AddTcs(1, 0, 1, 2), PLAIN),
    Step(BUILDER, AddReg(1, 1, READ_WRITE, 0), PLAIN),
    Step(BUILDER, AddReg(1, 2, READ_WRITE, 0), PLAIN),
    Step(BUILDER, Init(1), PLAIN),
    Step(FIRST, Enter(1, 0), Did(Answer::Cssa(0))),
    Step(FIRST, Set(11), PLAIN),
    Step(FIRST, Timer, PLAIN),
    Bytes(1, 0, SAVED_TCS),
    Bytes(1, 1, &[11]),
    NoBytes(1, 3),
    NoBytes(9, 0),
    Step(FIRST, Enter(1, 0), Did(Answer::Cssa(1))),
    Step(FIRST, Plus(1), Did(Answer::Value(2))),
    Step(FIRST, Timer, PLAIN),
    Step(FIRST, Enter(1, 0), Refused(Refusal::NoFrame)),
    Step(FIRST, Resume(1, 0), Did(Answer::Value(2))),
    Step(FIRST, Exit, PLAIN),
    Step(FIRST, Resume(1, 0), Did(Answer::Value(11))),
    Step(FIRST, Exit, PLAIN),
    Step(FIRST, Resume(1, 0), Refused(Refusal::NoSaved)),
];

// Entries and resumptions by one TCS page with two state save frames, and the page's bytes after a timer.
#[test]
fn saved_states_come_back_last_first(rt: HostRuntime) -> Result<(), Fail> {
    play(&rt, rt.alloc(), &[STACK])
}

const ALL_ONES: u64 = 18_446_744_073_709_551_615;

const OUTSIDE: &[Row] = &[
    Step(BUILDER, Create(1, 0x4_0000, 0x4_0000), PLAIN),
    Step(BUILDER, AddTcs(1, 0, 1, 1), PLAIN),
    AddEach(1, 42),
    Step(BUILDER, Init(1), PLAIN),
    Step(FIRST, OutLoad(0x2000), Did(Answer::Value(ALL_ONES))),
    Step(FIRST, OutStore(0x2000, 5), PLAIN),
    Step(FIRST, Enter(1, 0), Did(Answer::Cssa(0))),
    Step(FIRST, Load(0x2000), Did(Answer::Value(0))),
    Step(FIRST, Exit, PLAIN),
    Step(FIRST, OutLoad(0x2000), Did(Answer::Value(ALL_ONES))),
];

// From outside, memory reads as ones, and nothing is kept.
#[test]
fn outside_reads_ones_and_writes_nothing(rt: HostRuntime) -> Result<(), Fail> {
    play(&rt, rt.alloc(), &[OUTSIDE])
}

const FAULTS: &[Row] = &[
    Step(BUILDER, Create(1, 0x1_0000, 0x1_0000), PLAIN),
    Step(BUILDER, AddTcs(1, 0, 1, 1), PLAIN),
    Step(BUILDER, AddReg(1, 1, READ_WRITE, 0), PLAIN),
    Step(BUILDER, AddReg(1, 2, READ_WRITE, 7), PLAIN),
    Step(BUILDER, AddReg(1, 3, READ, 5), PLAIN),
    Step(BUILDER, Init(1), PLAIN),
    Step(FIRST, Load(0x2000), Refused(Refusal::WrongMode)),
    Step(FIRST, Enter(1, 0), Did(Answer::Cssa(0))),
    Step(FIRST, Store(0x3000, 1), Refused(Refusal::NoPerm)),
    Step(
        FIRST,
        Fault(AccessOp::Store, 0x3000),
        Did(Answer::Pf(PfWhy::NoPerm)),
    ),
    Step(FIRST, Load(0x3000), Did(Answer::Value(5))),
    Step(FIRST, Load(0x4000), Refused(Refusal::Miss)),
    Step(
        FIRST,
        Fault(AccessOp::Load, 0x4000),
        Did(Answer::Pf(PfWhy::Absent)),
    ),
    Step(FIRST, Load(0), Refused(Refusal::Miss)),
    Step(
        FIRST,
        Fault(AccessOp::Load, 0),
        Did(Answer::Pf(PfWhy::WrongType)),
    ),
    Step(FIRST, Load(0x2000), Did(Answer::Value(7))),
    Step(FIRST, Exit, PLAIN),
];

// Accesses that no reload can help, and why.
#[test]
fn faults_are_told_by_what_a_page_was_added_as(rt: HostRuntime) -> Result<(), Fail> {
    play(&rt, rt.alloc(), &[FAULTS])
}

const TWO_ENCLAVES: &[Row] = &[
    Step(BUILDER, Create(1, 0x1_0000, 0x1_0000), PLAIN),
    Step(BUILDER, AddTcs(1, 0, 1, 1), PLAIN),
    Step(BUILDER, AddReg(1, 1, READ_WRITE, 1), PLAIN),
    Step(BUILDER, Init(1), PLAIN),
    Step(BUILDER, Create(2, 0x1_0000, 0x1_0000), PLAIN),
    Step(BUILDER, AddTcs(2, 0, 1, 1), PLAIN),
    Step(BUILDER, AddReg(2, 1, READ_WRITE, 2), PLAIN),
    Step(BUILDER, Init(2), PLAIN),
    Step(FIRST, Enter(1, 0), Did(Answer::Cssa(0))),
    Step(FIRST, Store(0x1008, u64::MAX), PLAIN),
    Step(SECOND, Enter(2, 0), Did(Answer::Cssa(0))),
    Step(SECOND, Load(0x1008), Did(Answer::Value(2))),
    Step(SECOND, Xadd(0x1000, 5), Did(Answer::Value(2))),
    Step(SECOND, Load(0x1000), Did(Answer::Value(7))),
    Step(FIRST, Load(0x1000), Did(Answer::Value(1))),
    Step(FIRST, Xadd(0x1008, 3), Did(Answer::Value(u64::MAX))),
    Step(FIRST, Load(0x1008), Did(Answer::Value(2))),
];

// Two enclaves with one base have words of their own. A sum counts mod 2^64.
#[test]
fn enclaves_share_no_words(rt: HostRuntime) -> Result<(), Fail> {
    play(&rt, rt.alloc(), &[TWO_ENCLAVES])
}
