//! How a table is played on flat memory.

ghost use Rattle.std.specs.Prelude.{◌≡◌, IsTrue, true};
ghost use Rattle.sgx_rules.specs.Flat.{is_visible};
ghost use Rattle.flat_machine.specs.inner.Step.{IsItsActor};

use super::rows::{BUILDER, Instruction, PLAIN, READ_WRITE, Row};
use flat_machine::flat::Flat;
use flat_machine::reply::FlatReply;
use job_text::reader::read_job;
use sgx_rules::entries::Action;
use sgx_types::names::{Actor, Memory, PROCESSORS, Page};
use std::alloc::Global;
use std::process::Abort;
use std::test::Fail;

// A job whose pages flat memory takes room for.
const JOB: &str = "epc 6
enclave A 0x10000 0x10000
tcs 0 1 1 plain
reg 1 1 rw 0 plain
reg 2 1 rw 7 plain
cpu 0
eenter A 0
load 0x2000
eexit
";

// Plays tables, one after the other, on flat memory in which nothing is built, with room for the pages of the first job.
pub fn play(rt: &impl Abort, alloc: Global, tables: &[&[Row]]) -> Result<(), Fail> {
    let mut flat = Box::new(alloc, unbuilt(alloc)?)?;
    for rows in tables {
        play_rows(rt, alloc, &mut flat, rows)?;
    }
    Ok(())
}

fn unbuilt(alloc: Global) -> Result<Flat, Fail> {
    let job = read_job(alloc, JOB.as_bytes())?;
    let flat = Flat::new(alloc, &job)?;
    Ok(flat)
}

fn play_rows(rt: &impl Abort, alloc: Global, flat: &mut Flat, rows: &[Row]) -> Result<(), Memory> {
    for (at, row) in rows.iter().enumerate() {
        match *row {
            Row::Step(actor, instruction, want) => {
                step(rt, alloc, flat, at, actor, instruction, want)?
            }
            Row::AddEach(first, past) => add_each(rt, alloc, flat, at, first, past)?,
            Row::Bytes(enclave, number, want) => {
                let page = Page { enclave, number };
                assert!(rt; begins(flat, page, want), "row {at}");
            }
            Row::NoBytes(enclave, number) => {
                let page = Page { enclave, number };
                assert!(rt; is_unknown(flat, page), "row {at}");
            }
        }
    }
    Ok(())
}

fn add_each(
    rt: &impl Abort,
    alloc: Global,
    flat: &mut Flat,
    at: usize,
    first: u32,
    past: u32,
) -> Result<(), Memory> {
    for number in first..past {
        let add = Instruction::AddReg(1, number, READ_WRITE, 0);
        step(rt, alloc, flat, at, BUILDER, add, PLAIN)?;
    }
    Ok(())
}

// One instruction, the `at`th of its table, which has to reply as wanted.
fn step(
    rt: &impl Abort,
    alloc: Global,
    flat: &mut Flat,
    at: usize,
    actor: Actor,
    instruction: Instruction,
    want: FlatReply,
) -> Result<(), Memory> {
    let action = instruction.action();
    assert!(rt; can_apply(actor, &action), "row {at}");
    let reply = flat.apply(alloc, actor, &action)?;
    assert_eq!(rt; reply, want, "row {at}");
    Ok(())
}

fn begins(flat: &Flat, page: Page, want: &[u8]) -> bool {
    let mut bytes = [1; 4096];
    if !flat.bytes(page, &mut bytes) {
        return false;
    }
    match bytes.strip_prefix(want) {
        Some(rest) => rest.iter().all(|byte| *byte == 0),
        None => false,
    }
}

fn is_unknown(flat: &Flat, page: Page) -> bool {
    let mut bytes = [1; 4096];
    !flat.bytes(page, &mut bytes) && bytes.iter().all(|byte| *byte == 1)
}

fn can_apply(actor: Actor, action: &Action) -> bool
    ensures visible { IsTrue result → is_visible action.now ≡ true }
    ensures actor { IsTrue result → IsItsActor actor action.now }
{
    match (actor, *action) {
        (
            _,
            Action::Create { .. }
            | Action::Add { .. }
            | Action::Extend { .. }
            | Action::Init { .. },
        ) => true,
        (
            Actor::Cpu(cpu),
            Action::Enter { .. }
            | Action::Resume { .. }
            | Action::Exit
            | Action::Aex { .. }
            | Action::Load { .. }
            | Action::Store { .. }
            | Action::Xadd { .. }
            | Action::Set { .. }
            | Action::Plus { .. }
            | Action::Pf { .. }
            | Action::OutLoad { .. }
            | Action::OutStore { .. },
        ) => u32::from(cpu.0) < PROCESSORS,
        _ => false,
    }
}
