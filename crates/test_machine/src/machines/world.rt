//! A machine, and how a table is played on it.

ghost use Rattle.std.specs.Prelude.{◌≡◌, ◌≤◌, IsTrue};
ghost use Rattle.machine_laws.specs.inner.Steps.{CanApply, CanMove};
ghost use Rattle.sgx_machine.specs.inner.Parts.{state_of};

use super::instructions::Instruction;
use super::rows::{DONE, FIRST, RECLAIMER, Reader, Row, Told};
use seal_record::seal::{SealWork, seal};
use seal_record::unseal::{UnsealWork, unseal};
use sgx_machine::machine::Machine;
use sgx_rules::entries::{Action, Answer, Entry, Event};
use sgx_rules::refusals::Refusal;
use sgx_types::names::{Actor, Cpu, Frame, Memory, Page};
use sgx_types::record::Record;
use std::alloc::Global;
use std::marker::Model;
use std::process::Abort;

// A machine whose number of processors is known. Contracts see no more of it than that number.
#[derive(Drop)]
pub struct World {
    // In a box, so that dropping it is one call: a machine by value is dropped part by part wherever its owner can end.
    machine: Box<Machine>,
    cpus: u8,
    record: Option<Record>,
    beside: Option<Record>,
}

impl Model for World {
    ghost use Rattle.std.specs.Prelude.{◌≡◌, ℕ, length};

    ghost Value = { ℕ };

    ghost view = { λ w. w.cpus };

    ghost invariant = { λ w. length w.machine.value.cpus ≡ w.cpus };
}

impl World {
    pub fn new(alloc: Global, frames: u32, cpus: u8) -> Result<World, Memory>
        requires frames { frames ≤ 4096 }
        requires cpus { cpus ≤ 16 }
    {
        let machine = Machine::new(alloc, frames, cpus, [0; 32], 1, 1)?;
        let machine = Box::new(alloc, machine)?;
        Ok(World {
            machine,
            cpus,
            record: None,
            beside: None,
        })
    }

    fn tables(&mut self, rt: &impl Abort, alloc: Global, tables: &[&[Row]]) -> Result<(), Memory> {
        for rows in tables {
            self.rows(rt, alloc, rows)?;
        }
        Ok(())
    }

    fn rows(&mut self, rt: &impl Abort, alloc: Global, rows: &[Row]) -> Result<(), Memory> {
        for (at, row) in rows.iter().enumerate() {
            self.row(rt, alloc, at, *row)?;
        }
        Ok(())
    }

    // Plays one row, the `at`th of its table.
    fn row(&mut self, rt: &impl Abort, alloc: Global, at: usize, row: Row) -> Result<(), Memory> {
        match row {
            Row::Step(actor, instruction, want) => {
                self.step(rt, alloc, at, actor, instruction.action(), want)
            }
            Row::EndOut(frame, want) => self.end_out(rt, alloc, at, Frame(frame), false, want),
            Row::EndOutOther(frame, want) => self.end_out(rt, alloc, at, Frame(frame), true, want),
            Row::EndIn(frame, want) => self.end_in(rt, alloc, at, Frame(frame), want),
            Row::AddEach(first, past, value) => self.add_each(rt, alloc, at, first, past, value),
            Row::TouchEach(first, past, value) => self.touch_each(
                rt, alloc, at, first, past, value,
            ),
            Row::Kick(cpu) => {
                self.machine.note(&Entry {
                    actor: RECLAIMER,
                    event: Event::Kick { cpu: Cpu(cpu) },
                });
                Ok(())
            }
            Row::Swap => {
                let kept = self.record.take();
                self.record = self.beside.take();
                self.beside = kept;
                Ok(())
            }
            Row::Tells(reader, want) => {
                let told = self.told(rt, reader);
                assert_eq!(rt; told, want, "row {at}");
                Ok(())
            }
        }
    }

    // One instruction, which has to be done or refused as wanted.
    fn step(
        &mut self,
        rt: &impl Abort,
        alloc: Global,
        at: usize,
        actor: Actor,
        action: Action,
        want: Result<Answer, Refusal>,
    ) -> Result<(), Memory> {
        assert!(rt; can_apply(self.cpus, actor, action), "row {at}");
        assert!(rt; can_move(&self.machine, action), "row {at}");
        let entry = self.machine.apply(alloc, actor, &action)?;
        let event = event(action, want);
        assert_eq!(rt; entry, Entry { actor, event }, "row {at}");
        Ok(())
    }

    fn add_each(
        &mut self,
        rt: &impl Abort,
        alloc: Global,
        at: usize,
        first: u32,
        past: u32,
        value: u64,
    ) -> Result<(), Memory> {
        for number in first..past {
            let add = Instruction::AddReg(number, number.wrapping_add(1), value);
            self.step(rt, alloc, at, Actor::Builder, add.action(), DONE)?;
        }
        Ok(())
    }

    fn touch_each(
        &mut self,
        rt: &impl Abort,
        alloc: Global,
        at: usize,
        first: u32,
        past: u32,
        value: u64,
    ) -> Result<(), Memory> {
        for number in first..past {
            self.touch(rt, alloc, at, number, value)?;
        }
        Ok(())
    }

    fn touch(
        &mut self,
        rt: &impl Abort,
        alloc: Global,
        at: usize,
        number: u32,
        value: u64,
    ) -> Result<(), Memory> {
        let load = Action::Load {
            off: u64::from(number) * 4096,
        };
        let fill = Instruction::Fill(number, number.wrapping_add(1));
        self.step(rt, alloc, at, FIRST, load, Err(Refusal::Miss))?;
        self.step(rt, alloc, at, FIRST, fill.action(), DONE)?;
        self.step(rt, alloc, at, FIRST, load, Ok(Answer::Value(value)))
    }

    fn end_out(
        &mut self,
        rt: &impl Abort,
        alloc: Global,
        at: usize,
        frame: Frame,
        is_other: bool,
        answer: Answer,
    ) -> Result<(), Memory> {
        assert!(rt; self.machine.is_leaving(frame), "row {at}");
        let mut input = SealWork::new(alloc)?;
        self.machine.seal_input(frame, &mut input);
        if is_other {
            input.plain[0] ^= 1;
        }
        let work = seal(input);
        let tag = work.rec.tag;
        let (entry, rec) = self.machine.ewb_commit(Actor::Reclaimer, frame, work);
        // Other work is done anew, under another tag.
        assert_eq!(rt; rec.tag == tag, !is_other, "row {at}");
        assert_eq!(rt; Some(rec.tag), tag_of(answer), "row {at}");
        self.record = Some(rec);
        let action = Action::Ewb { frame };
        let event = Event::Did { action, answer };
        let actor = Actor::Reclaimer;
        assert_eq!(rt; entry, Entry { actor, event }, "row {at}");
        Ok(())
    }

    fn end_in(
        &mut self,
        rt: &impl Abort,
        alloc: Global,
        at: usize,
        frame: Frame,
        want: Result<Answer, Refusal>,
    ) -> Result<(), Memory> {
        assert!(rt; self.machine.is_coming(frame), "row {at}");
        assert!(rt; self.machine.can_bring(frame), "row {at}");
        let rec = self.record.take().expect(rt, "no record was kept");
        let mut work = UnsealWork::new(alloc, rec)?;
        self.machine.unseal_input(frame, &mut work);
        let actor = FIRST;
        let entry = self.machine.eld_commit(actor, frame, unseal(work));
        let event = event(Action::Eld { frame }, want);
        assert_eq!(rt; entry, Entry { actor, event }, "row {at}");
        Ok(())
    }

    fn told(&self, rt: &impl Abort, reader: Reader) -> Told {
        let machine = &self.machine;
        match reader {
            Reader::Frames => Told::Count(machine.frames()),
            Reader::Cpus => Told::Count(u32::from(machine.cpus())),
            Reader::FirstFree => Told::Free(machine.first_free()),
            Reader::FreeCount => Told::Count(machine.free_count()),
            Reader::Fields(frame) => Told::Tcs(machine.tcs(Frame(frame))),
            Reader::Stands(cpu) => {
                assert!(rt; cpu < self.cpus);
                Told::Mode(machine.mode(Cpu(cpu)))
            }
            Reader::Holds(cpu, number) => {
                assert!(rt; cpu < self.cpus);
                Told::Is(machine.holds(Cpu(cpu), number))
            }
            Reader::Older(enclave, epoch) => {
                assert!(rt; 1 <= enclave && enclave <= 8);
                Told::Count(machine.older(enclave, epoch))
            }
            Reader::IsInit(enclave) => Told::Is(machine.is_init(enclave)),
            Reader::Children(enclave) => {
                assert!(rt; 1 <= enclave && enclave <= 8);
                Told::Count(machine.children(enclave))
            }
            Reader::AnyBusy(frame) => {
                assert!(rt; machine.holds_array(Frame(frame)));
                Told::Is(machine.any_busy(Frame(frame)))
            }
            Reader::Arrays => {
                Told::Count(u32::try_from(machine.arrays_made()).unwrap_or(u32::MAX))
            }
            Reader::HasArray(number) => Told::Is(machine.has_array(number)),
            Reader::CanBring(frame) => Told::Is(machine.can_bring(Frame(frame))),
            Reader::Lawful(enclave, number, op) => {
                Told::Is(machine.lawful(Page { enclave, number }, op))
            }
        }
    }
}

// Plays tables, one after the other, on a machine that has done nothing yet.
pub fn play(
    rt: &impl Abort,
    alloc: Global,
    frames: u32,
    cpus: u8,
    tables: &[&[Row]],
) -> Result<(), Memory> {
    assert!(rt; frames <= 4096);
    assert!(rt; cpus <= 16);
    let mut world = World::new(alloc, frames, cpus)?;
    world.tables(rt, alloc, tables)
}

fn event(action: Action, want: Result<Answer, Refusal>) -> Event {
    match want {
        Ok(answer) => Event::Did { action, answer },
        Err(why) => Event::Refused { action, why },
    }
}

fn tag_of(answer: Answer) -> Option<[u8; 32]> {
    match answer {
        Answer::Moved { tag, .. } => Some(tag),
        _ => None,
    }
}

fn can_move(machine: &Machine, action: Action) -> bool
    ensures { IsTrue result → CanMove (state_of machine.now) action }
{
    match action {
        Action::Epa { .. } => machine.arrays_made() < 1 << 32,
        _ => true,
    }
}

fn can_apply(cpus: u8, actor: Actor, action: Action) -> bool
    ensures { IsTrue result → CanApply cpus actor action }
{
    match (actor, action) {
        (
            _,
            Action::Epa { .. }
            | Action::Create { .. }
            | Action::Add { .. }
            | Action::Extend { .. }
            | Action::Init { .. }
            | Action::Block { .. }
            | Action::Track { .. }
            | Action::EwbStart { .. }
            | Action::EldStart { .. },
        ) => true,
        (
            Actor::Cpu(cpu),
            Action::Enter { .. }
            | Action::Resume { .. }
            | Action::Exit
            | Action::Aex { .. }
            | Action::Fill { .. }
            | Action::Load { .. }
            | Action::Store { .. }
            | Action::Xadd { .. }
            | Action::Set { .. }
            | Action::Plus { .. }
            | Action::Pf { .. }
            | Action::OutLoad { .. }
            | Action::OutStore { .. },
        ) => cpu.0 < cpus,
        _ => false,
    }
}
