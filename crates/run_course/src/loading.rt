//! The turns of a processor.

ghost use Rattle.std.specs.Prelude.{◌≡◌, ◌<◌, ◌∷◌, false, true, IfOk, OnErr, Some, is_some, length};
ghost use Rattle.run_calls.specs.inner.Comes.{bus_of};
ghost use Rattle.driver_laws.specs.inner.Agrees.{loaded_by};
ghost use Rattle.driver_rules.specs.Places.{place};
ghost use Rattle.driver_rules.specs.Stops.{is_spent};
ghost use Rattle.driver_rules.specs.Turns.{cpu_due, fetches, last_of};
ghost use Rattle.run_course.specs.declared.turn.Turn.TheVariants as turns;
ghost use Rattle.run_course.specs.inner.Courses.{Grows, IsSame, KeepsCourse, past_of};
ghost use Rattle.run_course.specs.inner.Refusing.{CanRefuse};
ghost use Rattle.run_course.specs.inner.Turns.{CanTurn, IsCpuTurn, IsOpened};
ghost use Rattle.sgx_types.specs.declared.names.Actor.TheVariants as actors;

use crate::building::ROOM;
use crate::course::Course;
use crate::turn::Turn;
use backing_store::backing::Backing;
use cached_translations::processor::Mode;
use driver_faults::answers::{FaultAnswer, Loaded};
use driver_faults::finishing::finish;
use driver_faults::repeating::again;
use driver_faults::resolving::{asked, resolve};
use driver_rules::waits::Why;
use due_tables::dues::CpuDue;
use seal_record::unseal::UnsealedWork;
use sgx_rules::entries::{BusWhy, Entry, Event};
use sgx_types::names::{Actor, Cpu, Memory, Page};
use std::alloc::Global;

impl Course {
    /// A turn of a processor.
    pub fn turn<S: Backing>(
        &mut self,
        alloc: Global,
        store: &mut S,
        cpu: Cpu,
    ) -> Result<Turn, Memory>
        requires keeps { KeepsCourse self.old (S.told store.old) (S.spare store.old) }
        requires cpu { cpu.0 < length self.old.job.scripts }
        ensures turn { IfOk result (λ turn. IsCpuTurn self.old cpu turn self.new (S.told store.new) (S.spare store.new)) }
        ensures keeps { KeepsCourse self.new (S.told store.new) (S.spare store.new) }
        ensures memory { OnErr result (IsSame self.old self.new × (store.new ≡ store.old)) }
        ensures plans { S.plans store.new ≡ S.plans store.old }
        ensures calm { IfOk result (λ turn. past_of self.new ≡ past_of self.old → S.told store.new ≡ S.told store.old) }
        ensures tells { is_some (S.told store.new) ≡ is_some (S.told store.old) }
        ensures again { is_some (loaded_by (last_of (past_of self.old) cpu.0)) ≡ true → IsSame self.old self.new × (store.new ≡ store.old) }
    {
        let due = self
            .turns
            .cpu_due(&self.job, &self.driver, &self.machine, cpu);
        match due {
            CpuDue::Stopped => Ok(Turn::Stopped),
            CpuDue::Finished => Ok(Turn::Finished),
            CpuDue::Waits(why) => Ok(Turn::Again(why)),
            CpuDue::Ends(_) => self.open_again(alloc, store, cpu),
            CpuDue::Makes(step) => self.instruct(alloc, Actor::Cpu(cpu), &step.action()),
            CpuDue::Reports { .. } => unreachable!(),
            CpuDue::Needs(page) => self.fetch(alloc, store, cpu, page),
        }
    }

    // The work of its started load, once more. Out of line, as `fetch`.
    #[inline(never)]
    fn open_again<S: Backing>(
        &mut self,
        alloc: Global,
        store: &mut S,
        cpu: Cpu,
    ) -> Result<Turn, Memory>
        requires keeps { KeepsCourse self.old (S.told store.old) (S.spare store.old) }
        requires cpu { cpu.0 < length self.old.job.scripts }
        requires loads { is_some (loaded_by (last_of (past_of self.old) cpu.0)) ≡ true }
        ensures turn { IfOk result (λ turn. IsCpuTurn self.old cpu turn self.new (S.told store.new) (S.spare store.new)) }
        ensures same { self.new ≡ self.old }
        ensures store { store.new ≡ store.old }
    {
        match again(alloc, &self.driver, &self.machine, cpu)? {
            Some(work) => Ok(Turn::Unseal(work)),
            None => unreachable!(),
        }
    }

    // The fault step for a page that it needs. Out of line, so that a turn that needs none makes no room for its work.
    #[inline(never)]
    fn fetch<S: Backing>(
        &mut self,
        alloc: Global,
        store: &mut S,
        cpu: Cpu,
        page: Page,
    ) -> Result<Turn, Memory>
        requires keeps { KeepsCourse self.old (S.told store.old) (S.spare store.old) }
        requires cpu { cpu.0 < length self.old.job.scripts }
        requires due { cpu_due self.old.job (past_of self.old) cpu.0
            ≡ fetches self.old.job.epc (past_of self.old) page (place (past_of self.old) page) }
        ensures turn { IfOk result (λ turn. IsCpuTurn self.old cpu turn self.new (S.told store.new) (S.spare store.new)) }
        ensures keeps { KeepsCourse self.new (S.told store.new) (S.spare store.new) }
        ensures memory { OnErr result (IsSame self.old self.new × (store.new ≡ store.old)) }
        ensures plans { S.plans store.new ≡ S.plans store.old }
        ensures calm { IfOk result (λ turn. past_of self.new ≡ past_of self.old → S.told store.new ≡ S.told store.old) }
        ensures tells { is_some (S.told store.new) ≡ is_some (S.told store.old) }
    {
        if !self.turns.tcs.has_place(page) {
            return Ok(Turn::Again(Why::Busy(page)));
        }
        self.entries.reserve(ROOM)?;
        let before = self.machine.mode(cpu);
        let asked = asked(&self.driver, page);
        match resolve(alloc, &mut self.driver, &mut self.machine, store, cpu, page)? {
            FaultAnswer::Here => Ok(Turn::Again(Why::Busy(page))),
            FaultAnswer::Again(why) => Ok(Turn::Again(why)),
            FaultAnswer::Bus(why) => {
                let entry = bus(cpu, asked, why);
                self.machine.note(&entry);
                self.take_in(before, &entry);
                Ok(Turn::Did { entries: 1 })
            }
            FaultAnswer::Started { entry, work } => {
                self.take_in(before, &entry);
                Ok(Turn::Unseal(work))
            }
            FaultAnswer::Slot { entry } => {
                Ok(self.take_refused(cpu, asked, before, &entry, BusWhy::Slot))
            }
        }
    }

    /// Ends the started load of a processor, by the record that the store gave, whatever work is handed in. Where it has none, nothing
    /// changes. Takes no memory.
    pub fn commit_opened(&mut self, cpu: Cpu, work: UnsealedWork) -> Turn
        requires can { CanTurn self.old }
        requires cpu { cpu.0 < length self.old.job.scripts }
        ensures { (can : CanTurn self.old) → IsOpened self.old cpu result self.new can.told can.spare }
    {
        if self.turns.is_spent {
            return Turn::Stopped;
        }
        let Some(page) = self.driver.kept.kept_page(cpu) else {
            return Turn::Did { entries: 0 };
        };
        self.end_load(cpu, page, work)
    }

    // The end of its load of a page.
    fn end_load(&mut self, cpu: Cpu, page: Page, work: UnsealedWork) -> Turn
        requires can { CanTurn self.old }
        requires cpu { cpu.0 < length self.old.job.scripts }
        requires going { is_spent (past_of self.old) ≡ false }
        requires loads { loaded_by (last_of (past_of self.old) cpu.0) ≡ Some page }
        ensures { (can : CanTurn self.old) → IsOpened self.old cpu result self.new can.told can.spare }
    {
        let before = self.machine.mode(cpu);
        match finish(&mut self.driver, &mut self.machine, cpu, page, work) {
            Loaded::Here(entry) => {
                self.take_in(before, &entry);
                Turn::Did { entries: 1 }
            }
            Loaded::Bus { entry, why } => self.take_refused(cpu, page, before, &entry, why),
        }
    }

    // Takes in the entry that refused a load or its start, and behind it the bus that tells why.
    fn take_refused(
        &mut self,
        cpu: Cpu,
        page: Page,
        before: Mode,
        entry: &Entry,
        why: BusWhy,
    ) -> Turn
        requires { CanRefuse self.old cpu page before entry.now why }
        ensures answer { result ≡ turns.Did 2 }
        ensures past { past_of self.new ≡ bus_of cpu page why ∷ entry.now ∷ past_of self.old }
        ensures grows { (can : CanRefuse self.old cpu page before entry.now why)
            → Grows self.old (actors.Cpu cpu) 2 self.new can.take.can.longer can.spare }
    {
        self.take_in(before, entry);
        let between = self.machine.mode(cpu);
        let told = bus(cpu, page, why);
        self.machine.note(&told);
        self.take_in(between, &told);
        Turn::Did { entries: 2 }
    }
}

// The entry that tells why a page does not come back.
fn bus(cpu: Cpu, page: Page, why: BusWhy) -> Entry
    ensures { result ≡ bus_of cpu page why }
{
    Entry {
        actor: Actor::Cpu(cpu),
        event: Event::Bus { page, why },
    }
}
