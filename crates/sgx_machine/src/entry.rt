//! The rows that take a processor into an enclave and out of it.

ghost use Rattle.std.specs.Prelude.{◌≡◌, ◌<◌, ◌||◌, true, Some, length};
ghost use Rattle.sgx_types.specs.Cases.{first_of_row, when, ◌otherwise◌, allowed};
ghost use Rattle.sgx_types.specs.declared.names.Actor.TheVariants as actors;
ghost use Rattle.sgx_rules.specs.declared.entries.Action.TheVariants as actions;
ghost use Rattle.sgx_rules.specs.declared.refusals.Refusal.TheVariants as why;
ghost use Rattle.epcm_entry.specs.inner.Sights.{sight_in};
ghost use Rattle.cached_translations.specs.inner.Modes.{is_inside};
ghost use Rattle.sgx_machine.specs.inner.Parts.{state_of};
ghost use Rattle.machine_laws.specs.inner.Steps.{IsStep};

use crate::apply::{done, refused};
use crate::machine::Machine;
use cached_translations::processor::Mode;
use entry_exit::enter::{eenter, eresume};
use entry_exit::exit::{aex, eexit};
use epcm_entry::epc::Epc;
use sgx_rules::entries::{Action, Answer, Cause, Entry};
use sgx_rules::refusals::Refusal;
use sgx_types::names::{Actor, Cpu, Frame};

impl Machine {
    /// A processor enters an enclave by a free TCS page, with a new state (EENTER).
    #[inline(never)]
    pub(crate) fn enter(
        &mut self,
        cpu: Cpu,
        enclave: u16,
        tcs: u32,
        tcs_frame: Frame,
        ssa_frame: Frame,
    ) -> Entry
        requires { cpu.0 < length self.old.cpus }
        ensures step { IsStep (state_of self.old) (actors.Cpu cpu) (actions.Enter enclave tcs tcs_frame ssa_frame) result
            (state_of self.new) }
        ensures cpus { length self.new.cpus ≡ length self.old.cpus }
    {
        let actor = Actor::Cpu(cpu);
        let action = Action::Enter {
            enclave,
            tcs,
            tcs_frame,
            ssa_frame,
        };
        let Some(secs) = self.secs.get_mut(enclave) else {
            let mode = self.cpus[usize::from(cpu.0)].mode;
            return refused(actor, action, absent(&self.epc, mode, tcs_frame, ssa_frame));
        };
        let track = self.tracks.get_mut(enclave);
        let processor = &mut self.cpus[usize::from(cpu.0)];
        match eenter(&self.epc, secs, track, processor, tcs, tcs_frame, ssa_frame) {
            Ok(cssa) => done(actor, action, Answer::Cssa(cssa)),
            Err(refusal) => refused(actor, action, refusal),
        }
    }

    /// A processor enters an enclave by a free TCS page, with the state that was saved last (ERESUME).
    #[inline(never)]
    pub(crate) fn resume(
        &mut self,
        cpu: Cpu,
        enclave: u16,
        tcs: u32,
        tcs_frame: Frame,
        ssa_frame: Frame,
    ) -> Entry
        requires { cpu.0 < length self.old.cpus }
        ensures step { IsStep (state_of self.old) (actors.Cpu cpu) (actions.Resume enclave tcs tcs_frame ssa_frame) result
            (state_of self.new) }
        ensures cpus { length self.new.cpus ≡ length self.old.cpus }
    {
        let actor = Actor::Cpu(cpu);
        let action = Action::Resume {
            enclave,
            tcs,
            tcs_frame,
            ssa_frame,
        };
        let Some(secs) = self.secs.get_mut(enclave) else {
            let mode = self.cpus[usize::from(cpu.0)].mode;
            return refused(actor, action, absent(&self.epc, mode, tcs_frame, ssa_frame));
        };
        let track = self.tracks.get_mut(enclave);
        let processor = &mut self.cpus[usize::from(cpu.0)];
        match eresume(
            &mut self.epc,
            secs,
            track,
            processor,
            tcs,
            tcs_frame,
            ssa_frame,
        ) {
            Ok(saved) => done(actor, action, Answer::Value(saved)),
            Err(refusal) => refused(actor, action, refusal),
        }
    }

    /// A processor leaves its enclave, and drops its translations (EEXIT).
    #[inline(never)]
    pub(crate) fn exit(&mut self, cpu: Cpu) -> Entry
        requires { cpu.0 < length self.old.cpus }
        ensures step { IsStep (state_of self.old) (actors.Cpu cpu) actions.Exit result (state_of self.new) }
        ensures cpus { length self.new.cpus ≡ length self.old.cpus }
    {
        let actor = Actor::Cpu(cpu);
        let Some(enclave) = self.mode(cpu).enclave() else {
            return refused(actor, Action::Exit, Refusal::WrongMode);
        };
        let secs = self.secs.get_mut(enclave).unwrap();
        let track = self.tracks.get_mut(enclave);
        let processor = &mut self.cpus[usize::from(cpu.0)];
        match eexit(secs, track, processor) {
            Ok(()) => done(actor, Action::Exit, Answer::Plain),
            Err(refusal) => refused(actor, Action::Exit, refusal),
        }
    }

    /// A processor leaves its enclave asynchronously: its accumulator is saved, and it drops its translations.
    #[inline(never)]
    pub(crate) fn aex(&mut self, cpu: Cpu, cause: Cause) -> Entry
        requires { cpu.0 < length self.old.cpus }
        ensures step { IsStep (state_of self.old) (actors.Cpu cpu) (actions.Aex cause) result (state_of self.new) }
        ensures cpus { length self.new.cpus ≡ length self.old.cpus }
    {
        let actor = Actor::Cpu(cpu);
        let action = Action::Aex { cause };
        let Some(enclave) = self.mode(cpu).enclave() else {
            return refused(actor, action, Refusal::WrongMode);
        };
        let secs = self.secs.get_mut(enclave).unwrap();
        let track = self.tracks.get_mut(enclave);
        let processor = &mut self.cpus[usize::from(cpu.0)];
        aex(&mut self.epc, secs, track, processor);
        done(actor, action, Answer::Plain)
    }
}

// The first case that holds of the rows of `enter` and `resume` where the enclave was not created.
pub(crate) fn absent(epc: &Epc, mode: Mode, tcs_frame: Frame, ssa_frame: Frame) -> Refusal
    ensures { Some result
        ≡ first_of_row (when (is_inside mode) why.WrongMode
        otherwise when ((sight_in epc.now tcs_frame.0).is_beyond || (sight_in epc.now ssa_frame.0).is_beyond) why.BadRange
        otherwise when true why.Absent
        otherwise allowed) }
{
    if mode.is_inside() {
        return Refusal::WrongMode;
    }
    if tcs_frame.0 >= epc.frames() || ssa_frame.0 >= epc.frames() {
        return Refusal::BadRange;
    }
    Refusal::Absent
}
