//! The rows of translations and accesses.

ghost use Rattle.std.specs.Prelude.{◌≡◌, ◌<◌, length};
ghost use Rattle.sgx_types.specs.declared.names.Actor.TheVariants as actors;
ghost use Rattle.sgx_rules.specs.declared.entries.Action.TheVariants as actions;
ghost use Rattle.sgx_machine.specs.inner.Parts.{state_of};
ghost use Rattle.machine_laws.specs.inner.Steps.{IsStep};

use crate::apply::{done, refused};
use crate::machine::Machine;
use enclave_access::access::{load, store, xadd};
use enclave_access::fill::fill;
use sgx_rules::entries::{Action, Answer, Entry};
use sgx_types::names::{Actor, Cpu, Frame};

impl Machine {
    /// A processor takes the translation of a page, with the permissions of the page.
    #[inline(never)]
    pub(crate) fn fill(&mut self, cpu: Cpu, number: u32, frame: Frame) -> Entry
        requires { cpu.0 < length self.old.cpus }
        ensures step { IsStep (state_of self.old) (actors.Cpu cpu) (actions.Fill number frame) result (state_of self.new) }
        ensures cpus { length self.new.cpus ≡ length self.old.cpus }
    {
        let actor = Actor::Cpu(cpu);
        let action = Action::Fill { number, frame };
        let processor = &mut self.cpus[usize::from(cpu.0)];
        match fill(&self.epc, processor, number, frame) {
            Ok(()) => done(actor, action, Answer::Plain),
            Err(refusal) => refused(actor, action, refusal),
        }
    }

    /// A processor reads a word of its enclave through a translation that it holds.
    #[inline(never)]
    pub(crate) fn load(&self, cpu: Cpu, off: u64) -> Entry
        requires { cpu.0 < length self.now.cpus }
        ensures { IsStep (state_of self.now) (actors.Cpu cpu) (actions.Load off) result (state_of self.now) }
    {
        let actor = Actor::Cpu(cpu);
        let action = Action::Load { off };
        let processor = &self.cpus[usize::from(cpu.0)];
        match load(&self.epc, processor, off) {
            Ok(word) => done(actor, action, Answer::Value(word)),
            Err(refusal) => refused(actor, action, refusal),
        }
    }

    /// A processor writes a word of its enclave through a translation that it holds.
    #[inline(never)]
    pub(crate) fn store(&mut self, cpu: Cpu, off: u64, value: u64) -> Entry
        requires { cpu.0 < length self.old.cpus }
        ensures step { IsStep (state_of self.old) (actors.Cpu cpu) (actions.Store off value) result (state_of self.new) }
        ensures cpus { length self.new.cpus ≡ length self.old.cpus }
    {
        let actor = Actor::Cpu(cpu);
        let action = Action::Store { off, value };
        let processor = &self.cpus[usize::from(cpu.0)];
        match store(&mut self.epc, processor, off, value) {
            Ok(()) => done(actor, action, Answer::Plain),
            Err(refusal) => refused(actor, action, refusal),
        }
    }

    /// A processor adds to a word of its enclave, mod 2^64, and answers the word as it was.
    #[inline(never)]
    pub(crate) fn xadd(&mut self, cpu: Cpu, off: u64, value: u64) -> Entry
        requires { cpu.0 < length self.old.cpus }
        ensures step { IsStep (state_of self.old) (actors.Cpu cpu) (actions.Xadd off value) result (state_of self.new) }
        ensures cpus { length self.new.cpus ≡ length self.old.cpus }
    {
        let actor = Actor::Cpu(cpu);
        let action = Action::Xadd { off, value };
        let processor = &self.cpus[usize::from(cpu.0)];
        match xadd(&mut self.epc, processor, off, value) {
            Ok(old) => done(actor, action, Answer::Value(old)),
            Err(refusal) => refused(actor, action, refusal),
        }
    }
}
