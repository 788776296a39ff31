//! The rows of the accumulator, of page faults, and of accesses from outside.

ghost use Rattle.std.specs.Prelude.{◌≡◌, ◌<◌, length};
ghost use Rattle.sgx_rules.specs.Table.{fault_of};
ghost use Rattle.sgx_types.specs.declared.names.Actor.TheVariants as actors;
ghost use Rattle.sgx_rules.specs.declared.entries.Action.TheVariants as actions;
ghost use Rattle.sgx_machine.specs.inner.Parts.{state_of};
ghost use Rattle.machine_laws.specs.inner.Steps.{IsStep};

use crate::apply::{done, refused};
use crate::machine::{Machine, is_lawful_access};
use enclave_access::outside::{outside_load, outside_store};
use sgx_rules::entries::{AccessOp, Action, Answer, Entry, PfWhy};
use sgx_rules::refusals::Refusal;
use sgx_types::names::{Actor, Cpu, Kind, Perm};

// The instructions that touch no memory: of the accumulator, of a fault that no reload can help, and of an enclave's
// memory from outside.
impl Machine {
    /// The accumulator of a processor inside becomes a number.
    #[inline(never)]
    pub(crate) fn set(&mut self, cpu: Cpu, value: u64) -> Entry
        requires { cpu.0 < length self.old.cpus }
        ensures step { IsStep (state_of self.old) (actors.Cpu cpu) (actions.Set value) result (state_of self.new) }
        ensures cpus { length self.new.cpus ≡ length self.old.cpus }
    {
        let actor = Actor::Cpu(cpu);
        let action = Action::Set { value };
        if !self.mode(cpu).is_inside() {
            return refused(actor, action, Refusal::WrongMode);
        }
        let processor = &mut self.cpus[usize::from(cpu.0)];
        processor.acc = value;
        done(actor, action, Answer::Plain)
    }

    /// A number is added to the accumulator of a processor inside, mod 2^64, and the sum is the answer.
    #[inline(never)]
    pub(crate) fn plus(&mut self, cpu: Cpu, value: u64) -> Entry
        requires { cpu.0 < length self.old.cpus }
        ensures step { IsStep (state_of self.old) (actors.Cpu cpu) (actions.Plus value) result (state_of self.new) }
        ensures cpus { length self.new.cpus ≡ length self.old.cpus }
    {
        let actor = Actor::Cpu(cpu);
        let action = Action::Plus { value };
        if !self.mode(cpu).is_inside() {
            return refused(actor, action, Refusal::WrongMode);
        }
        let processor = &mut self.cpus[usize::from(cpu.0)];
        let sum = processor.acc.wrapping_add(value);
        processor.acc = sum;
        done(actor, action, Answer::Value(sum))
    }

    /// An access of a processor inside cannot succeed, wherever its page is: the answer says why.
    #[inline(never)]
    pub(crate) fn pf(&self, cpu: Cpu, op: AccessOp, off: u64) -> Entry
        requires { cpu.0 < length self.now.cpus }
        ensures { IsStep (state_of self.now) (actors.Cpu cpu) (actions.Pf op off) result (state_of self.now) }
    {
        let actor = Actor::Cpu(cpu);
        let action = Action::Pf { op, off };
        let Some(enclave) = self.mode(cpu).enclave() else {
            return refused(actor, action, Refusal::WrongMode);
        };
        if off % 8 != 0 {
            return refused(actor, action, Refusal::BadRange);
        }
        let added = self.added(enclave, off / 4096);
        if is_lawful_access(added, op) {
            return refused(actor, action, Refusal::NoFault);
        }
        done(actor, action, Answer::Pf(fault(added)))
    }

    /// A processor outside reads an address of an enclave, and gets all ones.
    #[inline(never)]
    pub(crate) fn outload(&self, cpu: Cpu, enclave: u16, off: u64) -> Entry
        requires { cpu.0 < length self.now.cpus }
        ensures { IsStep (state_of self.now) (actors.Cpu cpu) (actions.OutLoad enclave off) result (state_of self.now) }
    {
        let actor = Actor::Cpu(cpu);
        let action = Action::OutLoad { enclave, off };
        match outside_load(&self.cpus[usize::from(cpu.0)]) {
            Ok(word) => done(actor, action, Answer::Value(word)),
            Err(refusal) => refused(actor, action, refusal),
        }
    }

    /// A processor outside writes to an address of an enclave, and nothing happens.
    #[inline(never)]
    pub(crate) fn outstore(&self, cpu: Cpu, enclave: u16, off: u64, value: u64) -> Entry
        requires { cpu.0 < length self.now.cpus }
        ensures { IsStep (state_of self.now) (actors.Cpu cpu) (actions.OutStore enclave off value) result (state_of self.now) }
    {
        let actor = Actor::Cpu(cpu);
        let action = Action::OutStore {
            enclave,
            off,
            value,
        };
        match outside_store(&self.cpus[usize::from(cpu.0)]) {
            Ok(()) => done(actor, action, Answer::Plain),
            Err(refusal) => refused(actor, action, refusal),
        }
    }
}

// Why no reload can help an access, by what its page was added as.
fn fault(added: Option<(Kind, Perm)>) -> PfWhy
    ensures { result ≡ fault_of added }
{
    match added {
        None => PfWhy::Absent,
        Some((Kind::Reg, _)) => PfWhy::NoPerm,
        Some(_) => PfWhy::WrongType,
    }
}
