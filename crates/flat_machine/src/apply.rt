//! One instruction of flat memory.

ghost use Rattle.std.specs.Prelude.{◌≡◌, true, IfOk, OnOk, OnErr};
ghost use Rattle.sgx_rules.specs.Flat.{is_visible};
ghost use Rattle.flat_machine.specs.inner.Parts.{memory_of};
ghost use Rattle.flat_machine.specs.inner.Step.{IsItsActor, MayNeedMemory, reply_of, step_of};

use crate::build::extend;
use crate::flat::Flat;
use crate::reply::FlatReply;
use sgx_rules::entries::Action;
use sgx_types::names::{Actor, Memory};
use std::alloc::Global;

impl Flat {
    /// One instruction of those that programs see, a processor's by a processor from 0 to 15. It is refused by the first
    /// case of its row in this project's instruction table that holds, of those that no frame, translation or block
    /// decides, and a refusal changes nothing. Else it is done: `init` answers no digest. Memory may be refused to
    /// `create` and `add` alone.
    pub fn apply(
        &mut self,
        alloc: Global,
        actor: Actor,
        action: &Action,
    ) -> Result<FlatReply, Memory>
        requires visible { is_visible action.now ≡ true }
        requires actor { IsItsActor actor action.now }
        ensures reply { IfOk result (λ reply. reply ≡ reply_of (memory_of self.old) actor action.now) }
        ensures memory { OnOk result (memory_of self.new ≡ step_of (memory_of self.old) actor action.now) }
        ensures refused { OnErr result (self.new ≡ self.old) }
        ensures needs { OnErr result (MayNeedMemory action.now) }
    {
        let reply = match (actor, *action) {
            (
                _,
                Action::Create {
                    enclave,
                    base,
                    size,
                    ..
                },
            ) => self.create(alloc, enclave, base, size)?,
            (
                _,
                Action::Add {
                    enclave,
                    number,
                    kind,
                    perm,
                    init,
                    ..
                },
            ) => self.add(alloc, enclave, number, kind, perm, init)?,
            (_, Action::Extend { chunk, .. }) => extend(chunk),
            (_, Action::Init { enclave, .. }) => self.init(enclave),
            (Actor::Cpu(cpu), Action::Enter { enclave, tcs, .. }) => self.enter(cpu, enclave, tcs),
            (Actor::Cpu(cpu), Action::Resume { enclave, tcs, .. }) => self.resume(
                cpu, enclave, tcs,
            ),
            (Actor::Cpu(cpu), Action::Exit) => self.exit(cpu),
            (Actor::Cpu(cpu), Action::Aex { .. }) => self.aex(cpu),
            (Actor::Cpu(cpu), Action::Load { off }) => self.load(cpu, off),
            (Actor::Cpu(cpu), Action::Store { off, value }) => self.store(cpu, off, value),
            (Actor::Cpu(cpu), Action::Xadd { off, value }) => self.xadd(cpu, off, value),
            (Actor::Cpu(cpu), Action::Set { value }) => self.set(cpu, value),
            (Actor::Cpu(cpu), Action::Plus { value }) => self.plus(cpu, value),
            (Actor::Cpu(cpu), Action::Pf { op, off }) => self.fault(cpu, op, off),
            (Actor::Cpu(cpu), Action::OutLoad { .. }) => self.out_load(cpu),
            (Actor::Cpu(cpu), Action::OutStore { .. }) => self.out_store(cpu),
            _ => unreachable!(),
        };
        Ok(reply)
    }
}
