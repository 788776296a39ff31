//! One instruction that takes no memory.

ghost use Rattle.std.specs.Prelude.{◌≡◌, length};
ghost use Rattle.sgx_machine.specs.inner.Parts.{state_of};
ghost use Rattle.machine_laws.specs.inner.Steps.{CanApply, IsStep, MayNeedMemory};
ghost use Rattle.driver_rules.specs.inner.Reclaims.{is_refused};
ghost use Rattle.driver_tables.specs.inner.Carried.{Carries};

use sgx_machine::machine::Machine;
use sgx_rules::entries::{Action, Entry, Event};
use sgx_types::names::Actor;
use std::alloc::Global;

/// One instruction, by its row of this project's instruction table. None of `epa` and `create`, which take memory.
pub fn step(alloc: Global, machine: &mut Machine, actor: Actor, action: Action) -> Entry
    requires can { CanApply (length machine.old.cpus) actor action }
    requires sure { MayNeedMemory action → ⊥ }
    ensures step { IsStep (state_of machine.old) actor action result (state_of machine.new) }
    ensures carries { Carries (state_of machine.old) result (state_of machine.new) }
    ensures cpus { length machine.new.cpus ≡ length machine.old.cpus }
{
    match machine.apply(alloc, actor, &action) {
        Ok(entry) => entry,
        Err(_) => unreachable!(),
    }
}

/// Whether an instruction was refused.
pub fn is_refused(entry: &Entry) -> bool
    ensures { result ≡ is_refused entry.now.event }
{
    matches!(entry.event, Event::Refused { .. })
}
