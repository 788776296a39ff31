//! The instructions but the ends of starts.

ghost use Rattle.std.specs.Prelude.{◌≡◌, IfOk, OnErr, None, Some, length};
ghost use Rattle.audit_machine.specs.inner.Asked.{Takes};
ghost use Rattle.machine_laws.specs.inner.State.{making_of};
ghost use Rattle.machine_laws.specs.inner.Steps.{CanApply, CanMove, IsStep, MayNeedMemory};
ghost use Rattle.sgx_machine.specs.inner.Parts.{state_of};
ghost use Rattle.script_rules.specs.Script.{action_of};

use crate::rivals::first_broken;
use crate::same::same_end;
use history_rules::rules::Rule;
use sgx_machine::machine::Machine;
use sgx_rules::entries::{Action, Entry};
use sgx_types::names::Memory;
use std::alloc::Global;

/// Asks a machine for the instruction of an entry. None where it makes this very entry, which then keeps each rule of the machine; else the
/// rule that the entry breaks first, and nothing is said of the machine any more. Memory may be refused to `epa` and `create` alone. Fewer
/// than 2^32 version array pages were made.
pub fn ask(
    alloc: Global,
    machine: &mut Machine,
    entry: &Entry,
    action: &Action,
) -> Result<Option<Rule>, Memory>
    requires own { action_of entry.now.event ≡ Some action.now }
    requires asked { CanApply (length machine.old.cpus) entry.now.actor action.now }
    requires moves { CanMove (state_of machine.old) action.now }
    ensures takes { IfOk result (Takes (state_of machine.old) entry.now (state_of machine.new)) }
    ensures step { IfOk result (λ broken. broken ≡ None
        → IsStep (state_of machine.old) entry.now.actor action.now entry.now (state_of machine.new)) }
    ensures making { making_of (state_of machine.new) ≡ making_of (state_of machine.old) }
    ensures cpus { length machine.new.cpus ≡ length machine.old.cpus }
    ensures memory { OnErr result (MayNeedMemory action.now) }
    ensures refused { OnErr result (machine.new ≡ machine.old) }
{
    let made = machine.apply(alloc, entry.actor, action)?;
    if same_end(&entry.event, &made.event) {
        return Ok(None);
    }
    Ok(Some(first_broken(entry, &made)))
}
