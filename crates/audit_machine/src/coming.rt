//! The end of a load.

ghost use Rattle.std.specs.Prelude.{◌≡◌, true, IfOk, OnErr, length};
ghost use Rattle.audit_machine.specs.inner.Asked.{IsDoneBack, Takes, TakesBack};
ghost use Rattle.audit_machine.specs.inner.Reasons.{is_unfit, other_number};
ghost use Rattle.machine_laws.specs.inner.State.{making_of};
ghost use Rattle.machine_laws.specs.inner.Steps.{CanBring, refused_by};
ghost use Rattle.sgx_machine.specs.inner.Parts.{state_of};
ghost use Rattle.sgx_rules.specs.declared.entries.Action.TheVariants as actions;
ghost use Rattle.sgx_rules.specs.Table.{is_loading};

use crate::rivals::first_broken;
use crate::same::same_end;
use history_rules::rules::Rule;
use seal_record::unseal::{UnsealWork, UnsealedWork, unseal};
use sgx_machine::machine::Machine;
use sgx_rules::entries::Entry;
use sgx_rules::refusals::Refusal;
use sgx_types::names::{Actor, Frame, Memory};
use sgx_types::record::{Header, Record};
use std::alloc::Global;

/// Asks a machine for the `eld` of an entry that tells that it was done, where `work` is the record with which the page went out last that
/// the frame waits for, opened. Takes no SHA-256, since the work was opened before. None where the machine makes this very entry; else
/// the rule that it breaks first. A version array page for which the frame waits is in no frame, as it is where `work` is its own record
/// (`own_records_can_come`).
pub fn bring(machine: &mut Machine, entry: &Entry, frame: Frame, work: UnsealedWork) -> Option<Rule>
    requires coming { is_loading ((state_of machine.old).content frame.0) ≡ true }
    requires can_bring { CanBring (state_of machine.old) frame.0 }
    requires done { IsDoneBack entry.now.event frame }
    ensures takes { TakesBack (state_of machine.old) entry.now frame work.rec (state_of machine.new) result }
    ensures making { making_of (state_of machine.new) ≡ making_of (state_of machine.old) }
    ensures cpus { length machine.new.cpus ≡ length machine.old.cpus }
{
    let made = machine.eld_commit(entry.actor, frame, work);
    if same_end(&entry.event, &made.event) {
        return None;
    }
    Some(first_broken(entry, &made))
}

/// Asks a machine for an `eld` that was refused for this reason. Which record was given the entry does not tell, so the machine is given
/// one that it refuses too. None where the reason can be right: the two tags that it tells differ, or the header that it tells is not the
/// page's; then the frame is free, and the slot keeps its version. Else Refusal is broken.
///
/// Refused memory leaves the machine as it was.
pub fn turn_away(
    alloc: Global,
    machine: &mut Machine,
    actor: Actor,
    frame: Frame,
    why: &Refusal,
) -> Result<Option<Rule>, Memory>
    requires coming { is_loading ((state_of machine.old).content frame.0) ≡ true }
    ensures takes { IfOk result (Takes (state_of machine.old) (refused_by actor (actions.Eld frame) why.now) (state_of machine.new)) }
    ensures making { making_of (state_of machine.new) ≡ making_of (state_of machine.old) }
    ensures cpus { length machine.new.cpus ≡ length machine.old.cpus }
    ensures refused { OnErr result (machine.new ≡ machine.old) }
{
    let own = machine.coming_header(frame);
    if !is_unfit(&own, why) {
        return Ok(Some(Rule::Refusal));
    }
    let mut other = UnsealWork::new(alloc, of_other_page(alloc, &own)?)?;
    machine.unseal_input(frame, &mut other);
    let opened = unseal(other);
    machine.eld_commit(actor, frame, opened);
    Ok(None)
}

// Whether a record can have been refused for this reason of which the header was to be this one.
fn is_unfit(own: &Header, why: &Refusal) -> bool
    ensures { result ≡ is_unfit own.now why.now }
{
    match *why {
        Refusal::MacFail { given, computed } => given != computed,
        Refusal::BadHeader {
            enclave,
            address,
            flags,
        } => {
            *own != Header {
                enclave,
                address,
                flags,
            }
        }
        _ => false,
    }
}

// A record with another header.
fn of_other_page(alloc: Global, own: &Header) -> Result<Record, Memory>
    ensures { IfOk result (λ rec. rec.header.enclave ≡ other_number own.now.enclave) }
{
    let header = Header {
        enclave: other_number(own.enclave),
        address: own.address,
        flags: own.flags,
    };
    Ok(Record {
        header,
        cipher: vec![in alloc; 0; 4096]?,
        tag: [0; 32],
    })
}

fn other_number(number: u64) -> u64
    ensures { result ≡ other_number number }
{
    if number == 0 { 1 } else { 0 }
}
