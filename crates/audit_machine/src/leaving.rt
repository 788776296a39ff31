//! The end of a write-out.

ghost use Rattle.std.specs.Prelude.{◌≡◌, IfOk, OnErr, Some, length};
ghost use Rattle.audit_machine.specs.inner.Asked.{TakesOut, tells_secs};
ghost use Rattle.machine_laws.specs.inner.State.{making_of};
ghost use Rattle.sgx_machine.specs.inner.Parts.{state_of};
ghost use Rattle.sgx_rules.specs.declared.entries.Action.TheVariants as actions;
ghost use Rattle.script_rules.specs.Script.{action_of};

use crate::rivals::first_broken;
use crate::same::same_end;
use history_rules::rules::Rule;
use seal_record::seal::{SealWork, seal};
use seal_record::unseal::{UnsealWork, UnsealedWork, unseal};
use sgx_machine::machine::Machine;
use sgx_rules::entries::{Answer, Entry, Event};
use sgx_types::names::{Frame, Memory, SECS_NUMBER};
use sgx_types::record::Record;
use std::alloc::Global;

/// What came of the end of a write-out.
#[derive(Drop)]
pub enum Out {
    /// The entry breaks this rule first.
    Broken(Rule),

    /// The page is out, with this record, opened.
    Gone(UnsealedWork),
}

/// Asks a machine for the `ewb` of an entry: the page in the frame is sealed, in the time of the SHA-256 of its 4096 bytes. The record is
/// answered opened, as it is needed when the page comes back. That of a SECS is opened anew, since the machine seals a SECS anew. Refused
/// memory leaves the machine as it was.
pub fn ask_out(
    alloc: Global,
    machine: &mut Machine,
    entry: &Entry,
    frame: Frame,
) -> Result<Out, Memory>
    requires own { action_of entry.now.event ≡ Some (actions.Ewb frame) }
    ensures takes { IfOk result (TakesOut (state_of machine.old) entry.now frame (state_of machine.new)) }
    ensures making { making_of (state_of machine.new) ≡ making_of (state_of machine.old) }
    ensures cpus { length machine.new.cpus ≡ length machine.old.cpus }
    ensures refused { OnErr result (machine.new ≡ machine.old) }
{
    if !machine.is_leaving(frame) {
        return Ok(Out::Broken(Rule::Refusal));
    }
    let mut room = SealWork::new(alloc)?;
    let mut plain = vec![in alloc; 0; 4096]?;
    machine.seal_input(frame, &mut room);
    let work = seal(room);
    plain.copy_from_slice(&work.plain);
    let key = work.key;
    let version = work.version;
    let (made, rec) = machine.ewb_commit(entry.actor, frame, work);
    if !same_end(&entry.event, &made.event) {
        return Ok(Out::Broken(first_broken(entry, &made)));
    }
    if tells_secs(&made.event) {
        return Ok(Out::Gone(unseal(UnsealWork {
            key,
            version,
            rec,
            space: plain,
        })));
    }
    let computed = tag_in(&rec);
    Ok(Out::Gone(UnsealedWork {
        key,
        version,
        rec,
        plain,
        computed,
    }))
}

// Whether an event tells of a page that has a SECS's number.
fn tells_secs(event: &Event) -> bool
    ensures { result ≡ tells_secs event.now }
{
    match *event {
        Event::Did {
            answer: Answer::Moved { page, .. },
            ..
        } => page.number == SECS_NUMBER,
        _ => false,
    }
}

// The tag that a record carries.
fn tag_in(rec: &Record) -> [u8; 32]
    ensures { result ≡ rec.now.tag }
{
    rec.tag
}
