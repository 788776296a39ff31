//! The accesses of a trace.

ghost use Rattle.std.specs.Prelude.{◌≡◌, ◌∷◌, ◌++◌, List, map, reverse, IfOk, OnOk};
ghost use Rattle.sgx_rules.specs.declared.entries.Entry.{Entry};
ghost use Rattle.sgx_rules.specs.Processors.{move_by};
ghost use Rattle.command_least.specs.Accesses.{accessed, accesses_of, offset_of};
ghost use Rattle.command_least.specs.inner.Kept.{AreInside, enclave_after, page_of};

use sgx_rules::entries::{Action, Entry, Event};
use sgx_types::names::{Actor, Memory, PAGE_BYTES};
use std::alloc::Global;

/// An access of enclave code to a page: the enclave, and the page's offset from the enclave's base in pages of 4096 bytes. A trace
/// may tell any offset of 8 bytes, so the number may be greater than that of any page that an enclave can have.
#[derive(Clone, Copy, Debug, PartialEq, Eq, Hash)]
pub struct Access {
    pub enclave: u16,
    pub number: u64,
}

// An actor may name one of so many processors.
const CPUS: usize = 1 << 8;

/// The accesses of enclave code that were done, oldest first, by a trace's entries, which stand oldest first too. An access by a
/// processor that is outside, which no run makes, counts for nothing.
pub fn accesses_of(alloc: Global, entries: &[Entry]) -> Result<Vec<Access>, Memory>
    ensures { IfOk result (λ accesses. map page_of accesses.items ≡ accesses_of (reverse entries.now)) }
{
    let mut inside = [None; CPUS];
    let mut accesses = Vec::new(alloc);
    for entry in entries {
        note(*entry, &mut inside, &mut accesses)?;
    }
    Ok(accesses)
}

// Notes the access of an entry, and where its processor is behind it.
fn note(
    entry: Entry,
    inside: &mut [Option<u16>; CPUS],
    accesses: &mut Vec<Access>,
) -> Result<(), Memory>
    ensures inside { OnOk result ((past : List Entry) → AreInside past inside.old → AreInside (entry ∷ past) inside.new) }
    ensures accesses { OnOk result ((past : List Entry) → AreInside past inside.old
        → map page_of accesses.new.items ≡ map page_of accesses.old.items ++ accessed past entry.actor entry.event) }
{
    let Actor::Cpu(cpu) = entry.actor else {
        return Ok(());
    };
    let p = usize::from(cpu.0);
    let before = inside[p];
    inside[p] = enclave_after(&entry.event, before);
    let (Some(enclave), Some(off)) = (before, offset_of(&entry.event)) else {
        return Ok(());
    };
    accesses.push(Access {
        enclave,
        number: off / PAGE_BYTES,
    })?;
    Ok(())
}

// The offset of a done access.
fn offset_of(event: &Event) -> Option<u64>
    ensures { result ≡ offset_of event.now }
{
    match event {
        Event::Did {
            action: Action::Load { off } | Action::Store { off, .. } | Action::Xadd { off, .. },
            ..
        } => Some(*off),
        _ => None,
    }
}

// The enclave that a processor is inside after what it did.
fn enclave_after(event: &Event, before: Option<u16>) -> Option<u16>
    ensures { result ≡ enclave_after (move_by event.now) before }
{
    match event {
        Event::Did {
            action: Action::Enter { enclave, .. } | Action::Resume { enclave, .. },
            ..
        } => Some(*enclave),
        Event::Did {
            action: Action::Exit | Action::Aex { .. },
            ..
        } => None,
        _ => before,
    }
}
