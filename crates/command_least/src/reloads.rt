//! The reloads that a trace made.

ghost use Rattle.std.specs.Prelude.{◌≡◌, ◌∷◌, List, IfOk, OnOk, reverse};
ghost use Rattle.sgx_rules.specs.declared.entries.Entry.{Entry};
ghost use Rattle.command_least.specs.Accesses.{brings_back, made};
ghost use Rattle.command_least.specs.inner.Reloads.{AreRegs};

use least_reloads::page_set::PageSet;
use sgx_rules::entries::{Action, Answer, Entry, Event};
use sgx_types::names::{Kind, Memory, Page};
use std::alloc::Global;

/// How many done reloads of REG pages there were, by a trace's entries, which stand oldest first. A page that was never added, which
/// no run reloads, is none.
pub fn made(alloc: Global, entries: &[Entry]) -> Result<u64, Memory>
    ensures { IfOk result (λ count. count ≡ made (reverse entries.now)) }
{
    let mut regs = PageSet::new(alloc);
    let mut count: u64 = 0;
    for entry in entries {
        count += u64::from(brings_back(&regs, entry));
        note(&mut regs, entry)?;
    }
    Ok(count)
}

// Whether a page of the set is brought back.
fn brings_back(regs: &PageSet, entry: &Entry) -> bool
    ensures { (past : List Entry) → AreRegs past regs.now → result ≡ brings_back past entry.now.event }
{
    match entry.event {
        Event::Did {
            action: Action::Eld { .. },
            answer: Answer::Moved { page, .. },
        } => regs.contains(page),
        _ => false,
    }
}

// A page that is added has the kind with which it is added from then on.
fn note(regs: &mut PageSet, entry: &Entry) -> Result<(), Memory>
    ensures { OnOk result ((past : List Entry) → AreRegs past regs.old → AreRegs (entry.now ∷ past) regs.new) }
{
    let Event::Did {
        action: Action::Add {
            enclave,
            number,
            kind,
            ..
        },
        ..
    } = entry.event
    else {
        return Ok(());
    };
    let page = Page { enclave, number };
    if kind == Kind::Reg {
        regs.insert(page)?;
    } else {
        regs.remove(page);
    }
    Ok(())
}
