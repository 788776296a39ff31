//! How each processor is inside an enclave.

ghost use Rattle.std.specs.Prelude.{◌≡◌, ◌==◌, ℕ, if◌then◌else◌, List, None, Option, Some, OnOk};
ghost use Rattle.sgx_rules.specs.declared.entries.Entry.{Entry};
ghost use Rattle.sgx_rules.specs.Processors.{Stay, move_by, is_by, stay_after};
ghost use Rattle.picture_text.specs.Open.{inside};
ghost use Rattle.picture_text.specs.inner.Following.{seat_in};

use crate::events::Span;
use sgx_rules::entries::{Action, Entry, Event};
use sgx_types::names::{Actor, Cpu, Memory};
use std::alloc::Global;
use std::collections::HashMap;

/// The spans that say how processors are inside. One that is outside has none.
#[derive(Drop)]
pub(crate) struct Seats {
    spans: HashMap<u8, Span>,
}

impl Seats {
    /// All are outside.
    pub(crate) fn new(alloc: Global) -> Seats
        ensures { (p : ℕ) → seat_in result p ≡ None }
    {
        Seats {
            spans: HashMap::new(alloc),
        }
    }

    /// How a processor is inside.
    pub(crate) fn of(&self, cpu: Cpu) -> Option<Span>
        ensures { result ≡ seat_in self.now cpu.0 }
    {
        self.spans.get(&cpu.0).copied()
    }

    /// Takes an entry more.
    pub(crate) fn push(&mut self, entry: &Entry) -> Result<(), Memory>
        ensures { OnOk result ((p : ℕ) (past : List Entry) (before : Option Stay) → seat_in self.old p ≡ inside before
            → seat_in self.new p ≡ inside (stay_after (move_by entry.now.event) (is_by p entry.now.actor) past before)) }
    {
        if let Actor::Cpu(cpu) = entry.actor {
            self.turn(cpu, &entry.event)?;
        }
        Ok(())
    }

    fn turn(&mut self, cpu: Cpu, event: &Event) -> Result<(), Memory>
        ensures { OnOk result ((p : ℕ) (past : List Entry) (before : Option Stay) → seat_in self.old p ≡ inside before
            → seat_in self.new p ≡ inside (stay_after (move_by event.now) (cpu.0 == p) past before)) }
    {
        match *event {
            Event::Did {
                action: Action::Enter { enclave, tcs, .. },
                ..
            } => self.enter(cpu, Span::Inside { enclave, tcs }),
            Event::Did {
                action: Action::Resume { enclave, tcs, .. },
                ..
            } => self.enter(cpu, Span::Inside { enclave, tcs }),
            Event::Did {
                action: Action::Exit,
                ..
            } => self.leave(cpu),
            Event::Did {
                action: Action::Aex { .. },
                ..
            } => self.leave(cpu),
            _ => Ok(()),
        }
    }

    fn enter(&mut self, cpu: Cpu, span: Span) -> Result<(), Memory>
        ensures { OnOk result ((p : ℕ) → seat_in self.new p ≡ (if cpu.0 == p then Some span else seat_in self.old p)) }
    {
        self.spans.insert(cpu.0, span)?;
        Ok(())
    }

    fn leave(&mut self, cpu: Cpu) -> Result<(), Memory>
        ensures { (p : ℕ) → seat_in self.new p ≡ (if cpu.0 == p then None else seat_in self.old p) }
    {
        self.spans.remove(&cpu.0);
        Ok(())
    }
}
