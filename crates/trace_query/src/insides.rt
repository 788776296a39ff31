//! Who is inside which enclave behind the entries of a trace so far, and what is cached there.

ghost use Rattle.std.specs.Prelude.{◌≡◌, ◌≤◌, ◌∷◌, [], List, Option, Some, OnOk};
ghost use Rattle.sgx_rules.specs.declared.entries.Entry.{Entry};
ghost use Rattle.trace_query.specs.declared.steps.Step.TheVariants as steps;
ghost use Rattle.trace_query.specs.Spans.{is_entered, is_cached};
ghost use Rattle.trace_query.specs.inner.Insides.{InsidesFollow, InsidesMake};

use crate::processors::Processors;
use crate::steps::{Step, step_by};
use sgx_rules::entries::Entry;
use sgx_types::names::{Memory, Page};
use std::alloc::Global;

/// The enclaves that processors are inside, and the pages that they cache, behind entries that were pushed one by one, any entries at all.
/// A push takes a constant time, and a question one look into a hash table for each processor up to the greatest number of one that
/// entered.
#[derive(Drop)]
pub struct Insides {
    processors: Processors,
    cpus: u16,
}

impl Insides {
    /// No entry was pushed.
    pub fn new(alloc: Global) -> Insides
        ensures { InsidesFollow result [] }
    {
        Insides {
            processors: Processors::new(alloc),
            cpus: 0,
        }
    }

    /// Whether a processor is inside an enclave.
    pub fn is_entered(&self, enclave: u16) -> bool
        ensures { (past : List Entry) → InsidesFollow self.now past → result ≡ is_entered past enclave }
    {
        self.processors.is_entered(self.cpus.min(256), enclave)
    }

    /// Whether a processor caches a page.
    pub fn is_cached(&self, page: Page) -> bool
        ensures { (past : List Entry) → InsidesFollow self.now past → result ≡ is_cached past page }
    {
        self.processors.is_cached(self.cpus.min(256), page)
    }

    /// Takes an entry more.
    pub fn push(&mut self, alloc: Global, entry: &Entry) -> Result<(), Memory>
        ensures { OnOk result ((past : List Entry) → InsidesFollow self.old past → InsidesFollow self.new (entry.now ∷ past)) }
    {
        match step_by(entry) {
            Some(Step::Turns { cpu, to }) => self.turn(alloc, cpu, to),
            Some(Step::Fills { cpu, number }) => self.fill(cpu, number),
            None => Ok(()),
        }
    }

    fn turn(&mut self, alloc: Global, cpu: u8, to: Option<u16>) -> Result<(), Memory>
        ensures { OnOk result (InsidesMake self.old (Some (steps.Turns cpu to)) self.new) }
    {
        if to.is_some() {
            self.processors.begin(alloc, cpu)?;
            self.cpus = self.cpus.max(u16::from(cpu) + 1);
        }
        self.processors.turn(cpu, to);
        Ok(())
    }

    fn fill(&mut self, cpu: u8, number: u32) -> Result<(), Memory>
        ensures { OnOk result (InsidesMake self.old (Some (steps.Fills cpu number)) self.new) }
    {
        if self.processors.enclave(cpu).is_some() {
            self.processors.reserve(cpu)?;
            self.processors.fill(cpu, number);
        }
        Ok(())
    }
}
