//! Which processors cached pages behind each number of entries of a trace.

ghost use Rattle.std.specs.Prelude.{◌≡◌, ◌+◌, ◌<◌, ◌^◌, ◌∷◌, [], List, length, IfOk, OnOk, OnErr, Some};
ghost use Rattle.sgx_rules.specs.declared.entries.Entry.{Entry};
ghost use Rattle.trace_query.specs.declared.steps.Step.TheVariants as steps;
ghost use Rattle.trace_query.specs.Moves.{first_entries};
ghost use Rattle.trace_query.specs.Spans.{caches, cachers};
ghost use Rattle.trace_spans.specs.declared.span_lists.SpanKey.{SpanKey};
ghost use Rattle.trace_spans.specs.inner.SpanLists.{spans_in, Covers};
ghost use Rattle.trace_query.specs.inner.Seen.{SpansFollow, SpansHaveRoom, HasRoomToStep, SpansStay, SpansMake, ended_if};

use crate::processors::Processors;
use crate::steps::{Step, step_by};
use sgx_rules::entries::Entry;
use sgx_types::names::{Cpu, Memory, Page};
use std::alloc::Global;
use trace_spans::span_lists::{SpanKey, SpanLists};

/// Which processors cached each page along entries that were pushed one by one, any entries at all. A question takes one look into a
/// hash table and one binary search for each processor up to the greatest number of one that cached a page.
#[derive(Drop)]
pub struct PageSpans {
    processors: Processors,
    lists: SpanLists,
    len: u64,
}

impl PageSpans {
    /// No entry was pushed.
    pub fn new(alloc: Global) -> PageSpans
        ensures { SpansFollow result [] }
    {
        PageSpans {
            processors: Processors::new(alloc),
            lists: SpanLists::new(alloc),
            len: 0,
        }
    }

    /// How many entries were pushed.
    pub fn len(&self) -> u64
        ensures len { result ≡ self.now.len }
        ensures entries { (past : List Entry) → SpansFollow self.now past → result ≡ length past }
    {
        self.len
    }

    /// The processors that cached a page behind the first `n` entries, or behind all where there are fewer, rising. The SECS of enclave
    /// E is asked for as page 4294967295 of E.
    pub fn who_caches(&self, alloc: Global, n: u64, page: Page) -> Result<Vec<Cpu>, Memory>
        ensures { IfOk result (λ cpus. (past : List Entry) → SpansFollow self.now past → cpus.items ≡ cachers (first_entries n past) page) }
    {
        let mut cpus = Vec::new(alloc);
        for number in 0..self.lists.cpus() {
            let cpu = number as u8;
            if self.caches(n, cpu, page) {
                cpus.push(Cpu(cpu))?;
            }
        }
        Ok(cpus)
    }

    // Whether a processor cached a page behind the first `n` entries.
    fn caches(&self, n: u64, cpu: u8, page: Page) -> bool
        ensures { (past : List Entry) → SpansFollow self.now past → result ≡ caches (first_entries n past) cpu page }
    {
        self.lists.at(
            n,
            SpanKey {
                cpu,
                enclave: page.enclave,
                number: page.number,
            },
        )
    }

    /// Takes an entry more. Refused memory leaves all as it was; it is refused to the entry behind 2^64 - 1 others too, since there
    /// is no number for its place.
    pub fn push(&mut self, alloc: Global, entry: &Entry) -> Result<(), Memory>
        ensures follows { OnOk result ((past : List Entry) → SpansFollow self.old past → SpansFollow self.new (entry.now ∷ past)) }
        ensures refused { OnErr result ((past : List Entry) → SpansFollow self.old past → SpansFollow self.new past) }
    {
        self.reserve(alloc, entry)?;
        self.push_reserved(entry);
        Ok(())
    }

    /// Takes the memory that `push_reserved` needs for this entry. What is known stays as it was.
    pub fn reserve(&mut self, alloc: Global, entry: &Entry) -> Result<(), Memory>
        ensures same { (past : List Entry) → SpansFollow self.old past → SpansFollow self.new past }
        ensures room { OnOk result (SpansHaveRoom self.new entry.now) }
    {
        if self.len == u64::MAX {
            return Err(Memory);
        }
        self.reserve_step(alloc, step_by(entry))
    }

    /// Takes an entry more. A processor that leaves takes no memory.
    pub fn push_reserved(&mut self, entry: &Entry)
        requires room { SpansHaveRoom self.old entry.now }
        ensures { (past : List Entry) → SpansFollow self.old past → SpansFollow self.new (entry.now ∷ past) }
    {
        self.len += 1;
        self.make(step_by(entry));
    }

    fn reserve_step(&mut self, alloc: Global, step: Option<Step>) -> Result<(), Memory>
        ensures same { SpansStay self.old self.new }
        ensures room { OnOk result (HasRoomToStep self.new step) }
    {
        match step {
            Some(Step::Turns { cpu, to: Some(_) }) => self.processors.begin(alloc, cpu),
            Some(Step::Fills { cpu, number }) => self.reserve_fill(alloc, cpu, number),
            _ => Ok(()),
        }
    }

    fn reserve_fill(&mut self, alloc: Global, cpu: u8, number: u32) -> Result<(), Memory>
        ensures same { SpansStay self.old self.new }
        ensures room { OnOk result (HasRoomToStep self.new (Some (steps.Fills cpu number))) }
    {
        let Some(enclave) = self.processors.enclave(cpu) else {
            return Ok(());
        };
        self.processors.reserve(cpu)?;
        self.lists.reserve(
            alloc,
            SpanKey {
                cpu,
                enclave,
                number,
            },
        )
    }

    // Makes a step at the place behind all entries.
    fn make(&mut self, step: Option<Step>)
        requires room { HasRoomToStep self.old step }
        ensures { SpansMake self.old step self.new }
    {
        match step {
            Some(Step::Turns { cpu, to }) => self.turn(cpu, to),
            Some(Step::Fills { cpu, number }) => self.fill(cpu, number),
            None => {}
        }
    }

    // What the processor cached it caches no more, whether it goes in or out.
    fn turn(&mut self, cpu: u8, to: Option<u16>)
        requires room { HasRoomToStep self.old (Some (steps.Turns cpu to)) }
        ensures { SpansMake self.old (Some (steps.Turns cpu to)) self.new }
    {
        self.processors.close_spans(cpu, &mut self.lists, self.len);
        self.processors.turn(cpu, to);
    }

    fn fill(&mut self, cpu: u8, number: u32)
        requires room { HasRoomToStep self.old (Some (steps.Fills cpu number)) }
        ensures { SpansMake self.old (Some (steps.Fills cpu number)) self.new }
    {
        if let Some(filled) = self.processors.fill(cpu, number) {
            let enclave = filled.enclave;
            self.lists.open_span(
                SpanKey {
                    cpu,
                    enclave,
                    number,
                },
                self.len,
            );
            self.close_dropped(cpu, enclave, filled.dropped);
        }
    }

    fn close_dropped(&mut self, cpu: u8, enclave: u16, dropped: Option<u32>)
        ensures lists { (q : SpanKey) → spans_in self.new.lists q
            ≡ ended_if dropped self.old.len cpu enclave q (spans_in self.old.lists q) }
        ensures covers { Covers self.old.lists → Covers self.new.lists }
        ensures processors { self.new.processors ≡ self.old.processors }
        ensures len { self.new.len ≡ self.old.len }
    {
        if let Some(number) = dropped {
            self.lists.close_span(
                SpanKey {
                    cpu,
                    enclave,
                    number,
                },
                self.len,
            );
        }
    }
}
