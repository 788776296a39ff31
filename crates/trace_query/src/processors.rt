//! Of each processor its enclave, and the numbers of the pages that it caches.

ghost use Rattle.std.specs.Prelude.{◌≡◌, ◌+◌, ◌≤◌, ◌++◌, ◌∷◌, [], ℕ, if◌then◌else◌, OnOk, IfSome, IsSome, Some, ◌==◌};
ghost use Rattle.std.specs.Prelude.{vec_len, vec_capacity};
ghost use Rattle.trace_spans.specs.declared.span_lists.SpanKey.{SpanKey};
ghost use Rattle.trace_query.specs.inner.Insides.{is_in, sees, entered_below, cached_below};
ghost use Rattle.trace_spans.specs.inner.SpanLists.{spans_in, ended_of, Covers};
ghost use Rattle.trace_query.specs.inner.Sights.{
  outside,
  sight_of,
  sight_in,
  is_among,
  newest,
  dropped,
  filled,
  sight_filled,
  HasPlace,
  HasRoomFor,
};

use sgx_types::names::{Memory, Page};
use std::alloc::Global;
use std::collections::HashMap;
use trace_spans::span_lists::SpanLists;

/// How many translations a processor caches at most.
const HELD: usize = 64;

/// The enclave that a processor is inside, and the page numbers that it holds there, oldest first.
#[derive(Drop)]
pub(crate) struct Processor {
    pub enclave: Option<u16>,
    pub numbers: Vec<u32>,
}

/// A fill that changed a cache: the enclave of the page, and the number that went for it, if one did.
#[derive(Clone, Copy)]
pub(crate) struct Filled {
    pub enclave: u16,
    pub dropped: Option<u32>,
}

impl Processor {
    fn turn(&mut self, to: Option<u16>)
        ensures { sight_of (Some self.new) ≡ record { enclave = to; numbers = [] } }
    {
        self.enclave = to;
        self.numbers.clear();
    }

    fn fill(&mut self, number: u32) -> Option<Filled>
        requires { IfSome self.old.enclave (λ enclave. vec_len self.old.numbers + 1 ≤ vec_capacity self.old.numbers) }
        ensures sight { sight_of (Some self.new) ≡ sight_filled number (sight_of (Some self.old)) }
        ensures change { result ≡ filled (sight_of (Some self.old)) number }
    {
        let enclave = self.enclave?;
        if is_among(&self.numbers, number) {
            return None;
        }
        Some(Filled {
            enclave,
            dropped: keep(&mut self.numbers, number),
        })
    }
}

fn is_among(numbers: &[u32], number: u32) -> bool
    ensures { result ≡ is_among numbers.now number }
{
    for n in numbers {
        if *n == number {
            return true;
        }
    }
    false
}

// Where one more is held than can be, the oldest goes.
fn keep(numbers: &mut Vec<u32>, number: u32) -> Option<u32>
    requires { vec_len numbers.old + 1 ≤ vec_capacity numbers.old }
    ensures numbers { numbers.new.items ≡ newest (numbers.old.items ++ number ∷ []) }
    ensures dropped { result ≡ dropped (numbers.old.items ++ number ∷ []) }
{
    let kept: Result<_, _> = numbers.push(number);
    kept.unwrap();
    if numbers.len() <= HELD {
        return None;
    }
    Some(numbers.remove(0))
}

/// The processors that were inside an enclave.
#[derive(Drop)]
pub(crate) struct Processors {
    processors: HashMap<u8, Processor>,
}

impl Processors {
    /// All are outside.
    pub(crate) fn new(alloc: Global) -> Processors
        ensures { (p : ℕ) → sight_in result p ≡ outside }
    {
        Processors {
            processors: HashMap::new(alloc),
        }
    }

    /// The enclave that a processor is inside.
    pub(crate) fn enclave(&self, cpu: u8) -> Option<u16>
        ensures { result ≡ (sight_in self.now cpu).enclave }
    {
        match self.processors.get(&cpu) {
            Some(processor) => processor.enclave,
            None => None,
        }
    }

    // Whether a processor is inside an enclave.
    fn is_in(&self, cpu: u8, enclave: u16) -> bool
        ensures { result ≡ is_in (sight_in self.now cpu).enclave enclave }
    {
        self.enclave(cpu) == Some(enclave)
    }

    // Whether a processor caches a page.
    fn sees(&self, cpu: u8, page: Page) -> bool
        ensures { result ≡ sees (sight_in self.now cpu) page.enclave page.number }
    {
        match self.processors.get(&cpu) {
            Some(processor) => {
                processor.enclave == Some(page.enclave) && is_among(&processor.numbers, page.number)
            }
            None => false,
        }
    }

    /// Whether one of the processors below a number is inside an enclave.
    pub(crate) fn is_entered(&self, cpus: u16, enclave: u16) -> bool
        requires { cpus ≤ 256 }
        ensures { result ≡ entered_below cpus self.now enclave }
    {
        let mut found = false;
        for cpu in 0..cpus {
            found = found || self.is_in(cpu as u8, enclave);
        }
        found
    }

    /// Whether one of the processors below a number caches a page.
    pub(crate) fn is_cached(&self, cpus: u16, page: Page) -> bool
        requires { cpus ≤ 256 }
        ensures { result ≡ cached_below cpus self.now page }
    {
        let mut found = false;
        for cpu in 0..cpus {
            found = found || self.sees(cpu as u8, page);
        }
        found
    }

    /// Makes a place for a processor.
    pub(crate) fn begin(&mut self, alloc: Global, cpu: u8) -> Result<(), Memory>
        ensures same { (p : ℕ) → sight_in self.new p ≡ sight_in self.old p }
        ensures begun { OnOk result (HasPlace self.new cpu) }
    {
        if !self.processors.contains_key(&cpu) {
            self.processors.insert(
                cpu,
                Processor {
                    enclave: None,
                    numbers: Vec::new(alloc),
                },
            )?;
        }
        Ok(())
    }

    /// Makes room for a number more of a processor that is inside.
    pub(crate) fn reserve(&mut self, cpu: u8) -> Result<(), Memory>
        requires { IsSome (sight_in self.old cpu).enclave }
        ensures same { (p : ℕ) → sight_in self.new p ≡ sight_in self.old p }
        ensures room { OnOk result (HasRoomFor self.new cpu) }
    {
        if let Some(processor) = self.processors.get_mut(&cpu) {
            processor.numbers.reserve(1)?;
        }
        Ok(())
    }

    /// The spans end of all that a processor caches.
    pub(crate) fn close_spans(&self, cpu: u8, lists: &mut SpanLists, place: u64)
        ensures spans { (q : SpanKey) → spans_in lists.new q
            ≡ ended_of (sight_in self.now cpu).enclave place cpu (sight_in self.now cpu).numbers q (spans_in lists.old q) }
        ensures covers { Covers lists.old → Covers lists.new }
    {
        if let Some(processor) = self.processors.get(&cpu)
            && let Some(enclave) = processor.enclave
        {
            lists.close_all(cpu, enclave, &processor.numbers, place);
        }
    }

    /// A processor goes into an enclave, or out of all.
    pub(crate) fn turn(&mut self, cpu: u8, to: Option<u16>)
        requires { IfSome to (λ enclave. HasPlace self.old cpu) }
        ensures { (p : ℕ) → sight_in self.new p ≡ (if cpu == p then record { enclave = to; numbers = [] } else sight_in self.old p) }
    {
        if let Some(processor) = self.processors.get_mut(&cpu) {
            processor.turn(to);
        }
    }

    /// A processor fills a translation. Outside, or where the number is held, nothing changes.
    pub(crate) fn fill(&mut self, cpu: u8, number: u32) -> Option<Filled>
        requires { IfSome (sight_in self.old cpu).enclave (λ enclave. HasRoomFor self.old cpu) }
        ensures sights { (p : ℕ) → sight_in self.new p
            ≡ (if cpu == p then sight_filled number (sight_in self.old p) else sight_in self.old p) }
        ensures change { result ≡ filled (sight_in self.old cpu) number }
    {
        let processor = self.processors.get_mut(&cpu)?;
        processor.fill(number)
    }
}
