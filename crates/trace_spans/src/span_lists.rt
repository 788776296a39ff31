//! The spans in which processors cached pages, by the places at which they began and ended.

ghost use Rattle.std.specs.Prelude.{◌≡◌, ◌+◌, ◌≤◌, ◌∷◌, [], ℕ, if◌then◌else◌, OnOk, vec_len, vec_capacity};
ghost use Rattle.trace_spans.specs.inner.SpanLists.{same_span_key, spans_in, HasSpanList, HasSpanRoom};
ghost use Rattle.trace_spans.specs.inner.SpanLists.{begun, ended, all_ended, SpansRise, cached_at, is_before, greatest, up_to, Covers};

use sgx_types::names::Memory;
use std::alloc::Global;
use std::collections::HashMap;

/// A processor and a page, as the key of a map.
#[derive(Clone, Copy, PartialEq, Eq, Hash)]
pub struct SpanKey {
    pub cpu: u8,
    pub enclave: u16,
    pub number: u32,
}

/// Cached behind `from` entries, and no more behind `to`. A span that lasts has no end, but the place for it, so to end it takes no
/// memory.
#[derive(Clone, Copy)]
pub struct Span {
    pub from: u64,
    pub to: Option<u64>,
}

/// For each processor and each page the spans in which the one cached the other, oldest first, and the greatest number of a processor
/// that cached any.
#[derive(Drop)]
pub struct SpanLists {
    lists: HashMap<SpanKey, Vec<Span>>,
    last: Option<u8>,
}

impl SpanLists {
    /// Nothing was cached.
    pub fn new(alloc: Global) -> SpanLists
        ensures none { (q : SpanKey) → spans_in result q ≡ [] }
        ensures covers { Covers result }
    {
        SpanLists {
            lists: HashMap::new(alloc),
            last: None,
        }
    }

    /// How many numbers of processors there are up to the greatest one that cached a page.
    pub fn cpus(&self) -> u16
        ensures value { result ≡ up_to self.now.last }
        ensures bound { result ≤ 256 }
    {
        match self.last {
            Some(last) => u16::from(last) + 1,
            None => 0,
        }
    }

    /// Makes room for a span more.
    pub fn reserve(&mut self, alloc: Global, key: SpanKey) -> Result<(), Memory>
        ensures same { (q : SpanKey) → spans_in self.new q ≡ spans_in self.old q }
        ensures covers { Covers self.old → Covers self.new }
        ensures room { OnOk result (HasSpanRoom self.new key) }
    {
        self.begin(alloc, key)?;
        if let Some(list) = self.lists.get_mut(&key) {
            list.reserve(1)?;
        }
        Ok(())
    }

    // Sees to it that there is a list, be it an empty one.
    fn begin(&mut self, alloc: Global, key: SpanKey) -> Result<(), Memory>
        ensures same { (q : SpanKey) → spans_in self.new q ≡ spans_in self.old q }
        ensures last { self.new.last ≡ self.old.last }
        ensures begun { OnOk result (HasSpanList self.new key) }
    {
        if !self.lists.contains_key(&key) {
            self.lists.insert(key, Vec::new(alloc))?;
        }
        Ok(())
    }

    /// A span begins.
    pub fn open_span(&mut self, key: SpanKey, place: u64)
        requires room { HasSpanRoom self.old key }
        ensures spans { (q : SpanKey) → spans_in self.new q
            ≡ (if same_span_key key q then begun place (spans_in self.old q) else spans_in self.old q) }
        ensures covers { Covers self.old → Covers self.new }
    {
        self.last = greatest(self.last, key.cpu);
        if let Some(list) = self.lists.get_mut(&key) {
            add(list, place);
        }
    }

    /// The last span ends, if it lasts.
    pub fn close_span(&mut self, key: SpanKey, place: u64)
        ensures spans { (q : SpanKey) → spans_in self.new q
            ≡ (if same_span_key key q then ended place (spans_in self.old q) else spans_in self.old q) }
        ensures covers { Covers self.old → Covers self.new }
    {
        if let Some(list) = self.lists.get_mut(&key) {
            end(list, place);
        }
    }

    /// The spans of these pages of an enclave end.
    pub fn close_all(&mut self, cpu: u8, enclave: u16, numbers: &[u32], place: u64)
        ensures spans { (q : SpanKey) → spans_in self.new q ≡ all_ended place cpu enclave numbers.now q (spans_in self.old q) }
        ensures covers { Covers self.old → Covers self.new }
    {
        for number in numbers {
            self.close_span(
                SpanKey {
                    cpu,
                    enclave,
                    number: *number,
                },
                place,
            );
        }
    }

    /// Whether the processor cached the page behind so many entries.
    pub fn at(&self, n: u64, key: SpanKey) -> bool
        ensures { SpansRise (spans_in self.now key) → result ≡ cached_at (spans_in self.now key) n }
    {
        match self.lists.get(&key) {
            Some(list) => is_cached(list, n),
            None => false,
        }
    }
}

fn greatest(last: Option<u8>, cpu: u8) -> Option<u8>
    ensures { result ≡ greatest last cpu }
{
    match last {
        Some(last) if cpu <= last => Some(last),
        _ => Some(cpu),
    }
}

fn add(list: &mut Vec<Span>, place: u64)
    requires { vec_len list.old + 1 ≤ vec_capacity list.old }
    ensures { list.new.items ≡ begun place list.old.items }
{
    let kept: Result<_, _> = list.push(Span {
        from: place,
        to: None,
    });
    kept.unwrap();
}

fn end(list: &mut Vec<Span>, place: u64)
    ensures { list.new.items ≡ ended place list.old.items }
{
    let count = list.len();
    if count > 0 && list[count - 1].to.is_none() {
        list[count - 1].to = Some(place);
    }
}

// The spans rise by the places at which they began, so those that began up to a place stand first.
fn is_cached(list: &[Span], n: u64) -> bool
    ensures { SpansRise list.now → result ≡ cached_at list.now n }
{
    let count = list.partition_point(|span| span.from <= n);
    if count == 0 {
        return false;
    }
    is_before(n, list[count - 1].to)
}

fn is_before(n: u64, to: Option<u64>) -> bool
    ensures { result ≡ is_before n to }
{
    match to {
        Some(to) => n < to,
        None => true,
    }
}
