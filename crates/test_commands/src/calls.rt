//! Calls of the program over memory, and what they gave.

ghost use Rattle.std.specs.Prelude.{◌≡◌, ◌≤◌, [], IfSome};

use crate::same::are_same;
use audit_check::watch::Watch;
use backing_store::backing::Backing;
use backing_store::calls::{GetAnswer, StoreCall};
use backing_store::planned_store::PlannedStore;
use io_edges::mem_sink::MemSink;
use io_edges::mem_source::MemSource;
use page_commands::command::sgxpage;
use page_commands::ended::Ended;
use page_commands::status::Status;
use run_crew::gate::Gate;
use sgx_types::names::{Actor, Memory};
use std::alloc::{Alloc, Global};
use std::process::Abort;
use std::sync::Wait;
use std::test::Fail;
use std::thread::Threads;

/// The words of a command that runs a job.
pub const RUN: &[&str] = &["run", "t"];

/// A gate that does nothing, and looks at no entry.
#[derive(Drop)]
struct Still;

impl Gate for Still {
    fn before_turn(&self, _who: Actor) {}

    fn after_turn(&self, _who: Actor) {}
}

impl Watch for Still {
    fn judging(&self, _place: usize) {}
}

/// What a call gave: the texts, how many bytes it left of the job and of the old trace, and how often these, the output and the
/// trace failed, and the store.
#[derive(Drop)]
pub struct Given {
    pub status: Status,
    pub out: Vec<u8>,
    pub trace: Vec<u8>,
    pub left: usize,
    pub old_left: usize,
    pub faults: [u64; 4],
    pub store_faults: u64,
}

/// The words of a command line, and the edges of a call: the job, the old trace, the output and the trace.
#[derive(Drop)]
pub struct Edges {
    pub words: Vec<String>,
    pub job: Box<MemSource>,
    pub old: Box<MemSource>,
    pub out: Box<MemSink>,
    pub trace: Box<MemSink>,
}

impl Edges {
    /// Edges that move at most `piece` bytes a call, and fail at their given calls.
    pub fn new(
        alloc: Global,
        words: &[&str],
        texts: [&[u8]; 2],
        piece: usize,
        fails: [&[u64]; 4],
    ) -> Result<Edges, Memory>
        requires { 1 ≤ piece }
    {
        Ok(Edges {
            job: source(alloc, texts[0], piece, fails[0])?,
            old: source(alloc, texts[1], piece, fails[1])?,
            out: sink(alloc, piece, fails[2])?,
            trace: sink(alloc, piece, fails[3])?,
            words: owned(alloc, words)?,
        })
    }

    /// Calls the program by these edges, over this store and this gate.
    pub fn call<R: Threads + Wait + Sync, B: Backing + Send, G: Gate + Watch + Sync>(
        &mut self,
        rt: &R,
        alloc: Global,
        store: B,
        gate: &G,
    ) -> Ended<B>
        requires { IfSome (B.told store) (λ calls. calls ≡ []) }
    {
        sgxpage(
            rt,
            alloc,
            &self.words,
            &mut *self.job,
            &mut *self.old,
            &mut *self.out,
            &mut *self.trace,
            store,
            gate,
        )
    }

    // What a call gave that ended so, with so many faults of its store.
    fn given(&self, alloc: Global, status: Status, store_faults: u64) -> Result<Given, Memory> {
        Ok(Given {
            status,
            out: self.out.bytes().to_vec(alloc)?,
            trace: self.trace.bytes().to_vec(alloc)?,
            left: self.job.left().len(),
            old_left: self.old.left().len(),
            faults: [
                self.job.faults(),
                self.old.faults(),
                self.out.faults(),
                self.trace.faults(),
            ],
            store_faults,
        })
    }
}

/// Calls the program with the words of a command that reads no old trace, as below: the first call of that source would fail. The
/// edges that fail are the job, the output and the trace.
pub fn given_by<R: Threads + Wait + Sync>(
    rt: &R,
    alloc: Global,
    words: &[&str],
    job: &[u8],
    piece: usize,
    fails: [&[u64]; 3],
) -> Result<Box<Given>, Memory>
    requires { 1 ≤ piece }
{
    given_with(
        rt,
        alloc,
        words,
        [job, b""],
        piece,
        [fails[0], &[1], fails[1], fails[2]],
    )
}

/// Calls the program with these words, this job and this old trace, over a store that does what the job plans. Each edge moves at
/// most `piece` bytes a call, and fails at its given calls: those of the job, of the old trace, of the output and of the trace.
pub fn given_with<R: Threads + Wait + Sync>(
    rt: &R,
    alloc: Global,
    words: &[&str],
    texts: [&[u8]; 2],
    piece: usize,
    fails: [&[u64]; 4],
) -> Result<Box<Given>, Memory>
    requires { 1 ≤ piece }
{
    let mut edges = Box::new(alloc, Edges::new(alloc, words, texts, piece, fails)?)?;
    let (status, failed) = ending(rt, alloc, &mut edges);
    Ok(Box::new(alloc, edges.given(alloc, status, failed)?)?)
}

// Calls the program by these edges, over a store that does what the job plans: how that ends, and how many calls of the store failed.
fn ending<R: Threads + Wait + Sync>(rt: &R, alloc: Global, edges: &mut Edges) -> (Status, u64) {
    let ended = edges.call(rt, alloc, PlannedStore::new(), &Still);
    (ended.status, store_faults(&ended.store))
}

// How many calls of a store failed. No store has none.
fn store_faults(store: &Option<PlannedStore>) -> u64 {
    let mut failed = 0u64;
    if let Some(store) = store {
        for call in store.calls() {
            if has_failed(call) {
                failed = failed.wrapping_add(1);
            }
        }
    }
    failed
}

fn has_failed(call: &StoreCall) -> bool {
    match call {
        StoreCall::Room { failed, .. } | StoreCall::Put { failed, .. } => *failed,
        StoreCall::Got { answer, .. } => matches!(answer, GetAnswer::Failed),
    }
}

fn source(alloc: Global, text: &[u8], piece: usize, fails: &[u64]) -> Result<Box<MemSource>, Memory>
    requires { 1 ≤ piece }
{
    Ok(Box::new(alloc, MemSource::new(alloc, text, piece, fails)?)?)
}

fn sink(alloc: Global, piece: usize, fails: &[u64]) -> Result<Box<MemSink>, Memory>
    requires { 1 ≤ piece }
{
    Ok(Box::new(alloc, MemSink::new(alloc, piece, fails)?)?)
}

// Words of a command line.
fn owned(alloc: Global, texts: &[&str]) -> Result<Vec<String>, Memory> {
    let mut words = Vec::new(alloc);
    for text in texts {
        words.push(String::from_str(alloc, text)?)?;
    }
    Ok(words)
}

/// A text of these parts.
pub fn joined(alloc: Global, parts: &[&[u8]]) -> Result<Vec<u8>, Memory> {
    let mut text = Vec::new(alloc);
    for part in parts {
        text.extend_from_slice(part)?;
    }
    Ok(text)
}

/// A call of the program: its words, the job, the old trace, how many bytes an edge moves a call, the calls that fail of the job, of the
/// old trace, of the output and of the trace, and what the program is to give.
#[derive(Clone, Copy)]
pub struct Call<'a> {
    pub words: &'a [&'a str],
    pub job: &'a [u8],
    pub old: &'a [u8],
    pub piece: usize,
    pub fails: [&'a [u64]; 4],
    pub status: Status,
    pub out: &'a [u8],
    pub trace: &'a [u8],
}

/// A run of an empty job, of which no call fails but the first of the old trace, which a run does not read.
pub const RUNS: Call = Call {
    words: RUN,
    job: b"",
    old: b"",
    piece: 100,
    fails: [&[], &[1], &[], &[]],
    status: Status::Done,
    out: b"",
    trace: b"",
};

/// Calls the program, and compares what it gives.
pub fn gives(
    rt: &(impl Abort + Alloc<A = Global> + Threads + Wait + Sync),
    call: &Call,
) -> Result<(), Fail> {
    let given = given_with(
        rt,
        rt.alloc(),
        call.words,
        [call.job, call.old],
        call.piece.max(1),
        call.fails,
    )?;
    compare(rt, &given, call.status, call.out);
    are_same(rt, given.trace.as_slice(), call.trace);
    Ok(())
}

/// Makes each of these calls.
pub fn all_give(
    rt: &(impl Abort + Alloc<A = Global> + Threads + Wait + Sync),
    calls: &[Call],
) -> Result<(), Fail> {
    for call in calls {
        gives(rt, call)?;
    }
    Ok(())
}

/// Compares how a call ended, and its output.
pub fn compare(rt: &impl Abort, given: &Given, status: Status, out: &[u8]) {
    are_same(rt, given.status, status);
    are_same(rt, given.out.as_slice(), out);
}
