//! Questions to a trace.

ghost use Rattle.std.specs.Prelude.{◌≡◌, ◌<◌, ◌∷◌, [], List, length, IfOk, OnOk, OnErr};
ghost use Rattle.sgx_rules.specs.declared.entries.Entry.{Entry};
ghost use Rattle.flat_words.specs.Words.{word};
ghost use Rattle.trace_places.specs.Places.{place_of};
ghost use Rattle.trace_query.specs.Index.{IndexStands};
ghost use Rattle.trace_query.specs.Moves.{first_entries, moves};
ghost use Rattle.trace_query.specs.Spans.{cachers};

use crate::page_moves::{Move, PageMoves};
use crate::page_spans::PageSpans;
use crate::page_words::PageWords;
use job_grammar::jobs::Job;
use sgx_rules::entries::Entry;
use sgx_types::names::{Cpu, Memory, Page};
use std::alloc::Global;
use trace_places::moves::Where;

/// Entries of a trace that were pushed one by one, any entries at all, and the answers to questions about them: where a page was behind
/// any number of them, which processors cached it and what was in it. A question takes a few looks into hash tables and binary searches,
/// one for each processor where it is on caches. An entry adds at most two moves, a span and two words.
///
/// A page is named by an enclave and a number. The SECS of enclave E is page 4294967295 of E, and the version array page that was made as
/// the K-th, counted from 0, is page K of enclave 0.
#[derive(Drop)]
pub struct Index {
    moves: PageMoves,
    spans: PageSpans,
    words: PageWords,
}

impl Index {
    /// No entry was pushed. Takes the room for the words of the job's pages.
    pub fn new(alloc: Global, job: &Job) -> Result<Index, Memory>
        ensures { IfOk result (λ index. IndexStands index []) }
    {
        Ok(Index {
            moves: PageMoves::new(alloc),
            spans: PageSpans::new(alloc),
            words: PageWords::new(alloc, job)?,
        })
    }

    /// Takes an entry more. Refused memory leaves all as it was; it is refused to the entry behind 2^64 - 1 others too, since there
    /// is no number for its place.
    pub fn push(&mut self, alloc: Global, entry: &Entry) -> Result<(), Memory>
        ensures pushed { OnOk result ((past : List Entry) → IndexStands self.old past → IndexStands self.new (entry.now ∷ past)) }
        ensures refused { OnErr result ((past : List Entry) → IndexStands self.old past → IndexStands self.new past) }
    {
        self.moves.reserve(alloc, entry)?;
        self.spans.reserve(alloc, entry)?;
        self.words.push(alloc, entry)?;
        self.moves.push_reserved(entry);
        self.spans.push_reserved(entry);
        Ok(())
    }

    /// How many entries were pushed.
    pub fn len(&self) -> u64
        ensures { (past : List Entry) → IndexStands self.now past → result ≡ length past }
    {
        self.moves.len()
    }

    /// Where a page was behind the first `n` entries, or behind all where there are fewer.
    pub fn where_is(&self, n: u64, page: Page) -> Where
        ensures { (past : List Entry) → IndexStands self.now past → result ≡ place_of (first_entries n past) page }
    {
        self.moves.where_is(n, page)
    }

    /// The processors that cached a page behind the first `n` entries, or behind all where there are fewer, rising.
    pub fn who_caches(&self, alloc: Global, n: u64, page: Page) -> Result<Vec<Cpu>, Memory>
        ensures { IfOk result (λ cpus. (past : List Entry) → IndexStands self.now past → cpus.items ≡ cachers (first_entries n past) page) }
    {
        self.spans.who_caches(alloc, n, page)
    }

    /// A word of 8 bytes of a page behind the first `n` entries, or behind all where there are fewer, None where the page was not added
    /// before. A SECS and a version array page have no words.
    pub fn word_at(&self, n: u64, page: Page, index: u16) -> Option<u64>
        requires { index < 512 }
        ensures { (past : List Entry) → IndexStands self.now past → result ≡ word (first_entries n past) page index }
    {
        self.words.word_at(n, page, index)
    }

    /// The moves that a page made, oldest first.
    pub fn moves(&self, alloc: Global, page: Page) -> Result<Vec<Move>, Memory>
        ensures { IfOk result (λ steps. (past : List Entry) → IndexStands self.now past → steps.items ≡ moves past page) }
    {
        self.moves.moves(alloc, page)
    }
}
