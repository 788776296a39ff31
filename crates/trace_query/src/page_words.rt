//! What the words of pages were behind each number of entries of a trace.

ghost use Rattle.std.specs.Prelude.{◌≡◌, ◌<◌, ◌∷◌, [], true, if◌then◌else◌, List, None, length, IfOk, OnOk, OnErr, slice_index};
ghost use Rattle.sgx_types.specs.declared.lawful.PageInit.TheVariants as inits;
ghost use Rattle.sgx_types.specs.declared.names.Page.{Page};
ghost use Rattle.sgx_rules.specs.declared.entries.Entry.{Entry};
ghost use Rattle.sgx_rules.specs.Flat.{first_words, event_after, accepts, is_visible};
ghost use Rattle.flat_machine.specs.inner.Parts.{memory_of};
ghost use Rattle.flat_machine.specs.inner.Step.{IsItsActor, step_of};
ghost use Rattle.flat_words.specs.Words.{word};
ghost use Rattle.flat_words.specs.Writes.{touched, writes_of, nothing, new_page, page_added};
ghost use Rattle.trace_query.specs.Moves.{first_entries};
ghost use Rattle.trace_query.specs.inner.WordLists.{word_at, changes_in, ChangesRise};
ghost use Rattle.trace_query.specs.inner.Written.{WordsFollow, WordsHaveRoomToNote, WordsHaveRoomIf, HasRoomForPage, WordsStay};
ghost use Rattle.trace_query.specs.inner.Written.{NotesWord, Takes};
ghost use Rattle.trace_query.specs.inner.Written.{AreIndices, IsIndexIf, added_in, added_with, is_asked, is_processor, word_by};

use crate::word_lists::{Change, WordLists};
use flat_machine::flat::Flat;
use flat_machine::reply::FlatReply;
use flat_words::writes::{NewPage, WordAt, Writes};
use job_grammar::jobs::Job;
use sgx_rules::entries::{Action, Entry, Event};
use sgx_types::lawful::PageInit;
use sgx_types::names::{Actor, Memory, PROCESSORS, Page};
use std::alloc::Global;
use std::collections::HashMap;

/// How a page was added: behind how many entries, and with which words.
#[derive(Clone, Copy)]
pub(crate) struct Added {
    pub place: u64,
    pub init: PageInit,
}

/// What flat memory took of an entry: the words that it may have written, and the page that it added.
#[derive(Clone, Copy)]
pub(crate) struct Taken {
    pub writes: Writes,
    pub page: Option<NewPage>,
}

impl Taken {
    /// Nothing changed.
    const NOTHING: Taken = Taken {
        writes: Writes::NONE,
        page: None,
    };
}

/// The words of all TCS and REG pages along entries that were pushed one by one, any entries at all. They are those of memory that is
/// never evicted. A question takes two looks into hash tables and one binary search in the changes of its word.
#[derive(Drop)]
pub struct PageWords {
    flat: Flat,
    added: HashMap<Page, Added>,
    lists: WordLists,
    len: u64,
}

impl PageWords {
    /// No entry was pushed. Takes the room for the words of the job's pages.
    pub fn new(alloc: Global, job: &Job) -> Result<PageWords, Memory>
        ensures { IfOk result (λ known. WordsFollow known []) }
    {
        Ok(PageWords {
            flat: Flat::new(alloc, job)?,
            added: HashMap::new(alloc),
            lists: WordLists::new(alloc),
            len: 0,
        })
    }

    /// How many entries were pushed.
    pub fn len(&self) -> u64
        ensures len { result ≡ self.now.len }
        ensures entries { (past : List Entry) → WordsFollow self.now past → result ≡ length past }
    {
        self.len
    }

    /// A word of 8 bytes of a page behind the first `n` entries, or behind all where there are fewer, None where the page was not added
    /// before. A SECS and a version array page have no words.
    pub fn word_at(&self, n: u64, page: Page, index: u16) -> Option<u64>
        requires { index < 512 }
        ensures { (past : List Entry) → WordsFollow self.now past → result ≡ word (first_entries n past) page index }
    {
        let added = self.added.get(&page).copied();
        self.word_by(n, added, page, index)
    }

    // A word of a page that was added so.
    fn word_by(&self, n: u64, added: Option<Added>, page: Page, index: u16) -> Option<u64>
        requires { index < 512 }
        ensures { ChangesRise (changes_in self.now.lists (word_at page index))
            → result ≡ word_by added (changes_in self.now.lists (word_at page index)) n index }
    {
        let added = added?;
        if n < added.place {
            return None;
        }
        let at = WordAt {
            enclave: page.enclave,
            number: u64::from(page.number),
            index,
        };
        Some(self.lists.at(n, at, first_word(added.init, index)))
    }

    /// Takes an entry more. Refused memory leaves all as it was; it is refused to the entry behind 2^64 - 1 others too, since there
    /// is no number for its place.
    pub fn push(&mut self, alloc: Global, entry: &Entry) -> Result<(), Memory>
        ensures follows { OnOk result ((past : List Entry) → WordsFollow self.old past → WordsFollow self.new (entry.now ∷ past)) }
        ensures refused { OnErr result ((past : List Entry) → WordsFollow self.old past → WordsFollow self.new past) }
    {
        if self.len == u64::MAX {
            return Err(Memory);
        }
        let taken = self.take(alloc, entry)?;
        self.len += 1;
        self.note_page(taken.page);
        self.note_word(taken.writes.first);
        self.note_word(taken.writes.second);
        Ok(())
    }

    // Lets flat memory take an entry, behind room for what that changes.
    fn take(&mut self, alloc: Global, entry: &Entry) -> Result<Taken, Memory>
        ensures takes { IfOk result (λ taken. Takes self.old (event_after entry.now.actor entry.now.event (memory_of self.old.flat))
            (touched (memory_of self.old.flat) entry.now.actor entry.now.event)
            (page_added (memory_of self.old.flat) entry.now.actor entry.now.event) taken self.new) }
        ensures room { IfOk result (λ taken. WordsHaveRoomToNote self.new taken) }
        ensures indices { IfOk result (λ taken. AreIndices taken.writes) }
        ensures refused { OnErr result (WordsStay self.old self.new) }
    {
        match &entry.event {
            Event::Did { action, .. } => self.take_action(alloc, entry.actor, action),
            _ => Ok(Taken::NOTHING),
        }
    }

    fn take_action(&mut self, alloc: Global, actor: Actor, action: &Action) -> Result<Taken, Memory>
        ensures takes { IfOk result (λ taken. Takes self.old (step_of (memory_of self.old.flat) actor action.now)
            (if accepts (memory_of self.old.flat) actor action.now then writes_of (memory_of self.old.flat) actor action.now else nothing)
            (if accepts (memory_of self.old.flat) actor action.now then new_page action.now else None) taken self.new) }
        ensures room { IfOk result (λ taken. WordsHaveRoomToNote self.new taken) }
        ensures indices { IfOk result (λ taken. AreIndices taken.writes) }
        ensures refused { OnErr result (WordsStay self.old self.new) }
    {
        if is_asked(actor, action) {
            self.apply(alloc, actor, action)
        } else {
            Ok(Taken::NOTHING)
        }
    }

    fn apply(&mut self, alloc: Global, actor: Actor, action: &Action) -> Result<Taken, Memory>
        requires visible { is_visible action.now ≡ true }
        requires actor { IsItsActor actor action.now }
        ensures takes { IfOk result (λ taken. Takes self.old (step_of (memory_of self.old.flat) actor action.now)
            (if accepts (memory_of self.old.flat) actor action.now then writes_of (memory_of self.old.flat) actor action.now else nothing)
            (if accepts (memory_of self.old.flat) actor action.now then new_page action.now else None) taken self.new) }
        ensures room { IfOk result (λ taken. WordsHaveRoomToNote self.new taken) }
        ensures indices { IfOk result (λ taken. AreIndices taken.writes) }
        ensures refused { OnErr result (WordsStay self.old self.new) }
    {
        let taken = Taken {
            writes: self.flat.writes(actor, action),
            page: new_page(action),
        };
        self.reserve(alloc, taken)?;
        match self.flat.apply(alloc, actor, action)? {
            FlatReply::Did(_) => Ok(taken),
            FlatReply::Refused(_) => Ok(Taken::NOTHING),
        }
    }

    // Takes the memory that is needed to note this.
    fn reserve(&mut self, alloc: Global, taken: Taken) -> Result<(), Memory>
        ensures same { WordsStay self.old self.new }
        ensures flat { self.new.flat ≡ self.old.flat }
        ensures room { OnOk result (WordsHaveRoomToNote self.new taken) }
    {
        self.reserve_word(alloc, taken.writes.first)?;
        self.reserve_word(alloc, taken.writes.second)?;
        if taken.page.is_some() {
            self.added.reserve(1)?;
        }
        Ok(())
    }

    // Makes room for two changes more of a word, if it is one.
    fn reserve_word(&mut self, alloc: Global, at: Option<WordAt>) -> Result<(), Memory>
        ensures same { WordsStay self.old self.new }
        ensures flat { self.new.flat ≡ self.old.flat }
        ensures room { OnOk result (WordsHaveRoomIf self.new at 2) }
    {
        match at {
            Some(at) => self.lists.reserve(alloc, at),
            None => Ok(()),
        }
    }

    // Notes that a page was added, if it is one, at the place behind all entries.
    fn note_page(&mut self, page: Option<NewPage>)
        requires room { HasRoomForPage self.old page }
        ensures added { (g : Page) → added_in self.new g ≡ added_with page self.old.len g (added_in self.old g) }
        ensures flat { self.new.flat ≡ self.old.flat }
        ensures lists { self.new.lists ≡ self.old.lists }
        ensures len { self.new.len ≡ self.old.len }
    {
        if let Some(page) = page {
            let key = Page {
                enclave: page.enclave,
                number: page.number,
            };
            let kept: Result<_, _> = self.added.insert(
                key,
                Added {
                    place: self.len,
                    init: page.init,
                },
            );
            kept.unwrap();
        }
    }

    // Notes what a word of an added page is now, if it is one, at the place behind all entries.
    fn note_word(&mut self, at: Option<WordAt>)
        requires index { IsIndexIf at }
        requires room { WordsHaveRoomIf self.old at 1 }
        ensures { NotesWord self.old at self.new }
    {
        let Some(at) = at else {
            return;
        };
        if let Some(value) = self.flat.added_word(at) {
            self.lists.push(
                at,
                Change {
                    place: self.len,
                    value,
                },
            );
        }
    }
}

// Whether flat memory can be asked for an instruction.
fn is_asked(actor: Actor, action: &Action) -> bool
    ensures { result ≡ is_asked actor action.now }
{
    match *action {
        Action::Create { .. } | Action::Add { .. } | Action::Extend { .. } | Action::Init { .. } =>
            true,
        Action::Enter { .. }
        | Action::Resume { .. }
        | Action::Exit
        | Action::Aex { .. }
        | Action::Load { .. }
        | Action::Store { .. }
        | Action::Xadd { .. }
        | Action::Set { .. }
        | Action::Plus { .. }
        | Action::Pf { .. }
        | Action::OutLoad { .. }
        | Action::OutStore { .. } => is_processor(actor),
        _ => false,
    }
}

fn is_processor(actor: Actor) -> bool
    ensures { result ≡ is_processor actor }
{
    match actor {
        Actor::Cpu(cpu) => u32::from(cpu.0) < PROCESSORS,
        _ => false,
    }
}

// The page that an instruction adds.
fn new_page(action: &Action) -> Option<NewPage>
    ensures { result ≡ new_page action.now }
{
    match *action {
        Action::Add {
            enclave,
            number,
            init,
            ..
        } => Some(NewPage {
            enclave,
            number,
            init,
        }),
        _ => None,
    }
}

// The word at an index with which a page is added.
fn first_word(init: PageInit, index: u16) -> u64
    requires { index < 512 }
    ensures { result ≡ slice_index (first_words init) index }
{
    match init {
        PageInit::Words(value) => value,
        PageInit::Tcs { ossa, nssa } => state_word(ossa, nssa, index),
    }
}

// .. of a TCS page.
fn state_word(ossa: u32, nssa: u32, index: u16) -> u64
    ensures { result ≡ slice_index (first_words (inits.Tcs ossa nssa)) index }
{
    if index == 2 {
        u64::from(ossa) * 4096
    } else if index == 3 {
        u64::from(nssa) * (1 << 32)
    } else {
        0
    }
}
