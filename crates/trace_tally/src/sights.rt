//! What an entry is to the tally, by the entries before it.

ghost use Rattle.std.specs.Prelude.{◌≡◌, ◌||◌, ◌∷◌, [], List, OnOk};
ghost use Rattle.least_reloads.specs.Plans.{has};
ghost use Rattle.sgx_rules.specs.declared.entries.Entry.{Entry};
ghost use Rattle.sgx_types.specs.declared.names.Page.{Page};
ghost use Rattle.sgx_rules.specs.Frames.{is_this};
ghost use Rattle.trace_tally.specs.Tests.{back_by, blocked_by, is_again, is_odd, is_page_entered, is_page_cached, is_refused_paging};
ghost use Rattle.trace_tally.specs.Tests.{is_spent_number, is_paging};
ghost use Rattle.trace_tally.specs.Tests.{tenant_page};
ghost use Rattle.trace_tally.specs.inner.Sights.{is_blocked_entered, seen, Knows};

use crate::blocks::{Blocks, blocked_by, untracked_by};
use crate::counts::Seen;
use least_reloads::page_set::PageSet;
use sgx_rules::entries::{Action, Answer, Entry, Event};
use sgx_rules::refusals::Refusal;
use sgx_types::names::{Frame, Memory, Page};
use std::alloc::Global;
use trace_places::change::Tenant;
use trace_places::places::Places;
use trace_query::insides::Insides;

/// What the tests of the tally ask, along entries that were pushed one by one, any entries at all: where pages are, who is inside, what
/// befell frames since they were blocked, and which pages came back.
#[derive(Drop)]
pub(crate) struct Sights {
    places: Places,
    insides: Insides,
    blocks: Blocks,
    back: PageSet,
}

impl Sights {
    /// No entry was pushed.
    pub(crate) fn new(alloc: Global) -> Sights
        ensures { Knows result [] }
    {
        Sights {
            places: Places::new(alloc),
            insides: Insides::new(alloc),
            blocks: Blocks::new(alloc),
            back: PageSet::new(alloc),
        }
    }

    /// What the next entry is.
    pub(crate) fn look(&self, event: &Event) -> Seen
        ensures { (past : List Entry) → Knows self.now past → result ≡ seen past event.now }
    {
        let mut seen = Seen {
            written: false,
            entered: false,
            cached: false,
            reloaded: false,
            again: self.is_again(event),
            odd: self.is_odd(event),
        };
        if let Event::Did { action, .. } = event {
            match action {
                Action::Block { frame } => seen.cached = self.is_cached(*frame),
                Action::Ewb { frame } => {
                    seen.written = true;
                    seen.entered = self.blocks.of(*frame).entered;
                }
                Action::Eld { .. } => seen.reloaded = true,
                _ => {}
            }
        }
        seen
    }

    /// Takes an entry more.
    pub(crate) fn push(&mut self, alloc: Global, entry: &Entry) -> Result<(), Memory>
        ensures { OnOk result ((past : List Entry) → Knows self.old past → Knows self.new (entry.now ∷ past)) }
    {
        let is_entered = self.is_blocked_entered(&entry.event);
        self.blocks.push(&entry.event, is_entered)?;
        note_back(&mut self.back, &entry.event)?;
        self.insides.push(alloc, entry)?;
        self.places.push(alloc, entry)?;
        Ok(())
    }

    // Whether a processor is inside the enclave of the page of the frame that is blocked, if one is.
    fn is_blocked_entered(&self, event: &Event) -> bool
        ensures { (past : List Entry) → Knows self.now past → result ≡ is_blocked_entered past (blocked_by event.now) }
    {
        match blocked_by(event) {
            Some(frame) => self.is_entered(frame),
            None => false,
        }
    }

    // Whether a processor is inside the enclave of a frame's page.
    fn is_entered(&self, frame: Frame) -> bool
        ensures { (past : List Entry) → Knows self.now past → result ≡ is_page_entered past (tenant_page past frame.0) }
    {
        match self.page(frame) {
            Some(page) => self.insides.is_entered(page.enclave),
            None => false,
        }
    }

    // Whether a processor caches a frame's page.
    fn is_cached(&self, frame: Frame) -> bool
        ensures { (past : List Entry) → Knows self.now past → result ≡ is_page_cached past (tenant_page past frame.0) }
    {
        match self.page(frame) {
            Some(page) => self.insides.is_cached(page),
            None => false,
        }
    }

    // The page that a frame has or awaits.
    fn page(&self, frame: Frame) -> Option<Page>
        ensures { (past : List Entry) → Knows self.now past → result ≡ tenant_page past frame.0 }
    {
        match self.places.tenant(frame)? {
            Tenant::Has(page) | Tenant::Awaits(page) => Some(page),
        }
    }

    // Whether a page is reloaded that was reloaded before.
    fn is_again(&self, event: &Event) -> bool
        ensures { (past : List Entry) → Knows self.now past → result ≡ is_again past event.now }
    {
        match back_by(event) {
            Some(page) => self.back.contains(page),
            None => false,
        }
    }

    // Whether a right driver is never refused so.
    fn is_odd(&self, event: &Event) -> bool
        ensures { (past : List Entry) → Knows self.now past → result ≡ is_odd past event.now }
    {
        match untracked_by(event) {
            Some(frame) => self.blocks.of(frame).untracked >= 2,
            None => is_refused_paging(event),
        }
    }
}

// Notes the page that comes back, if one does.
fn note_back(back: &mut PageSet, event: &Event) -> Result<(), Memory>
    ensures { OnOk result ((g : Page) → has back.new g ≡ (is_this (back_by event.now) g || has back.old g)) }
{
    if let Some(page) = back_by(event) {
        back.insert(page)?;
    }
    Ok(())
}

// The page that comes back.
fn back_by(event: &Event) -> Option<Page>
    ensures { result ≡ back_by event.now }
{
    match event {
        Event::Did {
            action: Action::Eld { .. },
            answer: Answer::Moved { page, .. },
        } => Some(*page),
        _ => None,
    }
}

fn is_refused_paging(event: &Event) -> bool
    ensures { result ≡ is_refused_paging event.now }
{
    match event {
        Event::Refused { action, why } => is_paging(action) && !is_spent(why),
        _ => false,
    }
}

fn is_paging(action: &Action) -> bool
    ensures { result ≡ is_paging action.now }
{
    matches!(
        action,
        Action::Block { .. }
            | Action::Track { .. }
            | Action::EwbStart { .. }
            | Action::EldStart { .. }
            | Action::Eld { .. }
    )
}

// Whether the processor's numbers are spent.
fn is_spent(why: &Refusal) -> bool
    ensures { result ≡ is_spent_number why.now }
{
    matches!(why, Refusal::EpochSpent | Refusal::VersionSpent)
}
