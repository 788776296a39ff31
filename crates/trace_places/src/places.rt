//! Where pages are behind the entries that were pushed.

ghost use Rattle.std.specs.Prelude.{◌≡◌, ◌≤◌, ◌∷◌, [], Some, List, IfOk, OnOk, OnErr, option_to_list};
ghost use Rattle.sgx_rules.specs.declared.entries.Entry.{Entry};
ghost use Rattle.sgx_types.specs.declared.names.Page.{Page};
ghost use Rattle.trace_places.specs.Places.{page_at_frame, place_of, moved, moved_by, tenant, version_by};
ghost use Rattle.trace_places.specs.Moves.{moves_of, AreMovesOf};
ghost use Rattle.trace_places.specs.inner.Tables.{place_in, seen_in, move_in, Stands, PlacesHaveRoom, HasRoomToMake, MakesChange};
ghost use Rattle.trace_places.specs.inner.Tables.{pages_in, may_move, tenant_in, gone_in};
ghost use Rattle.std.specs.HashMap.{spare};
ghost use Rattle.trace_places.specs.declared.change.Change.TheVariants as changes;

use crate::change::{Change, Gone, Tenant, change_by, other_than, va_after};
use crate::frame_lists::FrameLists;
use crate::moves::{MayMove, Moves, PageMove, Where, same_where};
use sgx_rules::entries::Entry;
use sgx_types::names::{Frame, Memory, Page};
use std::alloc::Global;
use std::collections::HashMap;

/// Where each page is behind entries that were pushed one by one, any entries at all. A push and a question take a time that grows
/// with the number of frames that have or await one page, and with nothing else: in a trace that keeps the rules that is one frame
/// at most.
#[derive(Drop)]
pub struct Places {
    tenants: HashMap<u32, Tenant>,
    frames: FrameLists,
    gone: HashMap<Page, u64>,
    next_va: Option<u32>,
}

impl Places {
    /// No entry was pushed.
    pub fn new(alloc: Global) -> Places
        ensures { Stands result [] }
    {
        Places {
            tenants: HashMap::new(alloc),
            frames: FrameLists::new(alloc),
            gone: HashMap::new(alloc),
            next_va: Some(0),
        }
    }

    /// Where a page is. The SECS of enclave E is asked for as page 4294967295 of E, and the version array page that was made as the
    /// K-th, counted from 0, as page K of enclave 0.
    pub fn where_is(&self, page: Page) -> Where
        ensures tables { result ≡ place_in self.now page }
        ensures place { (past : List Entry) → Stands self.now past → result ≡ place_of past page }
    {
        if let Some(frame) = self.frames.least(Tenant::Has(page)) {
            return Where::At(Frame(frame));
        }
        if let Some(frame) = self.frames.least(Tenant::Awaits(page)) {
            return Where::Loading(Frame(frame));
        }
        match self.gone.get(&page) {
            Some(version) => Where::Sealed { version: *version },
            None => Where::Nowhere,
        }
    }

    /// The page that a frame has or awaits.
    pub fn tenant(&self, frame: Frame) -> Option<Tenant>
        ensures tables { result ≡ tenant_in self.now frame.0 }
        ensures held { (past : List Entry) → Stands self.now past → result ≡ tenant past frame.0 }
    {
        self.tenants.get(&frame.0).copied()
    }

    /// Takes an entry more, and tells the moves that it makes. Refused memory leaves all as it was.
    pub fn push(&mut self, alloc: Global, entry: &Entry) -> Result<Moves, Memory>
        ensures stands { OnOk result ((past : List Entry) → Stands self.old past → Stands self.new (entry.now ∷ past)) }
        ensures moves { IfOk result (λ moves. (past : List Entry) → Stands self.old past
            → (g : Page) → moves_of moves g ≡ option_to_list (moved_by past entry.now g)) }
        ensures refused { OnErr result ((past : List Entry) → Stands self.old past → Stands self.new past) }
    {
        self.reserve(alloc, entry)?;
        Ok(self.push_reserved(entry))
    }

    /// Takes the memory that `push_reserved` needs for this entry. Where the pages are stays as it was.
    pub fn reserve(&mut self, alloc: Global, entry: &Entry) -> Result<(), Memory>
        ensures same { (past : List Entry) → Stands self.old past → Stands self.new past }
        ensures room { OnOk result (PlacesHaveRoom self.new entry.now) }
    {
        self.tenants.reserve(1)?;
        self.gone.reserve(1)?;
        if let Some(Change::Puts { tenant, .. }) = change_by(&entry.event, self.next_va) {
            self.frames.reserve(alloc, tenant)?;
        }
        Ok(())
    }

    /// The pages that an entry may move, if it is pushed next.
    pub fn may_move(&self, entry: &Entry) -> MayMove
        ensures { result ≡ may_move self.now entry.now }
    {
        match change_by(&entry.event, self.next_va) {
            Some(change) => self.pages(change),
            None => MayMove::NONE,
        }
    }

    /// Takes an entry more, and tells the moves that it makes.
    pub fn push_reserved(&mut self, entry: &Entry) -> Moves
        requires room { PlacesHaveRoom self.old entry.now }
        ensures stands { (past : List Entry) → Stands self.old past → Stands self.new (entry.now ∷ past) }
        ensures moves { (past : List Entry) → Stands self.old past
            → (g : Page) → moves_of result g ≡ option_to_list (moved_by past entry.now g) }
        ensures pages { AreMovesOf result (may_move self.old entry.now) }
    {
        let change = change_by(&entry.event, self.next_va);
        self.next_va = va_after(&entry.event, self.next_va);
        match change {
            Some(change) => self.make_and_tell(change),
            None => Moves::NONE,
        }
    }

    // Makes a change, and tells which of the pages that it is of moved.
    fn make_and_tell(&mut self, change: Change) -> Moves
        requires room { HasRoomToMake self.old (Some change) }
        ensures makes { MakesChange self.old change self.new }
        ensures moves { (g : Page) → moves_of result g ≡ option_to_list (moved (place_in self.old g) (place_in self.new g)) }
        ensures pages { AreMovesOf result (pages_in self.old change) }
    {
        let pages = self.pages(change);
        let former = self.seen(pages.former);
        let named = self.seen(pages.named);
        self.make(change);
        Moves {
            former: self.move_of(former),
            named: self.move_of(named),
        }
    }

    fn make(&mut self, change: Change)
        requires room { HasRoomToMake self.old (Some change) }
        ensures { MakesChange self.old change self.new }
    {
        match change {
            Change::Puts { frame, tenant } => self.put(frame, tenant),
            Change::Empties { frame, gone } => self.empty(frame, gone),
        }
    }

    fn put(&mut self, frame: Frame, tenant: Tenant)
        requires room { HasRoomToMake self.old (Some (changes.Puts frame tenant)) }
        ensures { MakesChange self.old (changes.Puts frame tenant) self.new }
    {
        let kept: Result<_, _> = self.tenants.insert(frame.0, tenant);
        let former = kept.unwrap();
        self.frames.put_in(tenant, frame.0);
        if let Some(former) = former
            && former != tenant
        {
            self.frames.take_out(former, frame.0);
        }
    }

    fn empty(&mut self, frame: Frame, gone: Option<Gone>)
        requires room { HasRoomToMake self.old (Some (changes.Empties frame gone)) }
        ensures { MakesChange self.old (changes.Empties frame gone) self.new }
    {
        if let Some(former) = self.tenants.remove(&frame.0) {
            self.frames.take_out(former, frame.0);
        }
        self.note_gone(gone);
    }

    // A page went out.
    fn note_gone(&mut self, gone: Option<Gone>)
        requires { 1 ≤ spare self.old.gone }
        ensures gone { (g : Page) → gone_in self.new g ≡ version_by gone g (gone_in self.old g) }
        ensures tenants { self.new.tenants ≡ self.old.tenants }
        ensures frames { self.new.frames ≡ self.old.frames }
        ensures next_va { self.new.next_va ≡ self.old.next_va }
    {
        if let Some(gone) = gone {
            let kept: Result<_, _> = self.gone.insert(gone.page, gone.version);
            kept.unwrap();
        }
    }

    // The pages that a change may move.
    fn pages(&self, change: Change) -> MayMove
        ensures { result ≡ pages_in self.now change }
    {
        let former = self.page_at(change.frame());
        MayMove {
            former,
            named: other_than(former, change.page()),
        }
    }

    // The page that a frame has or awaits.
    fn page_at(&self, frame: Frame) -> Option<Page>
        ensures { result ≡ page_at_frame (tenant_in self.now frame.0) }
    {
        match self.tenants.get(&frame.0) {
            Some(tenant) => Some(tenant.page()),
            None => None,
        }
    }

    // A page, and where it is.
    fn seen(&self, page: Option<Page>) -> Option<PageMove>
        ensures { result ≡ seen_in self.now page }
    {
        let page = page?;
        Some(PageMove {
            page,
            to: self.where_is(page),
        })
    }

    // Where a page that was seen is now, if it moved.
    fn move_of(&self, seen: Option<PageMove>) -> Option<PageMove>
        ensures { result ≡ move_in self.now seen }
    {
        let seen = seen?;
        let to = self.where_is(seen.page);
        if same_where(seen.to, to) {
            return None;
        }
        Some(PageMove {
            page: seen.page,
            to,
        })
    }
}
