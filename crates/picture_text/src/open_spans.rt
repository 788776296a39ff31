//! The spans that are open on each lane behind the entries that were pushed.

ghost use Rattle.std.specs.Prelude.{◌≡◌, ◌∷◌, [], if◌then◌else◌, List, OnOk};
ghost use Rattle.sgx_rules.specs.declared.entries.Entry.{Entry};
ghost use Rattle.trace_places.specs.Places.{change_after};
ghost use Rattle.picture_text.specs.Events.{frame_in, frame_lane, lane_of, page_lane, pages_by};
ghost use Rattle.picture_text.specs.Open.{only, open_if, open_on, sits, span_of, when_so};
ghost use Rattle.picture_text.specs.inner.Following.{Follows};

use crate::events::{Lane, Open, Span};
use crate::leaving::{Leavings, frame_in};
use crate::seats::Seats;
use sgx_rules::entries::Entry;
use sgx_types::names::{Actor, Frame, Memory, Page};
use std::alloc::Global;
use trace_places::change::Tenant;
use trace_places::moves::{MayMove, Where};
use trace_places::places::Places;

/// The lane of an actor.
pub(crate) fn lane_of(actor: Actor) -> Lane
    ensures { result ≡ lane_of actor }
{
    match actor {
        Actor::Builder => Lane::Builder,
        Actor::Cpu(cpu) => Lane::Processor(cpu),
        Actor::Reclaimer => Lane::Reclaimer,
    }
}

/// The lane of the frame that an entry is on.
pub(crate) fn frame_lane(frame: Option<Frame>) -> Option<Lane>
    ensures { result ≡ frame_lane frame }
{
    match frame {
        Some(frame) => Some(Lane::Frame(frame)),
        None => None,
    }
}

/// The lane of a page.
pub(crate) fn page_lane(page: Option<Page>) -> Option<Lane>
    ensures { result ≡ page_lane page }
{
    match page {
        Some(page) => Some(Lane::Page(page)),
        None => None,
    }
}

fn only(span: Option<Span>) -> Open
    ensures { result ≡ only span }
{
    Open {
        outer: span,
        middle: None,
        inner: None,
    }
}

fn when_so(so: bool, span: Span) -> Option<Span>
    ensures { result ≡ when_so so span }
{
    if so { Some(span) } else { None }
}

fn sits(tenant: Option<Tenant>) -> Option<Span>
    ensures { result ≡ sits tenant }
{
    match tenant {
        Some(Tenant::Has(page)) => Some(Span::Holds(page)),
        Some(Tenant::Awaits(page)) => Some(Span::Awaits(page)),
        None => None,
    }
}

fn stands(place: Where) -> Option<Span>
    ensures { result ≡ span_of place }
{
    match place {
        Where::Nowhere => None,
        Where::At(frame) => Some(Span::At(frame)),
        Where::Loading(frame) => Some(Span::Loading(frame)),
        Where::Sealed { version } => Some(Span::Sealed { version }),
    }
}

/// The spans that are open behind the entries that were pushed, on each lane there can be. A push and a question take the time that
/// those of `Places` take.
#[derive(Drop)]
pub(crate) struct OpenSpans {
    places: Places,
    leavings: Leavings,
    seats: Seats,
}

impl OpenSpans {
    /// No entry was pushed.
    pub(crate) fn new(alloc: Global) -> OpenSpans
        ensures { Follows result [] }
    {
        OpenSpans {
            places: Places::new(alloc),
            leavings: Leavings::new(alloc),
            seats: Seats::new(alloc),
        }
    }

    /// The pages that an entry may move, if it is pushed next.
    pub(crate) fn pages(&self, entry: &Entry) -> MayMove
        ensures { (past : List Entry) → Follows self.now past → result ≡ pages_by past (change_after past entry.now) }
    {
        self.places.may_move(entry)
    }

    /// The spans that are open on a lane.
    pub(crate) fn open_on(&self, lane: Lane) -> Open
        ensures { (past : List Entry) → Follows self.now past → result ≡ open_on past lane }
    {
        match lane {
            Lane::Processor(cpu) => only(self.seats.of(cpu)),
            Lane::Frame(frame) => self.in_frame(frame),
            Lane::Page(page) => only(stands(self.places.where_is(page))),
            Lane::Builder => only(None),
            Lane::Reclaimer => only(None),
            Lane::Counters => only(None),
        }
    }

    /// .. and none where there is no lane.
    pub(crate) fn open_if(&self, lane: Option<Lane>) -> Open
        ensures { (past : List Entry) → Follows self.now past → result ≡ open_if past lane }
    {
        match lane {
            Some(lane) => self.open_on(lane),
            None => only(None),
        }
    }

    fn in_frame(&self, frame: Frame) -> Open
        ensures { (past : List Entry) → Follows self.now past → result ≡ open_on past (Lane.Frame frame) }
    {
        let leaving = self.leavings.of(frame);
        Open {
            outer: sits(self.places.tenant(frame)),
            middle: when_so(leaving.blocked, Span::Blocked),
            inner: when_so(leaving.sealing, Span::Sealing),
        }
    }

    /// Takes an entry more.
    pub(crate) fn push(&mut self, alloc: Global, entry: &Entry) -> Result<(), Memory>
        ensures { OnOk result ((past : List Entry) → Follows self.old past → Follows self.new (entry.now ∷ past)) }
    {
        self.places.push(alloc, entry)?;
        self.leavings.push(&entry.event)?;
        self.seats.push(entry)?;
        Ok(())
    }
}
