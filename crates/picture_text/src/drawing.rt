//! The events of a trace.

ghost use Rattle.std.specs.Prelude.{◌≡◌, ◌∷◌, ◌++◌, ◌≤◌, ◌<◌, ◌+◌, ◌*◌, ◌^◌, length, reverse, List, IfOk, OnOk};
ghost use Rattle.sgx_rules.specs.declared.entries.Entry.{Entry};
ghost use Rattle.picture_text.specs.Events.{counts_of, events_by, events_of};
ghost use Rattle.picture_text.specs.inner.Following.{Follows};
ghost use Rattle.picture_text.specs.inner.Steps.{drawn, seen_on, touched_by};

use crate::counts::{Counts, counts_after, push_counts};
use crate::events::{Lane, Mark, Open, PictureEvent};
use crate::leaving::frame_in;
use crate::open_spans::{OpenSpans, frame_lane, lane_of, page_lane};
use crate::steps::{push_mark, push_steps};
use sgx_rules::entries::Entry;
use sgx_types::names::Memory;
use std::alloc::Global;

// The lanes on which an entry may begin or end something.
#[derive(Clone, Copy)]
struct Touched {
    actor: Lane,
    frame: Option<Lane>,
    former: Option<Lane>,
    named: Option<Lane>,
}

/// What is open on the lanes on which an entry may begin or end something.
#[derive(Clone, Copy)]
pub(crate) struct Seen {
    pub actor: Open,
    pub frame: Open,
    pub former: Open,
    pub named: Open,
}

/// The events of entries, any at all, which stand oldest first. An entry takes the time that a push into `Places` takes.
pub fn events_of(alloc: Global, entries: &[Entry]) -> Result<Vec<PictureEvent>, Memory>
    ensures { IfOk result (λ events. events.items ≡ events_of (reverse entries.now)) }
{
    let mut spans = OpenSpans::new(alloc);
    let mut counts = Counts::ZERO;
    let mut events = Vec::new(alloc);
    for (place, entry) in entries.iter().enumerate() {
        push_entry(alloc, place, entry, &mut spans, &mut counts, &mut events)?;
    }
    Ok(events)
}

// Adds the events of one entry. The open spans are seen before it is pushed and behind it.
fn push_entry(
    alloc: Global,
    place: usize,
    entry: &Entry,
    spans: &mut OpenSpans,
    counts: &mut Counts,
    events: &mut Vec<PictureEvent>,
) -> Result<(), Memory>
    requires few { place + 1 < 2 ^ 63 }
    requires frames { counts.old.frames ≤ place }
    requires pages { counts.old.pages ≤ 2 * place }
    ensures follows { OnOk result ((past : List Entry) → Follows spans.old past → Follows spans.new (entry.now ∷ past)) }
    ensures counts { OnOk result ((past : List Entry) → Follows spans.old past → counts.old ≡ counts_of past
        → counts.new ≡ counts_of (entry.now ∷ past)) }
    ensures frames { OnOk result (counts.new.frames ≤ place + 1) }
    ensures pages { OnOk result (counts.new.pages ≤ 2 * (place + 1)) }
    ensures events { OnOk result ((past : List Entry) → Follows spans.old past → counts.old ≡ counts_of past → place ≡ length past
        → events.new.items ≡ events.old.items ++ events_by past entry.now) }
{
    let lanes = lanes_of(entry, spans);
    let before = see(&lanes, spans);
    spans.push(alloc, entry)?;
    let after = see(&lanes, spans);
    push_events(place, &lanes, &before, &after, events)?;
    let counted = counts_after(*counts, &entry.event, &before, &after);
    push_counts(place, counts, &counted, events)?;
    *counts = counted;
    Ok(())
}

fn lanes_of(entry: &Entry, spans: &OpenSpans) -> Touched
    ensures { (past : List Entry) → Follows spans.now past → result ≡ touched_by past entry.now }
{
    let pages = spans.pages(entry);
    Touched {
        actor: lane_of(entry.actor),
        frame: frame_lane(frame_in(&entry.event)),
        former: page_lane(pages.former),
        named: page_lane(pages.named),
    }
}

fn see(lanes: &Touched, spans: &OpenSpans) -> Seen
    ensures { (past : List Entry) → Follows spans.now past → result ≡ seen_on past lanes.now }
{
    Seen {
        actor: spans.open_on(lanes.actor),
        frame: spans.open_if(lanes.frame),
        former: spans.open_if(lanes.former),
        named: spans.open_if(lanes.named),
    }
}

fn push_events(
    place: usize,
    lanes: &Touched,
    before: &Seen,
    after: &Seen,
    events: &mut Vec<PictureEvent>,
) -> Result<(), Memory>
    ensures { OnOk result (events.new.items ≡ events.old.items ++ drawn place lanes.now before.now after.now) }
{
    push_mark(place, lanes.actor, Mark::Does, events)?;
    push_steps(
        place,
        Some(lanes.actor),
        &before.actor,
        &after.actor,
        events,
    )?;
    push_steps(place, lanes.frame, &before.frame, &after.frame, events)?;
    push_steps(place, lanes.former, &before.former, &after.former, events)?;
    push_steps(place, lanes.named, &before.named, &after.named, events)
}
