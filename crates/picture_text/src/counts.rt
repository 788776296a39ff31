//! What is counted along the entries that were pushed.

ghost use Rattle.std.specs.Prelude.{◌≡◌, ◌≤◌, ◌<◌, ◌+◌, ◌^◌, ◌++◌, OnOk};
ghost use Rattle.picture_text.specs.Events.{count_to, counts_to, in_use, is_outside, more_or_less, drawn_after};
ghost use Rattle.picture_text.specs.inner.Steps.{counts_by};

use crate::drawing::Seen;
use crate::events::{Counter, Lane, Mark, Open, PictureEvent, Span};
use crate::steps::push_mark;
use sgx_rules::entries::{Action, Answer, Event};
use sgx_types::names::Memory;

/// The values of the counters.
#[derive(Clone, Copy)]
pub(crate) struct Counts {
    pub frames: u64,
    pub pages: u64,
    pub version: u64,
}

impl Counts {
    /// Before the first entry.
    pub(crate) const ZERO: Counts = Counts {
        frames: 0,
        pages: 0,
        version: 0,
    };
}

/// The values behind an event, by what was open before it and is open behind it on the lanes that it may change.
pub(crate) fn counts_after(counts: Counts, event: &Event, before: &Seen, after: &Seen) -> Counts
    requires frames { counts.frames + 1 < 2 ^ 64 }
    requires pages { counts.pages + 2 < 2 ^ 64 }
    ensures value { result ≡ counts_by event.now before.now after.now counts }
    ensures frames { result.frames ≤ counts.frames + 1 }
    ensures pages { result.pages ≤ counts.pages + 2 }
{
    let former = more_or_less(
        is_outside(&before.former),
        is_outside(&after.former),
        counts.pages,
    );
    Counts {
        frames: more_or_less(in_use(&before.frame), in_use(&after.frame), counts.frames),
        pages: more_or_less(is_outside(&before.named), is_outside(&after.named), former),
        version: version_after(event, counts.version),
    }
}

// One more where something counts from now on, and one less where it counts no more.
fn more_or_less(before: bool, after: bool, count: u64) -> u64
    requires { count + 1 < 2 ^ 64 }
    ensures value { result ≡ more_or_less before after count }
    ensures few { result ≤ count + 1 }
{
    match (before, after) {
        (false, true) => count + 1,
        (true, false) => count.saturating_sub(1),
        _ => count,
    }
}

// Whether a frame has a page, or awaits one.
fn in_use(on: &Open) -> bool
    ensures { result ≡ in_use on.now }
{
    on.outer.is_some()
}

// Whether a page is outside.
fn is_outside(on: &Open) -> bool
    ensures { result ≡ is_outside on.now }
{
    matches!(on.outer, Some(Span::Sealed { .. }))
}

// The version that was drawn last.
fn version_after(event: &Event, before: u64) -> u64
    ensures { result ≡ drawn_after event.now before }
{
    match *event {
        Event::Did {
            action: Action::EwbStart { .. },
            answer: Answer::Version(version),
        } => version,
        _ => before,
    }
}

/// Adds the counters that have another value from now on.
pub(crate) fn push_counts(
    place: usize,
    before: &Counts,
    after: &Counts,
    events: &mut Vec<PictureEvent>,
) -> Result<(), Memory>
    ensures { OnOk result (events.new.items ≡ events.old.items ++ counts_to place before.now after.now) }
{
    push_count(place, Counter::Frames, before.frames, after.frames, events)?;
    push_count(place, Counter::Pages, before.pages, after.pages, events)?;
    push_count(
        place,
        Counter::Version,
        before.version,
        after.version,
        events,
    )
}

fn push_count(
    place: usize,
    counter: Counter,
    before: u64,
    value: u64,
    events: &mut Vec<PictureEvent>,
) -> Result<(), Memory>
    ensures { OnOk result (events.new.items ≡ events.old.items ++ count_to place counter before value) }
{
    if before == value {
        return Ok(());
    }
    push_mark(
        place,
        Lane::Counters,
        Mark::Counts { counter, value },
        events,
    )
}
