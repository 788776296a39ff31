//! What begins and ends where the open spans of a lane change.

ghost use Rattle.std.specs.Prelude.{◌≡◌, ◌||◌, ◌++◌, ◌∷◌, [], not, OnOk};
ghost use Rattle.picture_text.specs.Events.{begins, ends, marked, steps};
ghost use Rattle.picture_text.specs.Open.{same_span, same_spans};
ghost use Rattle.picture_text.specs.inner.Steps.{steps_if};

use crate::events::{Lane, Mark, Open, PictureEvent, Span};
use sgx_types::names::Memory;

fn same_span(here: Span, there: Span) -> bool
    ensures { result ≡ same_span here there }
{
    here == there
}

fn same_spans(here: Option<Span>, there: Option<Span>) -> bool
    ensures { result ≡ same_spans here there }
{
    match (here, there) {
        (None, None) => true,
        (Some(here), Some(there)) => same_span(here, there),
        _ => false,
    }
}

// Whether a span ends or begins: where it is another one, or where the span around it does.
fn changes(around: bool, before: Option<Span>, after: Option<Span>) -> bool
    ensures { result ≡ (around || not (same_spans before after)) }
{
    around || !same_spans(before, after)
}

/// Adds what ends and begins on a lane by an entry at a place, where the spans that are open on it change: the innermost one that ends
/// is the first, and the innermost one that begins the last. Where there is no lane, nothing does.
pub(crate) fn push_steps(
    place: usize,
    lane: Option<Lane>,
    before: &Open,
    after: &Open,
    events: &mut Vec<PictureEvent>,
) -> Result<(), Memory>
    ensures { OnOk result (events.new.items ≡ events.old.items ++ steps_if place lane before.now after.now) }
{
    match lane {
        Some(lane) => push_changes(place, lane, before, after, events),
        None => Ok(()),
    }
}

fn push_changes(
    place: usize,
    lane: Lane,
    before: &Open,
    after: &Open,
    events: &mut Vec<PictureEvent>,
) -> Result<(), Memory>
    ensures { OnOk result (events.new.items ≡ events.old.items ++ steps place lane before.now after.now) }
{
    let outer = changes(false, before.outer, after.outer);
    let middle = changes(outer, before.middle, after.middle);
    let inner = changes(middle, before.inner, after.inner);
    push_end(place, lane, inner, before.inner, events)?;
    push_end(place, lane, middle, before.middle, events)?;
    push_end(place, lane, outer, before.outer, events)?;
    push_begin(place, lane, outer, after.outer, events)?;
    push_begin(place, lane, middle, after.middle, events)?;
    push_begin(place, lane, inner, after.inner, events)?;
    Ok(())
}

fn push_end(
    place: usize,
    lane: Lane,
    changed: bool,
    span: Option<Span>,
    events: &mut Vec<PictureEvent>,
) -> Result<(), Memory>
    ensures { OnOk result (events.new.items ≡ events.old.items ++ ends place lane changed span) }
{
    match span {
        Some(_) if changed => push_mark(place, lane, Mark::Ends, events),
        _ => Ok(()),
    }
}

fn push_begin(
    place: usize,
    lane: Lane,
    changed: bool,
    span: Option<Span>,
    events: &mut Vec<PictureEvent>,
) -> Result<(), Memory>
    ensures { OnOk result (events.new.items ≡ events.old.items ++ begins place lane changed span) }
{
    match span {
        Some(span) if changed => push_mark(place, lane, Mark::Begins(span), events),
        _ => Ok(()),
    }
}

/// Adds an event.
pub(crate) fn push_mark(
    place: usize,
    lane: Lane,
    mark: Mark,
    events: &mut Vec<PictureEvent>,
) -> Result<(), Memory>
    ensures { OnOk result (events.new.items ≡ events.old.items ++ marked place lane mark ∷ []) }
{
    events.push(PictureEvent { place, lane, mark })?;
    Ok(())
}
