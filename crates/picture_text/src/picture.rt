//! The text of a picture, whole.

ghost use Rattle.std.specs.Prelude.{◌≡◌, ◌++◌, List, flat_map, reverse, IfOk, OnOk};
ghost use Rattle.picture_text.specs.declared.events.Lane.{Lane};
ghost use Rattle.picture_text.specs.PictureText.{event_text, lane_text, picture_of};
ghost use Rattle.picture_text.specs.inner.Following.{AreNumbered};

use crate::drawing::events_of;
use crate::events::{Lane, PictureEvent};
use crate::lanes::Lanes;
use crate::lines::{LONGEST_LINE, print_event, print_head, print_lane, print_tail};
use sgx_rules::entries::Entry;
use sgx_types::names::Memory;
use std::alloc::Global;

/// The text of the picture of a trace, whose entries are given oldest first: JSON in the Trace Event Format, with the names of the lanes
/// before the events. Any list of entries is taken.
pub fn print_picture(alloc: Global, entries: &[Entry]) -> Result<Vec<u8>, Memory>
    ensures { IfOk result (λ text. text.items ≡ picture_of (reverse entries.now)) }
{
    let events = events_of(alloc, entries)?;
    let known = Lanes::of(alloc, &events)?;
    let mut text = Vec::with_capacity(alloc, LONGEST_LINE)?;
    print_head(&mut text);
    push_lanes(&known, known.as_slice(), &mut text)?;
    push_events(entries, &known, &events, &mut text)?;
    text.reserve(LONGEST_LINE)?;
    print_tail(entries.len(), &mut text);
    Ok(text)
}

fn push_lanes(known: &Lanes, order: &[Lane], text: &mut Vec<u8>) -> Result<(), Memory>
    ensures { OnOk result ((lanes : List Lane) → AreNumbered known.now lanes
        → text.new.items ≡ text.old.items ++ flat_map (lane_text lanes) order.now) }
{
    for lane in order {
        text.reserve(LONGEST_LINE)?;
        print_lane(known, *lane, text);
    }
    Ok(())
}

fn push_events(
    entries: &[Entry],
    known: &Lanes,
    events: &[PictureEvent],
    text: &mut Vec<u8>,
) -> Result<(), Memory>
    ensures { OnOk result ((lanes : List Lane) → AreNumbered known.now lanes
        → text.new.items ≡ text.old.items ++ flat_map (event_text entries.now lanes) events.now) }
{
    for event in events {
        text.reserve(LONGEST_LINE)?;
        print_event(entries, known, event, text);
    }
    Ok(())
}
