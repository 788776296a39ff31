//! The lines of a picture, given to a sink in pieces.

ghost use Rattle.std.specs.Prelude.{◌≡◌, ◌+◌, ◌≤◌, ◌++◌, [], List, flat_map, vec_capacity, vec_len, IsErr, OnErr, OnOk};
ghost use Rattle.io_edges.specs.inner.Faults.{HasCause};
ghost use Rattle.io_edges.specs.Sinks.{followed_by, GivesPart};
ghost use Rattle.trace_pieces.specs.inner.Held.{IsHeld};
ghost use Rattle.picture_text.specs.declared.events.Lane.{Lane};
ghost use Rattle.picture_text.specs.inner.Following.{AreNumbered};
ghost use Rattle.picture_text.specs.PictureText.{event_text, lane_text, tail_text, text_of};

use io_edges::faults::Failed;
use io_edges::giving::give_all;
use io_edges::sinks::Sink;
use picture_text::events::{Lane, PictureEvent};
use picture_text::lanes::Lanes;
use picture_text::lines::{LONGEST_LINE, print_event, print_head, print_lane, print_tail};
use sgx_rules::entries::Entry;

/// How many bytes of a picture are held at once.
pub(crate) const PIECE: usize = 1 << 16;

/// Gives the text of events of entries, which stand oldest first, in pieces.
pub(crate) fn give_lines<K: Sink>(
    sink: &mut K,
    entries: &[Entry],
    known: &Lanes,
    events: &[PictureEvent],
    piece: &mut Vec<u8>,
) -> Result<(), Failed>
    requires empty { piece.old.items ≡ [] }
    requires room { PIECE ≤ vec_capacity piece.old }

    ensures gave { OnOk result ((lanes : List Lane) → AreNumbered known.now lanes
        → K.given sink.new ≡ followed_by (K.given sink.old) (text_of entries.now lanes events.now)) }
    ensures broke { OnErr result ((lanes : List Lane) → AreNumbered known.now lanes
        → GivesPart (K.given sink.old) (K.given sink.new) (text_of entries.now lanes events.now)) }
    ensures cause { HasCause (K.faults sink.old) (K.faults sink.new) (IsErr result) }
{
    print_head(piece);
    give_lanes(sink, known, known.as_slice(), piece)?;
    give_events(sink, entries, known, events, piece)?;
    make_room(sink, piece)?;
    hold_tail(entries.len(), piece);
    give_all(sink, piece)
}

fn give_lanes<K: Sink>(
    sink: &mut K,
    known: &Lanes,
    order: &[Lane],
    piece: &mut Vec<u8>,
) -> Result<(), Failed>
    requires { PIECE ≤ vec_capacity piece.old }

    ensures held { OnOk result ((lanes : List Lane) → AreNumbered known.now lanes
        → IsHeld (K.given sink.old) (K.given sink.new) piece.new.items (piece.old.items ++ flat_map (lane_text lanes) order.now)) }
    ensures capacity { PIECE ≤ vec_capacity piece.new }
    ensures broke { OnErr result ((lanes : List Lane) → AreNumbered known.now lanes
        → GivesPart (K.given sink.old) (K.given sink.new) (piece.old.items ++ flat_map (lane_text lanes) order.now)) }
    ensures cause { HasCause (K.faults sink.old) (K.faults sink.new) (IsErr result) }
{
    for lane in order {
        make_room(sink, piece)?;
        hold_lane(known, *lane, piece);
    }
    Ok(())
}

fn give_events<K: Sink>(
    sink: &mut K,
    entries: &[Entry],
    known: &Lanes,
    events: &[PictureEvent],
    piece: &mut Vec<u8>,
) -> Result<(), Failed>
    requires { PIECE ≤ vec_capacity piece.old }

    ensures held { OnOk result ((lanes : List Lane) → AreNumbered known.now lanes
        → IsHeld (K.given sink.old) (K.given sink.new) piece.new.items
        (piece.old.items ++ flat_map (event_text entries.now lanes) events.now)) }
    ensures capacity { PIECE ≤ vec_capacity piece.new }
    ensures broke { OnErr result ((lanes : List Lane) → AreNumbered known.now lanes
        → GivesPart (K.given sink.old) (K.given sink.new) (piece.old.items ++ flat_map (event_text entries.now lanes) events.now)) }
    ensures cause { HasCause (K.faults sink.old) (K.faults sink.new) (IsErr result) }
{
    for event in events {
        make_room(sink, piece)?;
        hold_event(entries, known, event, piece);
    }
    Ok(())
}

fn hold_lane(known: &Lanes, lane: Lane, piece: &mut Vec<u8>)
    requires { vec_len piece.old + LONGEST_LINE ≤ vec_capacity piece.old }
    ensures text { (lanes : List Lane) → AreNumbered known.now lanes → piece.new.items ≡ piece.old.items ++ lane_text lanes lane }
    ensures capacity { vec_capacity piece.old ≤ vec_capacity piece.new }
{
    print_lane(known, lane, piece);
}

fn hold_event(entries: &[Entry], known: &Lanes, event: &PictureEvent, piece: &mut Vec<u8>)
    requires { vec_len piece.old + LONGEST_LINE ≤ vec_capacity piece.old }
    ensures text { (lanes : List Lane) → AreNumbered known.now lanes
        → piece.new.items ≡ piece.old.items ++ event_text entries.now lanes event.now }
    ensures capacity { vec_capacity piece.old ≤ vec_capacity piece.new }
{
    print_event(entries, known, event, piece);
}

fn hold_tail(entries: usize, piece: &mut Vec<u8>)
    requires { vec_len piece.old + LONGEST_LINE ≤ vec_capacity piece.old }
    ensures { piece.new.items ≡ piece.old.items ++ tail_text entries }
{
    print_tail(entries, piece);
}

// Gives what is held, where another line might not fit behind it.
fn make_room<K: Sink>(sink: &mut K, piece: &mut Vec<u8>) -> Result<(), Failed>
    requires { PIECE ≤ vec_capacity piece.old }

    ensures held { OnOk result (IsHeld (K.given sink.old) (K.given sink.new) piece.new.items piece.old.items) }
    ensures room { OnOk result (vec_len piece.new + LONGEST_LINE ≤ vec_capacity piece.new) }
    ensures capacity { vec_capacity piece.new ≡ vec_capacity piece.old }
    ensures broke { OnErr result (GivesPart (K.given sink.old) (K.given sink.new) piece.old.items) }
    ensures cause { HasCause (K.faults sink.old) (K.faults sink.new) (IsErr result) }
{
    if piece.len() > PIECE - LONGEST_LINE {
        give_all(sink, piece)?;
        piece.clear();
    }
    Ok(())
}
