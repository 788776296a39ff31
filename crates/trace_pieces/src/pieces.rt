//! A trace given to a sink piece by piece.

ghost use Rattle.std.specs.Prelude.{◌≡◌, ◌+◌, ◌≤◌, ◌++◌, [], reverse, vec_capacity, vec_len, IsErr, IsErrOf, OnErr};
ghost use Rattle.std.specs.Prelude.{OnOk};
ghost use Rattle.io_edges.specs.inner.Faults.{HasCause};
ghost use Rattle.io_edges.specs.Sinks.{followed_by, GivesPart};
ghost use Rattle.trace_pieces.specs.inner.Held.{IsHeld};
ghost use Rattle.trace_text.specs.TraceText.{entry_text, last_line, trace_of};

use crate::ungiven::Ungiven;
use io_edges::faults::Failed;
use io_edges::giving::give_all;
use io_edges::sinks::Sink;
use sgx_rules::entries::Entry;
use std::alloc::Global;
use trace_text::edition::Edition;
use trace_text::room::LONGEST_LINE;
use trace_text::trace::{print_entry, print_first_line, print_last_line};

/// How many bytes of a trace are held at once.
pub const PIECE: usize = 1 << 16;

/// Gives the text of a trace, whose entries stand oldest first, in pieces of at most 2^16 bytes. Their memory is taken before the
/// first is given, and no more of it is asked for.
pub fn give_trace<K: Sink>(alloc: Global, sink: &mut K, entries: &[Entry]) -> Result<(), Ungiven>
    ensures gave { OnOk result (K.given sink.new ≡ followed_by (K.given sink.old) (trace_of (reverse entries.now))) }
    ensures broke { IsErrOf result Ungiven.Failed
        → GivesPart (K.given sink.old) (K.given sink.new) (trace_of (reverse entries.now)) }
    ensures memory { IsErrOf result Ungiven.Memory → sink.new ≡ sink.old }
    ensures cause { HasCause (K.faults sink.old) (K.faults sink.new) (IsErrOf result Ungiven.Failed) }
{
    let Ok(mut piece) = Vec::with_capacity(alloc, PIECE) else {
        return Err(Ungiven::Memory);
    };
    give_lines(sink, entries, &mut piece)?;
    Ok(())
}

fn give_lines<K: Sink>(sink: &mut K, entries: &[Entry], piece: &mut Vec<u8>) -> Result<(), Failed>
    requires empty { piece.old.items ≡ [] }
    requires room { PIECE ≤ vec_capacity piece.old }

    ensures gave { OnOk result (K.given sink.new ≡ followed_by (K.given sink.old) (trace_of (reverse entries.now))) }
    ensures broke { OnErr result (GivesPart (K.given sink.old) (K.given sink.new) (trace_of (reverse entries.now))) }
    ensures cause { HasCause (K.faults sink.old) (K.faults sink.new) (IsErr result) }
{
    print_first_line(piece);
    for entry in entries {
        make_room(sink, piece)?;
        hold_entry(entry, piece);
    }
    make_room(sink, piece)?;
    hold_last_line(entries.len(), piece);
    give_all(sink, piece)
}

fn hold_entry(entry: &Entry, piece: &mut Vec<u8>)
    requires { vec_len piece.old + LONGEST_LINE ≤ vec_capacity piece.old }
    ensures text { piece.new.items ≡ piece.old.items ++ entry_text Edition.Two entry.now }
    ensures capacity { vec_capacity piece.old ≤ vec_capacity piece.new }
{
    print_entry(entry, piece);
}

fn hold_last_line(entries: usize, piece: &mut Vec<u8>)
    requires { vec_len piece.old + LONGEST_LINE ≤ vec_capacity piece.old }
    ensures { piece.new.items ≡ piece.old.items ++ last_line entries }
{
    print_last_line(entries, piece);
}

// Gives what is held, where another line might not fit behind it.
fn make_room<K: Sink>(sink: &mut K, piece: &mut Vec<u8>) -> Result<(), Failed>
    requires { PIECE ≤ vec_capacity piece.old }

    ensures held { OnOk result (IsHeld (K.given sink.old) (K.given sink.new) piece.new.items piece.old.items) }
    ensures room { OnOk result (vec_len piece.new + LONGEST_LINE ≤ vec_capacity piece.new) }
    ensures capacity { vec_capacity piece.new ≡ vec_capacity piece.old }
    ensures broke { OnErr result (GivesPart (K.given sink.old) (K.given sink.new) piece.old.items) }
    ensures cause { HasCause (K.faults sink.old) (K.faults sink.new) (IsErr result) }
{
    if piece.len() > PIECE - LONGEST_LINE {
        give_all(sink, piece)?;
        piece.clear();
    }
    Ok(())
}
