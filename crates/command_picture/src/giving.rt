//! The picture of a trace, given to a sink piece by piece.

ghost use Rattle.std.specs.Prelude.{◌≡◌, reverse, IsErrOf, OnOk};
ghost use Rattle.io_edges.specs.inner.Faults.{HasCause};
ghost use Rattle.io_edges.specs.Sinks.{followed_by, GivesPart};
ghost use Rattle.picture_text.specs.PictureText.{picture_of};

use crate::pieces::{PIECE, give_lines};
use io_edges::sinks::Sink;
use picture_text::drawing::events_of;
use picture_text::lanes::Lanes;
use sgx_rules::entries::Entry;
use std::alloc::Global;
use trace_pieces::ungiven::Ungiven;

/// Gives the text of the picture of a trace, whose entries stand oldest first, in pieces of at most 2^16 bytes. What it takes of memory
/// is taken before the first piece is given: that piece, and some 50 bytes for each event. Any list of entries is taken.
pub fn give_picture<K: Sink>(alloc: Global, entries: &[Entry], out: &mut K) -> Result<(), Ungiven>
    ensures gave { OnOk result (K.given out.new ≡ followed_by (K.given out.old) (picture_of (reverse entries.now))) }
    ensures broke { IsErrOf result Ungiven.Failed
        → GivesPart (K.given out.old) (K.given out.new) (picture_of (reverse entries.now)) }
    ensures memory { IsErrOf result Ungiven.Memory → out.new ≡ out.old }
    ensures cause { HasCause (K.faults out.old) (K.faults out.new) (IsErrOf result Ungiven.Failed) }
{
    let events = events_of(alloc, entries)?;
    let known = Lanes::of(alloc, &events)?;
    let Ok(mut piece) = Vec::with_capacity(alloc, PIECE) else {
        return Err(Ungiven::Memory);
    };
    give_lines(out, entries, &known, &events, &mut piece)?;
    Ok(())
}
