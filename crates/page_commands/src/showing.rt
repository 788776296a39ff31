//! The commands of an old trace alone: `picture` and `migrate`.

ghost use Rattle.std.specs.Prelude.{◌≡◌, ◌+◌, ◌^◌, ◌<◌, IsErrOf, OnOk, length, reverse};
ghost use Rattle.io_edges.specs.Faults.{HasRisen};
ghost use Rattle.io_edges.specs.Sinks.{GivesPart, followed_by};
ghost use Rattle.io_edges.specs.Sources.{TakesAtMost};
ghost use Rattle.trace_file.specs.Reading.{OfRead};
ghost use Rattle.page_commands.specs.Says.{Ends, ShowsOf, edition_by, showing_text};

use crate::status::Status;
use crate::traces::read_entries;
use command_picture::giving::give_picture;
use command_words::showing::Showing;
use io_edges::sinks::Sink;
use io_edges::sources::Source;
use sgx_rules::entries::Entry;
use std::alloc::Global;
use trace_migrate::numbering::number_arrays;
use trace_pieces::pieces::give_trace;
use trace_pieces::ungiven::Ungiven;
use trace_text::edition::Edition;

fn edition_by(showing: Showing) -> Edition
    ensures { result ≡ edition_by showing }
{
    match showing {
        Showing::Picture => Edition::Two,
        Showing::Migrated => Edition::One,
    }
}

/// Reads an old trace, whoever made it, and gives the text that shows it. Where its text is none, `out` gets the line on that.
pub(crate) fn show_trace<O: Source, K: Sink>(
    alloc: Global,
    showing: Showing,
    old: &mut O,
    out: &mut K,
) -> Status
    ensures reads { TakesAtMost (2 ^ 30 + 1) (O.left old.old) (O.left old.new) }
    ensures says { OfRead (O.left old.old) (λ bytes. Ends (ShowsOf showing bytes) result (K.given out.old) (K.given out.new)) }
    ensures read_fault { result ≡ Status.ReadFault → HasRisen (O.faults old.old) (O.faults old.new) × (out.new ≡ out.old) }
    ensures write_fault { result ≡ Status.WriteFault → HasRisen (K.faults out.old) (K.faults out.new) }
    ensures memory { result ≡ Status.Memory → out.new ≡ out.old }
{
    let mut entries = match read_entries(alloc, edition_by(showing), old, out) {
        Ok(entries) => entries,
        Err(status) => return status,
    };
    match give(alloc, showing, &mut entries, out) {
        Ok(()) => Status::Done,
        Err(Ungiven::Failed) => Status::WriteFault,
        Err(Ungiven::Memory) => Status::Memory,
    }
}

fn give<K: Sink>(
    alloc: Global,
    showing: Showing,
    entries: &mut [Entry],
    out: &mut K,
) -> Result<(), Ungiven>
    requires { length entries.old < 2 ^ 32 }
    ensures gave { OnOk result (K.given out.new ≡ followed_by (K.given out.old) (showing_text showing (reverse entries.old))) }
    ensures broke { IsErrOf result Ungiven.Failed
        → GivesPart (K.given out.old) (K.given out.new) (showing_text showing (reverse entries.old)) }
    ensures memory { IsErrOf result Ungiven.Memory → out.new ≡ out.old }
    ensures failed { IsErrOf result Ungiven.Failed → HasRisen (K.faults out.old) (K.faults out.new) }
{
    match showing {
        Showing::Picture => give_picture(alloc, entries, out),
        Showing::Migrated => {
            number_arrays(entries);
            give_trace(alloc, out, entries)
        }
    }
}
