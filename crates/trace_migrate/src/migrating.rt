//! A whole text becomes one of the second edition.

ghost use Rattle.std.specs.Prelude.{◌≡◌, ◌≤◌, ◌^◌, ℕ, List, length, reverse, IfOk, IsErrOf};
ghost use Rattle.sgx_rules.specs.declared.entries.Entry.{Entry};
ghost use Rattle.trace_migrate.specs.Migrated.{numbered_anew};
ghost use Rattle.trace_reader.specs.Faults.{IsFirstFault, text_of};
ghost use Rattle.trace_text.specs.Readable.{AreReadable};
ghost use Rattle.trace_text.specs.TraceText.{trace_of};

use crate::numbering::number_arrays;
use std::alloc::Global;
use trace_reader::reader::TraceReader;
use trace_reader::refusals::TraceRefusal;
use trace_text::edition::Edition;
use trace_text::trace::print_trace;

/// The text in the second edition of the entries of a text in the first, whose version array pages are numbered.
pub fn migrate(alloc: Global, bytes: &[u8]) -> Result<Vec<u8>, TraceRefusal>
    requires { length bytes.now ≤ 2 ^ 30 }
    ensures text { IfOk result (λ text. (entries : List Entry) × AreReadable Edition.One entries
        × (bytes.now ≡ text_of Edition.One entries) × (text.items ≡ trace_of (numbered_anew (reverse entries)))) }
    ensures fault { (line : ℕ) → IsErrOf result (TraceRefusal.Fault line) → IsFirstFault Edition.One bytes.now line }
{
    let mut reader = TraceReader::new(alloc, Edition::One);
    reader.feed(alloc, bytes)?;
    let mut entries = reader.finish()?;
    number_arrays(&mut entries);
    Ok(print_trace(alloc, &entries)?)
}

/// A migrated text is one of the second edition: its entries are readable there.
pub fn migrated_entries_are_readable()
    ensures { (entries : List Entry) → AreReadable Edition.One entries → length entries ≤ 2 ^ 32
        → AreReadable Edition.Two (reverse (numbered_anew (reverse entries))) }
{}
