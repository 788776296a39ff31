//! A line of an entry is read.

ghost use Rattle.std.specs.Prelude.{◌≡◌, IfOk, IfSome, Some};
ghost use Rattle.sgx_rules.specs.declared.entries.Entry.{Entry};
ghost use Rattle.trace_text.specs.Readable.{IsReadable};
ghost use Rattle.trace_text.specs.TraceText.{spelling};

use crate::entries::entry_in;
use sgx_rules::entries::Entry;
use sgx_types::names::Memory;
use std::alloc::Global;
use trace_text::edition::Edition;
use trace_text::room::SPELLING_ROOM;
use trace_text::trace::print_spelling;

/// The entry that a line tells in an edition, without its line feed: exactly where the line is the text of a readable entry. What is
/// read in any spelling is printed again into `space`, and compared.
#[tactic(auto, using(crate::proofs::LineReads::line_read))]
pub fn read_line(
    alloc: Global,
    edition: Edition,
    line: &[u8],
    space: &mut Vec<u8>,
) -> Result<Option<Entry>, Memory>
    ensures told { IfOk result (λ told. IfSome told (λ e. line.now ≡ spelling edition e)) }
    ensures readable { IfOk result (λ told. IfSome told (IsReadable edition)) }
    ensures only { (e : Entry) → IsReadable edition e → line.now ≡ spelling edition e → IfOk result (λ told. told ≡ Some e) }
{
    let Some(entry) = entry_in(alloc, edition, line)? else {
        return Ok(None);
    };
    space.clear();
    space.reserve(SPELLING_ROOM)?;
    print_spelling(edition, &entry, space);
    if space.as_slice() == line {
        Ok(Some(entry))
    } else {
        Ok(None)
    }
}

/// Two readable entries never have the same line in one edition.
pub fn no_two_entries_share_a_line()
    ensures { (edition : Edition) (e f : Entry) → IsReadable edition e → IsReadable edition f
        → spelling edition e ≡ spelling edition f → e ≡ f }
{}
