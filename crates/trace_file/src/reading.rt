//! An old trace, read from a source.

ghost use Rattle.std.specs.Prelude.{◌≡◌, ◌<◌, ◌≤◌, ◌+◌, ◌^◌, ◌++◌, [], ℕ, List, Err, Ok, take, length, IfErr};
ghost use Rattle.std.specs.Prelude.{IfOk, IfSome, IsErrOf, OnErr, Result};
ghost use Rattle.io_edges.specs.inner.Faults.{HasCause};
ghost use Rattle.io_edges.specs.Sources.{TakesAtMost};
ghost use Rattle.io_edges.specs.inner.Sources.{HasRead};
ghost use Rattle.trace_file.specs.Reading.{OfRead, Reads};
ghost use Rattle.trace_file.specs.inner.Reading.{IsFaultOf};
ghost use Rattle.trace_file.specs.inner.Seen.{HasSeen};
ghost use Rattle.sgx_rules.specs.declared.entries.Entry.{Entry};

use crate::unread::Unread;
use io_edges::sources::Source;
use sgx_rules::entries::Entry;
use std::alloc::Global;
use trace_reader::reader::TraceReader;
use trace_reader::refusals::TraceRefusal;
use trace_text::edition::Edition;

const MOST_BYTES: usize = 1 << 30;

/// How many bytes are asked for in one call at most.
const PIECE: usize = 1 << 14;

/// Reads a trace in an edition to the end of its text and answers its entries, oldest first. Of more than 2^30 bytes no more than one
/// past them is read. The text itself is not kept.
pub fn read_old<S: Source>(
    alloc: Global,
    edition: Edition,
    source: &mut S,
) -> Result<Vec<Entry>, Unread>
    ensures entries { IfOk result (λ entries. OfRead (S.left source.old) (λ bytes. Reads edition bytes (Ok entries.items))) }
    ensures fault { IfErr result (λ unread. IsFaultOf edition (S.left source.old) unread) }
    ensures reads { TakesAtMost (2 ^ 30 + 1) (S.left source.old) (S.left source.new) }
    ensures cause { HasCause (S.faults source.old) (S.faults source.new) (IsErrOf result Unread.Failed) }
{
    let mut piece = [0u8; PIECE];
    let mut reader = TraceReader::new(alloc, edition);
    let mut count = 0;
    while count <= MOST_BYTES {
        let room = piece.len().min(MOST_BYTES + 1 - count);
        let n = read_piece(alloc, source, &mut piece[..room], &mut reader)?;
        if n == 0 {
            return entries_of(reader);
        }
        count += n;
    }
    Err(Unread::Bad { line: 0 })
}

// One call of the source. A line that is found faulty is told at the end, once it is known that the text is not too long.
fn read_piece<S: Source>(
    alloc: Global,
    source: &mut S,
    piece: &mut [u8],
    reader: &mut TraceReader,
) -> Result<usize, Unread>
    requires { 0 < length piece.old }
    ensures bound { IfOk result (λ n. n ≤ length piece.old) }
    ensures length { length piece.new ≡ length piece.old }
    ensures read { IfOk result (λ n. HasRead (S.left source.old) (S.left source.new) (take n piece.new)) }
    ensures seen { IfOk result (λ n. (edition : Edition) (bytes : List ℕ) → HasSeen edition reader.old bytes
        → HasSeen edition reader.new (bytes ++ take n piece.new)) }
    ensures at_end { IfOk result (λ n. n ≡ 0 → IfSome (S.left source.new) (λ left. left ≡ [])) }
    ensures err { OnErr result (TakesAtMost (length piece.old) (S.left source.old) (S.left source.new)) }
    ensures not_bad { (line : ℕ) → IsErrOf result (Unread.Bad line) → ⊥ }
    ensures cause { HasCause (S.faults source.old) (S.faults source.new) (IsErrOf result Unread.Failed) }
{
    let n = source.take(piece)?;
    match reader.feed(alloc, &piece[..n]) {
        Ok(()) | Err(TraceRefusal::Fault { .. }) => Ok(n),
        Err(TraceRefusal::Memory) => Err(Unread::Memory),
    }
}

// The entries of the text that was read.
fn entries_of(reader: TraceReader) -> Result<Vec<Entry>, Unread>
    ensures entries { (edition : Edition) → IfOk result (λ entries. (bytes : List ℕ) → HasSeen edition reader bytes
        → length bytes ≤ 2 ^ 30 → Reads edition bytes (Ok entries.items)) }
    ensures fault { (edition : Edition) (line : ℕ) → IsErrOf result (Unread.Bad line) → (bytes : List ℕ) → HasSeen edition reader bytes
        → length bytes ≤ 2 ^ 30
        → Reads edition bytes (Err line) }
    ensures not_failed { IsErrOf result Unread.Failed → ⊥ }
{
    match reader.finish() {
        Ok(entries) => Ok(entries),
        Err(TraceRefusal::Fault { line }) => Err(Unread::Bad { line }),
        Err(TraceRefusal::Memory) => Err(Unread::Memory),
    }
}

/// A text reads as one thing in one edition: as one list of entries, or as one faulty line.
pub fn a_text_reads_as_one_thing()
    ensures { (edition : Edition) (bytes : List ℕ) (one other : Result (List Entry) ℕ) → Reads edition bytes one
        → Reads edition bytes other → one ≡ other }
{}
