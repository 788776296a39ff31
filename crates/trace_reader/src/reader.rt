//! The text of a trace is read, whole or in pieces.

ghost use Rattle.std.specs.Prelude.{◌≡◌, ℕ, List, ◌++◌, ◌∷◌, [], length, take, IfOk, MatchBool, MatchOption, OnErr};
ghost use Rattle.std.specs.Result.{result_map_both};
ghost use Rattle.sgx_rules.specs.declared.entries.Entry.{Entry};
ghost use Rattle.trace_reader.specs.Faults.{IsFirstFault, text_of};
ghost use Rattle.trace_reader.specs.inner.Faults.{Reading};
ghost use Rattle.trace_reader.specs.inner.Lines.{CannotFollow, HasNoFeed, IsKept, IsRefused, IsTaken, joined, taken};
ghost use Rattle.trace_text.specs.Readable.{AreReadable};
ghost use Rattle.trace_reader.specs.inner.Outcomes.{Feeds, Finishes, Tells};

use crate::lines::{Lines, cut_line};
use crate::refusals::TraceRefusal;
use sgx_rules::entries::Entry;
use sgx_types::names::Memory;
use std::alloc::Global;
use std::marker::Model;
use trace_text::edition::Edition;

/// Reads a trace's text in pieces. What it keeps of a text is its entries, and the part of a line whose line feed has not
/// come.
#[derive(Drop)]
pub struct TraceReader {
    edition: Edition,
    lines: Lines,
    part: Vec<u8>,
    fault: Option<u64>,
}

impl Model for TraceReader {
    ghost use Rattle.trace_reader.specs.inner.Faults.{Progress};

    ghost Value = { Progress };

    ghost use Rattle.trace_reader.specs.inner.Kept.{IsWhole, progress_of};

    ghost view = { progress_of };

    ghost invariant = { IsWhole };
}

/// Takes the line whose first part was kept and whose end came now.
fn take_first(
    lines: &mut Lines,
    alloc: Global,
    edition: Edition,
    part: &[u8],
    end: &[u8],
) -> Result<bool, Memory>
    requires { IsKept edition lines.old }
    ensures kept { IsKept edition lines.new }
    ensures front { take (length lines.old.entries.items) lines.new.entries.items ≡ lines.old.entries.items }
    ensures taken { IfOk result (λ is_next. MatchBool is_next
        (taken edition lines.new ≡ taken edition lines.old ++ (part.now ++ end.now) ∷ [])
        ((taken edition lines.new ≡ taken edition lines.old) × CannotFollow edition (taken edition lines.old) (part.now ++ end.now))) }
{
    if part.is_empty() {
        return lines.take_line(alloc, edition, end);
    }
    let mut line = part.to_vec(alloc)?;
    line.extend_from_slice(end)?;
    lines.take_line(alloc, edition, &line)
}

/// Takes a line whose first part was kept and whose end came now, and the whole lines behind it; answers the part of a line
/// that is left. None where no trace goes on with one of them.
fn take_whole(
    lines: &mut Lines,
    alloc: Global,
    edition: Edition,
    part: &[u8],
    end: &[u8],
    behind: &[u8],
) -> Result<Option<Vec<u8>>, Memory>
    requires kept { IsKept edition lines.old }
    requires part { HasNoFeed part.now }
    requires end { HasNoFeed end.now }
    ensures kept { IsKept edition lines.new }
    ensures front { take (length lines.old.entries.items) lines.new.entries.items ≡ lines.old.entries.items }
    ensures taken { IfOk result (λ rest. MatchOption rest
        (IsRefused edition (joined (taken edition lines.old) ++ (part.now ++ end.now) ++ 10 ∷ behind.now) (taken edition lines.new))
        (λ rest. IsTaken (joined (taken edition lines.old) ++ (part.now ++ end.now) ++ 10 ∷ behind.now)
        (taken edition lines.new) rest.items)) }
{
    if take_first(lines, alloc, edition, part, end)? {
        match lines.take_lines(alloc, edition, behind)? {
            Some(rest) => Ok(Some(rest.to_vec(alloc)?)),
            None => Ok(None),
        }
    } else {
        Ok(None)
    }
}

/// Takes the whole lines of a piece and keeps the part behind them, or answers the line of the fault. Where memory is
/// refused all is as before.
fn take_piece(
    lines: &mut Lines,
    part: &mut Vec<u8>,
    alloc: Global,
    edition: Edition,
    piece: &[u8],
) -> Result<Option<u64>, Memory>
    requires kept { IsKept edition lines.old }
    requires apart { HasNoFeed part.old.items }
    ensures kept { IsKept edition lines.new }
    ensures apart { HasNoFeed part.new.items }
    ensures taken { IfOk result (λ fault. MatchOption fault
        ((joined (taken edition lines.old) ++ part.old.items) ++ piece.now ≡ joined (taken edition lines.new) ++ part.new.items)
        (λ line. (more : List ℕ) → IsFirstFault edition
        (((joined (taken edition lines.old) ++ part.old.items) ++ piece.now) ++ more) line)) }
    ensures lines { OnErr result (taken edition lines.new ≡ taken edition lines.old) }
    ensures part { OnErr result (part.new.items ≡ part.old.items) }
{
    let Some((end, behind)) = cut_line(piece) else {
        part.extend_from_slice(piece)?;
        return Ok(None);
    };
    let entries = lines.entries.len();
    let stage = lines.stage;
    match take_whole(lines, alloc, edition, part, end, behind) {
        Ok(Some(rest)) => {
            *part = rest;
            Ok(None)
        }
        Ok(None) => Ok(Some(lines.count() + 1)),
        Err(memory) => {
            lines.entries.truncate(entries);
            lines.stage = stage;
            Err(memory)
        }
    }
}

impl TraceReader {
    /// A reader of a text in an edition, of which nothing came yet.
    pub fn new(alloc: Global, edition: Edition) -> TraceReader
        ensures { result ≡ Reading edition [] }
    {
        TraceReader {
            edition,
            lines: Lines::new(alloc),
            part: Vec::new(alloc),
            fault: None,
        }
    }

    /// Reads the next piece. After a fault each call answers that fault again.
    pub fn feed(&mut self, alloc: Global, piece: &[u8]) -> Result<(), TraceRefusal>
        ensures { Feeds self.old piece.now result self.new }
    {
        if let Some(line) = self.fault {
            return Err(TraceRefusal::Fault { line });
        }
        match take_piece(&mut self.lines, &mut self.part, alloc, self.edition, piece) {
            Ok(None) => Ok(()),
            Ok(Some(line)) => {
                self.fault = Some(line);
                Err(TraceRefusal::Fault { line })
            }
            Err(Memory) => Err(TraceRefusal::Memory),
        }
    }

    /// The entries, oldest first, where the pieces together are the text of a trace.
    pub fn finish(self) -> Result<Vec<Entry>, TraceRefusal>
        ensures { Finishes self (result_map_both (λ entries. entries.items) (λ why. why) result) }
    {
        let TraceReader {
            edition,
            lines,
            part,
            fault,
        } = self;
        if let Some(line) = fault {
            return Err(TraceRefusal::Fault { line });
        }
        match lines.missing(edition, &part) {
            None => Ok(lines.entries),
            Some(line) => Err(TraceRefusal::Fault { line }),
        }
    }
}

/// The entries of a trace's text, oldest first.
pub fn read_trace(alloc: Global, bytes: &[u8]) -> Result<Vec<Entry>, TraceRefusal>
    ensures { Tells Edition.Two bytes.now (result_map_both (λ entries. entries.items) (λ why. why) result) }
{
    let mut reader = TraceReader::new(alloc, Edition::Two);
    reader.feed(alloc, bytes)?;
    reader.finish()
}

/// Two traces of readable entries never have the same text in one edition.
pub fn no_two_traces_share_a_text()
    ensures { (edition : Edition) (entries others : List Entry) → AreReadable edition entries → AreReadable edition others
        → text_of edition entries ≡ text_of edition others → entries ≡ others }
{}
