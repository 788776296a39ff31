//! The lines of a trace, taken one after another.

ghost use Rattle.std.specs.Prelude.{◌≡◌, ◌≤◌, ◌+◌, ◌++◌, [], ◌∷◌, false, length, take, IfOk, MatchBool, MatchOption};
ghost use Rattle.trace_reader.specs.inner.Lines.{CannotFollow, HasNoFeed, IsKept, IsRefused, IsTaken, is_last_stage, joined};
ghost use Rattle.trace_reader.specs.inner.Lines.{first_line, last_line, taken};
ghost use Rattle.trace_reader.specs.Faults.{IsFirstFault, text_of};

use sgx_rules::entries::Entry;
use sgx_types::names::Memory;
use std::alloc::Global;
use text_words::words::Word::{Decimal, Name};
use text_words::words::{push_word, push_words};
use trace_lines::lines::read_line;
use trace_text::edition::Edition;

/// Which line comes next: the first, an entry's or the last, or none.
#[derive(Clone, Copy)]
pub(crate) enum Stage {
    First,
    Entries,
    Ended,
}

/// The lines that were taken, as the entries that they tell.
#[derive(Drop)]
pub(crate) struct Lines {
    pub(crate) entries: Vec<Entry>,
    pub(crate) stage: Stage,
    /// An entry that was read is printed again into this.
    pub(crate) space: Vec<u8>,
}

impl Lines {
    pub(crate) fn new(alloc: Global) -> Lines
        ensures kept { (edition : Edition) → IsKept edition result }
        ensures none { (edition : Edition) → taken edition result ≡ [] }
    {
        Lines {
            entries: Vec::new(alloc),
            stage: Stage::First,
            space: Vec::new(alloc),
        }
    }

    /// Whether a line is the last of a trace with the entries that were taken.
    fn is_last(&mut self, line: &[u8]) -> Result<bool, Memory>
        ensures same { self.new.entries.items ≡ self.old.entries.items }
        ensures stage { self.new.stage ≡ self.old.stage }
        ensures last { IfOk result (λ last. MatchBool last (line.now ≡ last_line (length self.old.entries.items))
            (line.now ≡ last_line (length self.old.entries.items) → ⊥)) }
    {
        self.space.clear();
        push_word(Name("end"), &mut self.space)?;
        push_words(&[Decimal(self.entries.len() as u64)], &mut self.space)?;
        Ok(self.space.as_slice() == line)
    }

    /// Takes the line of an entry, or the last.
    fn take_later(&mut self, alloc: Global, edition: Edition, line: &[u8]) -> Result<bool, Memory>
        requires kept { IsKept edition self.old }
        requires stage { self.old.stage ≡ Stage.Entries }
        ensures kept { IsKept edition self.new }
        ensures front { take (length self.old.entries.items) self.new.entries.items ≡ self.old.entries.items }
        ensures taken { IfOk result (λ is_next. MatchBool is_next (taken edition self.new ≡ taken edition self.old ++ line.now ∷ [])
            ((taken edition self.new ≡ taken edition self.old) × CannotFollow edition (taken edition self.old) line.now)) }
    {
        if let Some(entry) = read_line(alloc, edition, line, &mut self.space)? {
            self.entries.push(entry)?;
            return Ok(true);
        }
        if self.is_last(line)? {
            self.stage = Stage::Ended;
            Ok(true)
        } else {
            Ok(false)
        }
    }

    /// Takes the next line, where some trace goes on with it.
    pub(crate) fn take_line(
        &mut self,
        alloc: Global,
        edition: Edition,
        line: &[u8],
    ) -> Result<bool, Memory>
        requires kept { IsKept edition self.old }
        ensures kept { IsKept edition self.new }
        ensures front { take (length self.old.entries.items) self.new.entries.items ≡ self.old.entries.items }
        ensures taken { IfOk result (λ is_next. MatchBool is_next (taken edition self.new ≡ taken edition self.old ++ line.now ∷ [])
            ((taken edition self.new ≡ taken edition self.old) × CannotFollow edition (taken edition self.old) line.now)) }
    {
        match self.stage {
            Stage::First => {
                if is_first(edition, line) {
                    self.stage = Stage::Entries;
                    Ok(true)
                } else {
                    Ok(false)
                }
            }
            Stage::Entries => self.take_later(alloc, edition, line),
            Stage::Ended => Ok(false),
        }
    }

    /// Takes the whole lines of a text, one after another, and answers what stands behind them. None where no trace goes
    /// on with one of them; the lines before it are taken then.
    pub(crate) fn take_lines<'a>(
        &mut self,
        alloc: Global,
        edition: Edition,
        text: &'a [u8],
    ) -> Result<Option<&'a [u8]>, Memory>
        requires kept { IsKept edition self.old }
        ensures kept { IsKept edition self.new }
        ensures front { take (length self.old.entries.items) self.new.entries.items ≡ self.old.entries.items }
        ensures taken { IfOk result (λ rest. MatchOption rest
            (IsRefused edition (joined (taken edition self.old) ++ text.now) (taken edition self.new))
            (λ rest. IsTaken (joined (taken edition self.old) ++ text.now) (taken edition self.new) rest.now)) }
    {
        let mut rest = text;
        while let Some((line, behind)) = cut_line(rest) {
            if self.take_line(alloc, edition, line)? {
                rest = behind;
            } else {
                return Ok(None);
            }
        }
        Ok(Some(rest))
    }

    /// Whether the last line was taken.
    fn is_ended(&self) -> bool
        ensures { result ≡ is_last_stage self.now.stage }
    {
        match self.stage {
            Stage::Ended => true,
            Stage::First | Stage::Entries => false,
        }
    }

    /// The line that a text lacks which is these whole lines and a part of one. None where it lacks nothing.
    pub(crate) fn missing(&self, edition: Edition, part: &[u8]) -> Option<u64>
        requires kept { IsKept edition self.now }
        requires apart { HasNoFeed part.now }
        ensures { MatchOption result (joined (taken edition self.now) ++ part.now ≡ text_of edition self.now.entries.items)
            (IsFirstFault edition (joined (taken edition self.now) ++ part.now)) }
    {
        let next = self.count() + 1;
        if part.is_empty() {
            if self.is_ended() { None } else { Some(next) }
        } else {
            Some(next)
        }
    }

    /// The number of lines that were taken.
    pub(crate) fn count(&self) -> u64
        ensures few { result ≤ length self.now.entries.items + 2 }
        ensures lines { (edition : Edition) → result ≡ length (taken edition self.now) }
    {
        let entries = self.entries.len() as u64;
        match self.stage {
            Stage::First => 0,
            Stage::Entries => entries + 1,
            Stage::Ended => entries + 2,
        }
    }
}

/// Whether a line is the first of a text in an edition.
fn is_first(edition: Edition, line: &[u8]) -> bool
    ensures { MatchBool result (line.now ≡ first_line edition) (line.now ≡ first_line edition → ⊥) }
{
    match edition {
        Edition::One => line == b"trace 1".as_slice(),
        Edition::Two => line == b"trace 2".as_slice(),
    }
}

/// A text's first line without its line feed, and what stands behind it.
pub(crate) fn cut_line(text: &[u8]) -> Option<(&[u8], &[u8])>
    ensures { MatchOption result (HasNoFeed text.now)
        (λ cut. HasNoFeed cut.0.now × (text.now ≡ cut.0.now ++ 10 ∷ cut.1.now)) }
{
    let at = text.iter().position(|byte| *byte == b'\n')?;
    Some((&text[..at], &text[at + 1..]))
}
