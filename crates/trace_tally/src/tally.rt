//! The tally of a trace, and its text.

ghost use Rattle.std.specs.Prelude.{◌≡◌, ◌++◌, ◌∷◌, [], List, reverse, IfOk, OnOk};
ghost use Rattle.sgx_rules.specs.declared.entries.Entry.{Entry};
ghost use Rattle.text_words.specs.Words.{line_text};
ghost use Rattle.trace_tally.specs.TallyText.{counts_text, driver_words, number_line, refusal_words, refusals_text, tally_text};
ghost use Rattle.trace_tally.specs.inner.Tally.{TallyFollows};

use crate::counts::{Counts, more};
use crate::refusals::{RefusalCount, push_refusal};
use crate::sights::Sights;
use sgx_rules::entries::Entry;
use sgx_types::names::Memory;
use std::alloc::Global;
use text_words::words::Word::{Decimal, Name};
use text_words::words::push_line;
use trace_text::names::{action_name, refusal_name};

/// What is counted along entries that were pushed one by one, any entries at all. An entry takes a time that grows with the number of
/// processors that entered, where it blocks a page, and with nothing else.
#[derive(Drop)]
struct Tally {
    sights: Sights,
    len: u64,
    counts: Counts,
    refusals: Vec<RefusalCount>,
    odd: Option<u64>,
}

impl Tally {
    // No entry was pushed.
    fn new(alloc: Global) -> Tally
        ensures { TallyFollows result [] }
    {
        Tally {
            sights: Sights::new(alloc),
            len: 0,
            counts: Counts::NONE,
            refusals: Vec::new(alloc),
            odd: None,
        }
    }

    // The entries stand oldest first.
    fn of(alloc: Global, entries: &[Entry]) -> Result<Tally, Memory>
        ensures { IfOk result (λ tally. TallyFollows tally (reverse entries.now)) }
    {
        let mut tally = Tally::new(alloc);
        for entry in entries {
            tally.push(alloc, entry)?;
        }
        Ok(tally)
    }

    // Takes an entry more.
    fn push(&mut self, alloc: Global, entry: &Entry) -> Result<(), Memory>
        ensures { OnOk result ((past : List Entry) → TallyFollows self.old past → TallyFollows self.new (entry.now ∷ past)) }
    {
        let seen = self.sights.look(&entry.event);
        self.counts = self.counts.with(seen)?;
        if self.odd.is_none() && seen.odd {
            self.odd = Some(self.len);
        }
        push_refusal(&mut self.refusals, &entry.event, self.len)?;
        self.sights.push(alloc, entry)?;
        self.len = more(self.len)?;
        Ok(())
    }
}

/// Adds the lines of the tally of a trace, whose entries stand oldest first, to a text: how many entries it has, how many pages were
/// written out, how many of these had a processor inside their enclave when they were blocked, how many were blocked while a processor
/// cached them, how many were reloaded, and how many of these had been reloaded before; a line for each kind of refusal, with how many
/// there are and the place of the first one; and whether its driver was refused what a right driver never is, and where first (this
/// project's own). Places are counted from 0.
#[tactic(auto, unfolding(crate::specs::TallyText::tally_text))]
pub fn push_tally(alloc: Global, entries: &[Entry], onto: &mut Vec<u8>) -> Result<(), Memory>
    ensures { OnOk result (onto.new.items ≡ onto.old.items ++ tally_text (reverse entries.now)) }
{
    let tally = Tally::of(alloc, entries)?;
    push_counts(tally.len, tally.counts, onto)?;
    push_refusals(&tally.refusals, onto)?;
    push_driver(tally.odd, onto)?;
    Ok(())
}

#[tactic(auto, unfolding(crate::specs::TallyText::counts_text))]
fn push_counts(entries: u64, counts: Counts, onto: &mut Vec<u8>) -> Result<(), Memory>
    ensures { OnOk result (onto.new.items ≡ onto.old.items ++ counts_text entries counts) }
{
    push_number("entries", entries, onto)?;
    push_number("written", counts.written, onto)?;
    push_number("entered", counts.entered, onto)?;
    push_number("cached", counts.cached, onto)?;
    push_number("reloaded", counts.reloaded, onto)?;
    push_number("again", counts.again, onto)?;
    Ok(())
}

fn push_number(name: &'static str, number: u64, onto: &mut Vec<u8>) -> Result<(), Memory>
    ensures { OnOk result (onto.new.items ≡ onto.old.items ++ number_line name.now number) }
{
    push_line(Name(name), &[Decimal(number)], onto)
}

#[tactic(auto, unfolding(crate::specs::TallyText::refusals_text))]
fn push_refusals(rows: &[RefusalCount], onto: &mut Vec<u8>) -> Result<(), Memory>
    ensures { OnOk result (onto.new.items ≡ onto.old.items ++ refusals_text rows.now) }
{
    for row in rows {
        push_row(row, onto)?;
    }
    Ok(())
}

fn push_row(row: &RefusalCount, onto: &mut Vec<u8>) -> Result<(), Memory>
    ensures { OnOk result (onto.new.items ≡ onto.old.items ++ line_text (refusal_words row.now)) }
{
    push_line(
        Name("refused"),
        &[
            Name(action_name(&row.action)),
            Name(refusal_name(&row.why)),
            Decimal(row.count),
            Decimal(row.place),
        ],
        onto,
    )
}

fn push_driver(odd: Option<u64>, onto: &mut Vec<u8>) -> Result<(), Memory>
    ensures { OnOk result (onto.new.items ≡ onto.old.items ++ line_text (driver_words odd)) }
{
    match odd {
        Some(place) => push_line(Name("driver"), &[Name("no"), Decimal(place)], onto),
        None => push_line(Name("driver"), &[Name("yes")], onto),
    }
}
