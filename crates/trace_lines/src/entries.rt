//! Entries that are read of their words.

ghost use Rattle.std.specs.Prelude.{◌≡◌, IfOk, IfSome, IsTrue};
ghost use Rattle.trace_lines.specs.inner.Reading.{Took, bus_of, done_of, entry_of, event_of, kick_of, knows, left, refused_of, texts};
ghost use Rattle.trace_lines.specs.inner.Reading.{words_in};
ghost use Rattle.trace_text.specs.Fields.{AllFit, event_fields};
ghost use Rattle.trace_text.specs.Readable.{IsKnown, IsReadable, IsTold, may_make};

use crate::cursor::{Cursor, page};
use crate::names::{look, stop};
use crate::operands::action;
use crate::outcomes::{answer, refusal};
use crate::words::{actor, cpu};
use sgx_rules::entries::{BusWhy, Entry, Event};
use sgx_types::names::{Actor, Memory};
use std::alloc::{AllocError, Global};
use trace_text::edition::Edition;

#[tactic(auto, using(crate::proofs::FitLaws::fit_both), unfolding(crate::specs::inner::Reading::refused_of))]
fn refused(words: &mut Cursor) -> Option<Event>
    ensures read { Took result (left words.new) (refused_of (left words.old)) }
    ensures fits { IfSome result (λ event. AllFit (event_fields event)) }
    ensures told { (edition : Edition) → IfSome result (IsTold edition) }
{
    let name = words.next();
    let action = action(name, words)?;
    let why = refusal(words)?;
    Some(Event::Refused { action, why })
}

#[tactic(auto, using(crate::proofs::FitLaws::fit_both), unfolding(crate::specs::inner::Reading::done_of))]
fn done(edition: Edition, name: &[u8], words: &mut Cursor) -> Option<Event>
    ensures read { Took result (left words.new) (done_of edition name.now (left words.old)) }
    ensures fits { IfSome result (λ event. AllFit (event_fields event)) }
    ensures told { IfSome result (IsTold edition) }
{
    let action = action(name, words)?;
    let answer = answer(edition, &action, words);
    Some(Event::Did { action, answer })
}

#[tactic(auto, unfolding(crate::specs::inner::Reading::kick_of))]
fn kick(words: &mut Cursor) -> Option<Event>
    ensures read { Took result (left words.new) (kick_of (left words.old)) }
    ensures fits { IfSome result (λ event. AllFit (event_fields event)) }
    ensures told { (edition : Edition) → IfSome result (IsTold edition) }
{
    Some(Event::Kick {
        cpu: cpu(words.next())?,
    })
}

#[tactic(auto, unfolding(crate::specs::inner::Reading::bus_of))]
fn bus(edition: Edition, words: &mut Cursor) -> Option<Event>
    ensures read { Took result (left words.new) (bus_of edition (left words.old)) }
    ensures fits { IfSome result (λ event. AllFit (event_fields event)) }
    ensures told { IfSome result (IsTold edition) }
{
    let page = page(words);
    let why = stop(words.next());
    if is_known(edition, why) {
        Some(Event::Bus { page, why })
    } else {
        None
    }
}

/// Whether an edition has a word for why a page could not be reloaded.
fn is_known(edition: Edition, why: BusWhy) -> bool
    ensures known { result ≡ knows edition why }
    ensures told { IsTrue result → IsKnown edition why }
{
    match (edition, why) {
        (Edition::One, BusWhy::Slot) => false,
        _ => true,
    }
}

#[tactic(auto, unfolding(crate::specs::inner::Reading::event_of))]
fn event(edition: Edition, words: &mut Cursor) -> Option<Event>
    ensures read { Took result (left words.new) (event_of edition (left words.old)) }
    ensures fits { IfSome result (λ event. AllFit (event_fields event)) }
    ensures told { IfSome result (IsTold edition) }
{
    let name = words.next();
    if name == b"refused".as_slice() {
        refused(words)
    } else if name == b"age".as_slice() {
        Some(Event::Age {
            page: page(words),
            look: look(words.next()),
        })
    } else if name == b"kick".as_slice() {
        kick(words)
    } else if name == b"bus".as_slice() {
        bus(edition, words)
    } else {
        done(edition, name, words)
    }
}

/// Whether an actor can make an event: looks and kicks are the reclaimer's, and a page stops a processor.
fn is_own(actor: Actor, event: Event) -> bool
    ensures { result ≡ may_make actor event }
{
    match event {
        Event::Age { .. } | Event::Kick { .. } => matches!(actor, Actor::Reclaimer),
        Event::Bus { .. } => matches!(actor, Actor::Cpu(_)),
        Event::Did { .. } | Event::Refused { .. } => true,
    }
}

/// The entry that words tell, in any spelling of their numbers.
#[tactic(auto, unfolding(crate::specs::inner::Reading::entry_of))]
fn entry(edition: Edition, words: &[&[u8]]) -> Option<Entry>
    ensures read { result ≡ entry_of edition (texts words.now) }
    ensures fits { IfSome result (IsReadable edition) }
{
    let mut words = Cursor::new(words);
    let actor = actor(words.next())?;
    let event = event(edition, &mut words)?;
    if is_own(actor, event) && words.is_at_end() {
        Some(Entry { actor, event })
    } else {
        None
    }
}

/// The words of a line. No entry has more than 15, so that more than 16 need not be looked at.
#[tactic(auto, unfolding(crate::specs::inner::Reading::words_in))]
fn line_words(alloc: Global, line: &[u8]) -> Result<Vec<&[u8]>, AllocError>
    ensures { IfOk result (λ words. texts words.items ≡ words_in line.now) }
{
    line.split(|byte| *byte == b' ').take(16).collect(alloc)
}

/// The entry that the words of a line tell, in any spelling of their numbers.
pub(crate) fn entry_in(
    alloc: Global,
    edition: Edition,
    line: &[u8],
) -> Result<Option<Entry>, Memory>
    ensures read { IfOk result (λ read. read ≡ entry_of edition (words_in line.now)) }
    ensures fits { IfOk result (λ read. IfSome read (IsReadable edition)) }
{
    let words = line_words(alloc, line)?;
    Ok(entry(edition, &words))
}
