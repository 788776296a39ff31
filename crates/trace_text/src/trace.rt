//! The text of a trace.

ghost use Rattle.std.specs.Prelude.{◌≡◌, ◌++◌, drop, reverse, IfOk};
ghost use Rattle.trace_text.specs.Fields.{answer_fields, event_fields, refusal_fields, words_of_fields};
ghost use Rattle.trace_text.specs.TraceText.{actor_word, entry_text, first_line, last_line, spelling, trace_of};
ghost use Rattle.text_words.specs.inner.Room.{HasRoom, UsesRoom};
ghost use Rattle.text_words.specs.inner.Words.{with_words};

use crate::actions::{write_action, write_page};
use crate::edition::Edition;
use crate::names::{fault_name, look_name, refusal_name, stop_name};
use crate::room::{ACTOR_ROOM, ANSWER_ROOM, EVENT_ROOM, LONGEST_LINE, SPELLING_ROOM};
use sgx_rules::entries::{Action, Answer, BusWhy, Entry, Event, Look};
use sgx_rules::refusals::Refusal;
use sgx_types::names::{Actor, Cpu, Memory, Page};
use std::alloc::Global;
use text_words::words::Word::{Decimal, Digest, Name};
use text_words::words::{write_line, write_spaced, write_word, write_words};

/// The text of a trace, whose entries are given oldest first.
#[tactic(auto, using(crate::proofs::EntryLaws::entries_text_more), unfolding(crate::specs::TraceText::trace_in))]
pub fn print_trace(alloc: Global, entries: &[Entry]) -> Result<Vec<u8>, Memory>
    ensures { IfOk result (λ text. text.items ≡ trace_of (reverse entries.now)) }
{
    let mut text = Vec::with_capacity(alloc, LONGEST_LINE)?;
    print_first_line(&mut text);
    for entry in entries {
        text.reserve(LONGEST_LINE)?;
        print_entry(entry, &mut text);
    }
    text.reserve(LONGEST_LINE)?;
    print_last_line(entries.len(), &mut text);
    Ok(text)
}

/// Writes the line before the entries.
pub fn print_first_line(onto: &mut Vec<u8>)
    requires { HasRoom LONGEST_LINE onto.old }
    ensures text { onto.new.items ≡ onto.old.items ++ first_line Edition.Two }
    ensures room { UsesRoom LONGEST_LINE onto.old onto.new }
{
    write_line(Name("trace"), &[Name("2")], onto);
}

/// Writes the line behind so many entries.
pub fn print_last_line(entries: usize, onto: &mut Vec<u8>)
    requires { HasRoom LONGEST_LINE onto.old }
    ensures text { onto.new.items ≡ onto.old.items ++ last_line entries }
    ensures room { UsesRoom LONGEST_LINE onto.old onto.new }
{
    write_line(Name("end"), &[Decimal(entries as u64)], onto);
}

/// Writes the line of an entry.
#[tactic(auto, unfolding(crate::specs::TraceText::entry_text))]
pub fn print_entry(entry: &Entry, onto: &mut Vec<u8>)
    requires { HasRoom LONGEST_LINE onto.old }
    ensures text { onto.new.items ≡ onto.old.items ++ entry_text Edition.Two entry.now }
    ensures room { UsesRoom LONGEST_LINE onto.old onto.new }
{
    print_spelling(Edition::Two, entry, onto);
    onto.push_reserved(b'\n');
}

/// Writes the line of an entry without its line feed, as an edition has it.
#[tactic(auto, using(text_words::proofs::LineLaws::with_words_join), unfolding(crate::specs::TraceText::spelling))]
pub fn print_spelling(edition: Edition, entry: &Entry, onto: &mut Vec<u8>)
    requires { HasRoom SPELLING_ROOM onto.old }
    ensures text { onto.new.items ≡ onto.old.items ++ spelling edition entry.now }
    ensures room { UsesRoom SPELLING_ROOM onto.old onto.new }
{
    write_actor(&entry.actor, onto);
    write_event(edition, &entry.event, onto);
}

fn write_actor(actor: &Actor, onto: &mut Vec<u8>)
    requires { HasRoom ACTOR_ROOM onto.old }
    ensures text { onto.new.items ≡ onto.old.items ++ actor_word actor.now }
    ensures room { UsesRoom ACTOR_ROOM onto.old onto.new }
{
    match *actor {
        Actor::Builder => write_word(Name("b"), onto),
        Actor::Cpu(cpu) => {
            write_word(Name("p"), onto);
            write_word(Decimal(cpu.0.into()), onto);
        }
        Actor::Reclaimer => write_word(Name("r"), onto),
    }
}

// A function pays at its entry for the lists of words of all its arms, so each arm with a list of them is one of its own.
#[tactic(auto, using(text_words::proofs::LineLaws::with_words_append, crate::proofs::FieldLaws::words_append))]
fn write_event(edition: Edition, event: &Event, onto: &mut Vec<u8>)
    requires { HasRoom EVENT_ROOM onto.old }
    ensures text { onto.new.items ≡ with_words onto.old.items (words_of_fields edition (event_fields event.now)) }
    ensures room { UsesRoom EVENT_ROOM onto.old onto.new }
{
    match event {
        Event::Did { action, answer } => {
            write_action(edition, action, onto);
            write_answer(edition, answer, onto);
        }
        Event::Refused { action, why } => write_refused(edition, action, why, onto),
        Event::Age { page, look } => write_age(edition, *page, *look, onto),
        Event::Kick { cpu } => write_kick(*cpu, onto),
        Event::Bus { page, why } => write_bus(edition, *page, *why, onto),
    }
}

#[tactic(auto, using(text_words::proofs::LineLaws::with_words_append, crate::proofs::FieldLaws::refused_words))]
fn write_refused(edition: Edition, action: &Action, why: &Refusal, onto: &mut Vec<u8>)
    requires { HasRoom EVENT_ROOM onto.old }
    ensures text { onto.new.items ≡ with_words onto.old.items (words_of_fields edition (event_fields (Event.Refused action.now why.now))) }
    ensures room { UsesRoom EVENT_ROOM onto.old onto.new }
{
    write_spaced(Name("refused"), onto);
    write_action(edition, action, onto);
    write_refusal(why, onto);
}

fn write_age(edition: Edition, page: Page, look: Look, onto: &mut Vec<u8>)
    requires { HasRoom EVENT_ROOM onto.old }
    ensures text { onto.new.items ≡ with_words onto.old.items (words_of_fields edition (event_fields (Event.Age page look))) }
    ensures room { UsesRoom EVENT_ROOM onto.old onto.new }
{
    write_spaced(Name("age"), onto);
    write_page(edition, page, onto);
    write_spaced(Name(look_name(look)), onto);
}

fn write_kick(cpu: Cpu, onto: &mut Vec<u8>)
    requires { HasRoom EVENT_ROOM onto.old }
    ensures text { onto.new.items ≡ with_words onto.old.items (words_of_fields Edition.Two (event_fields (Event.Kick cpu))) }
    ensures room { UsesRoom EVENT_ROOM onto.old onto.new }
{
    write_words(&[Name("kick"), Decimal(cpu.0.into())], onto);
}

fn write_bus(edition: Edition, page: Page, why: BusWhy, onto: &mut Vec<u8>)
    requires { HasRoom EVENT_ROOM onto.old }
    ensures text { onto.new.items ≡ with_words onto.old.items (words_of_fields edition (event_fields (Event.Bus page why))) }
    ensures room { UsesRoom EVENT_ROOM onto.old onto.new }
{
    write_spaced(Name("bus"), onto);
    write_page(edition, page, onto);
    write_spaced(Name(stop_name(why)), onto);
}

fn write_answer(edition: Edition, answer: &Answer, onto: &mut Vec<u8>)
    requires { HasRoom ANSWER_ROOM onto.old }
    ensures text { onto.new.items ≡ with_words onto.old.items (words_of_fields edition (answer_fields answer.now)) }
    ensures room { UsesRoom ANSWER_ROOM onto.old onto.new }
{
    match *answer {
        Answer::Plain => {}
        Answer::Cssa(count) => write_spaced(Decimal(count.into()), onto),
        Answer::Value(value) => write_spaced(Decimal(value), onto),
        Answer::Hash(digest) => write_hash(digest, onto),
        Answer::Version(version) => write_spaced(Decimal(version), onto),
        Answer::Moved { page, version, tag } => write_moved(edition, page, version, tag, onto),
        Answer::Pf(fault) => write_spaced(Name(fault_name(fault)), onto),
        Answer::Va(number) => write_spaced(Decimal(number.into()), onto),
    }
}

fn write_hash(digest: [u8; 32], onto: &mut Vec<u8>)
    requires { HasRoom ANSWER_ROOM onto.old }
    ensures text { onto.new.items ≡ with_words onto.old.items (words_of_fields Edition.Two (answer_fields (Answer.Hash digest))) }
    ensures room { UsesRoom ANSWER_ROOM onto.old onto.new }
{
    write_words(&[Digest(digest)], onto);
}

fn write_moved(edition: Edition, page: Page, version: u64, tag: [u8; 32], onto: &mut Vec<u8>)
    requires { HasRoom ANSWER_ROOM onto.old }
    ensures text { onto.new.items ≡ with_words onto.old.items (words_of_fields edition (answer_fields (Answer.Moved page version tag))) }
    ensures room { UsesRoom ANSWER_ROOM onto.old onto.new }
{
    write_page(edition, page, onto);
    write_words(&[Decimal(version), Digest(tag)], onto);
}

/// Writes a refusal's name and its numbers.
#[tactic(auto, using(text_words::proofs::LineLaws::with_words_named))]
fn write_refusal(refusal: &Refusal, onto: &mut Vec<u8>)
    requires { HasRoom ANSWER_ROOM onto.old }
    ensures text { onto.new.items ≡ with_words onto.old.items (words_of_fields Edition.Two (refusal_fields refusal.now)) }
    ensures room { UsesRoom ANSWER_ROOM onto.old onto.new }
{
    write_words(&[Name(refusal_name(refusal))], onto);
    write_refusal_fields(refusal, onto);
}

fn write_refusal_fields(refusal: &Refusal, onto: &mut Vec<u8>)
    requires { HasRoom 250 onto.old }
    ensures text { onto.new.items ≡ with_words onto.old.items (drop 1 (words_of_fields Edition.Two (refusal_fields refusal.now))) }
    ensures room { UsesRoom 250 onto.old onto.new }
{
    match *refusal {
        Refusal::PrevTrk { older } => write_words(&[Decimal(older.into())], onto),
        Refusal::NotTracked { epoch, older } => write_words(
            &[Decimal(epoch), Decimal(older.into())],
            onto,
        ),
        Refusal::SlotOccupied { version } => write_words(&[Decimal(version)], onto),
        Refusal::MacFail { given, computed } => write_words(
            &[Digest(given), Digest(computed)],
            onto,
        ),
        Refusal::BadHeader {
            enclave,
            address,
            flags,
        } => write_words(&[Decimal(enclave), Decimal(address), Decimal(flags)], onto),
        Refusal::ChildPresent { count } => write_words(&[Decimal(count.into())], onto),
        Refusal::BadMeasure { made } => write_words(&[Digest(made)], onto),
        _ => {}
    }
}
