//! The lines of a picture: strict JSON, one event a line.

ghost use Rattle.std.specs.Prelude.{◌≡◌, ◌≤◌, ◌<◌, ◌^◌, ◌+◌, ◌++◌, ◌∷◌, [], List, length, map, slice_get};
ghost use Rattle.sgx_rules.specs.declared.entries.Entry.{Entry};
ghost use Rattle.text_words.specs.inner.Room.{HasRoom, UsesRoom, word_room, words_room};
ghost use Rattle.text_words.specs.inner.Words.{word_text};
ghost use Rattle.trace_text.specs.Fields.{page_words};
ghost use Rattle.picture_text.specs.declared.events.Lane.{Lane};
ghost use Rattle.picture_text.specs.PictureText.{cause, event_text, event_words, head_text, lane_text, lane_words, mark_text, spaced};
ghost use Rattle.picture_text.specs.PictureText.{on_lane, span_words, tail_text};
ghost use Rattle.picture_text.specs.inner.Following.{AreNumbered};
ghost use Rattle.picture_text.specs.inner.Parts.{parts_room, parts_text};

use crate::events::{Lane, Mark, PictureEvent, Span};
use crate::lanes::{Lanes, process};
use crate::names::counter_name;
use sgx_rules::entries::{Entry, Event};
use sgx_types::names::Page;
use text_words::words::Word::{self, Decimal, Enclave, Name};
use text_words::words::{write_word, write_words};
use trace_text::edition::Edition;
use trace_text::names::action_name;
use trace_text::room::SPELLING_ROOM;
use trace_text::trace::print_spelling;

/// A line of a picture has at most so many bytes. Where a text has as much room, no memory is asked for.
pub const LONGEST_LINE: usize = 2048;

// A name between quotes.
const NAME_ROOM: usize = 400;

// Which lane a line is on.
const LANE_ROOM: usize = 200;

// The cause of an event.
const CAUSE_ROOM: usize = 1200;

// Writes parts one behind the other, into room for them.
#[tactic(auto, using(crate::proofs::PartLaws::parts_room_more))]
fn write_parts(parts: &[Word], onto: &mut Vec<u8>)
    requires { HasRoom (parts_room parts.now) onto.old }
    ensures text { onto.new.items ≡ onto.old.items ++ parts_text parts.now }
    ensures room { UsesRoom (parts_room parts.now) onto.old onto.new }
{
    for part in parts {
        write_word(*part, onto);
    }
}

/// Writes what stands before the lines of all events.
pub fn print_head(onto: &mut Vec<u8>)
    requires { HasRoom LONGEST_LINE onto.old }
    ensures text { onto.new.items ≡ onto.old.items ++ head_text }
    ensures room { UsesRoom LONGEST_LINE onto.old onto.new }
{
    write_parts(
        &[
            Name("{\"traceEvents\":[\n"),
            Name(
                "{\"ph\":\"M\",\"pid\":1,\"tid\":0,\"name\":\"process_name\",\"args\":{\"name\":\"processors\"}},\n",
            ),
            Name(
                "{\"ph\":\"M\",\"pid\":2,\"tid\":0,\"name\":\"process_name\",\"args\":{\"name\":\"frames\"}},\n",
            ),
            Name(
                "{\"ph\":\"M\",\"pid\":3,\"tid\":0,\"name\":\"process_name\",\"args\":{\"name\":\"pages\"}},\n",
            ),
            Name(
                "{\"ph\":\"M\",\"pid\":4,\"tid\":0,\"name\":\"process_name\",\"args\":{\"name\":\"driver\"}},\n",
            ),
        ],
        onto,
    );
}

/// Writes the end of so many entries.
pub fn print_tail(entries: usize, onto: &mut Vec<u8>)
    requires { HasRoom LONGEST_LINE onto.old }
    ensures text { onto.new.items ≡ onto.old.items ++ tail_text entries }
    ensures room { UsesRoom LONGEST_LINE onto.old onto.new }
{
    write_parts(
        &[
            Name("{\"ph\":\"I\",\"pid\":4,\"tid\":1,\"ts\":"),
            Decimal(entries as u64),
            Name(",\"s\":\"g\",\"name\":\"end\"}\n]}\n"),
        ],
        onto,
    );
}

/// Writes the line that names a lane.
#[tactic(auto, unfolding(crate::specs::PictureText::lane_text))]
pub fn print_lane(known: &Lanes, lane: Lane, onto: &mut Vec<u8>)
    requires { HasRoom LONGEST_LINE onto.old }
    ensures text { (lanes : List Lane) → AreNumbered known.now lanes → onto.new.items ≡ onto.old.items ++ lane_text lanes lane }
    ensures room { UsesRoom LONGEST_LINE onto.old onto.new }
{
    write_parts(&[Name("{\"ph\":\"M\",")], onto);
    write_lane(known, lane, onto);
    write_parts(
        &[Name(",\"name\":\"thread_name\",\"args\":{\"name\":\"")],
        onto,
    );
    write_lane_name(lane, onto);
    write_parts(&[Name("\"}},\n")], onto);
}

/// Writes the line of an event of entries, which stand oldest first.
#[tactic(auto, unfolding(crate::specs::PictureText::event_text))]
pub fn print_event(entries: &[Entry], known: &Lanes, event: &PictureEvent, onto: &mut Vec<u8>)
    requires { HasRoom LONGEST_LINE onto.old }
    ensures text { (lanes : List Lane) → AreNumbered known.now lanes
        → onto.new.items ≡ onto.old.items ++ event_text entries.now lanes event.now }
    ensures room { UsesRoom LONGEST_LINE onto.old onto.new }
{
    if let Some(entry) = entries.get(event.place) {
        write_event(entry, known, event, onto);
    }
}

fn write_event(entry: &Entry, known: &Lanes, event: &PictureEvent, onto: &mut Vec<u8>)
    requires place { event.now.place < 2 ^ 63 }
    requires room { HasRoom LONGEST_LINE onto.old }
    ensures text { (lanes : List Lane) → AreNumbered known.now lanes
        → onto.new.items ≡ onto.old.items ++ mark_text lanes entry.now event.now.place event.now.lane event.now.mark }
    ensures room { UsesRoom LONGEST_LINE onto.old onto.new }
{
    let behind = event.place as u64 + 1;
    match event.mark {
        Mark::Begins(span) => {
            write_parts(&[Name("{\"ph\":\"B\",")], onto);
            write_lane(known, event.lane, onto);
            write_parts(
                &[Name(",\"ts\":"), Decimal(behind), Name(",\"name\":\"")],
                onto,
            );
            write_span_name(span, onto);
            write_parts(&[Name("\"")], onto);
            write_cause(entry, event.place, onto);
        }
        Mark::Ends => {
            write_parts(&[Name("{\"ph\":\"E\",")], onto);
            write_lane(known, event.lane, onto);
            write_parts(&[Name(",\"ts\":"), Decimal(behind), Name("},\n")], onto);
        }
        Mark::Does => {
            write_parts(&[Name("{\"ph\":\"X\",")], onto);
            write_lane(known, event.lane, onto);
            write_parts(
                &[
                    Name(",\"ts\":"),
                    Decimal(event.place as u64),
                    Name(",\"dur\":1,\"name\":\""),
                ],
                onto,
            );
            write_event_name(&entry.event, onto);
            write_parts(&[Name("\"")], onto);
            write_cause(entry, event.place, onto);
        }
        Mark::Counts { counter, value } => {
            write_parts(&[Name("{\"ph\":\"C\",")], onto);
            write_lane(known, event.lane, onto);
            write_parts(
                &[
                    Name(",\"ts\":"),
                    Decimal(behind),
                    Name(",\"name\":\""),
                    Name(counter_name(counter)),
                    Name("\",\"args\":{\"n\":"),
                    Decimal(value),
                    Name("}},\n"),
                ],
                onto,
            );
        }
    }
}

fn write_lane(known: &Lanes, lane: Lane, onto: &mut Vec<u8>)
    requires { HasRoom LANE_ROOM onto.old }
    ensures text { (lanes : List Lane) → AreNumbered known.now lanes → onto.new.items ≡ onto.old.items ++ on_lane lanes lane }
    ensures room { UsesRoom LANE_ROOM onto.old onto.new }
{
    write_parts(
        &[
            Name("\"pid\":"),
            Decimal(process(lane).into()),
            Name(",\"tid\":"),
            Decimal(known.thread(lane)),
        ],
        onto,
    );
}

fn write_cause(entry: &Entry, place: usize, onto: &mut Vec<u8>)
    requires { HasRoom CAUSE_ROOM onto.old }
    ensures text { onto.new.items ≡ onto.old.items ++ cause entry.now place }
    ensures room { UsesRoom CAUSE_ROOM onto.old onto.new }
{
    write_parts(&[Name(",\"args\":{\"line\":\"")], onto);
    print_spelling(Edition::Two, entry, onto);
    write_parts(
        &[Name("\",\"place\":"), Decimal(place as u64), Name("}},\n")],
        onto,
    );
}

// Writes words with a space between two, into room for them.
#[tactic(auto, using(text_words::proofs::LineLaws::with_words_join))]
fn write_name(first: Word, others: &[Word], onto: &mut Vec<u8>)
    requires { HasRoom (words_room (first ∷ others.now)) onto.old }
    ensures text { onto.new.items ≡ onto.old.items ++ spaced (word_text first ∷ map word_text others.now) }
    ensures room { UsesRoom (words_room (first ∷ others.now)) onto.old onto.new }
{
    write_word(first, onto);
    write_words(others, onto);
}

// The two words of a page.
fn page_names(page: Page) -> (Word, Word)
    ensures words { page_words Edition.Two page ≡ word_text result.0 ∷ word_text result.1 ∷ [] }
    ensures first { word_room result.0 ≤ 66 }
    ensures second { word_room result.1 ≤ 66 }
{
    if page.enclave == 0 {
        (Name("va"), Decimal(page.number.into()))
    } else if page.number == u32::MAX && page.enclave < 9 {
        (Enclave(page.enclave.into()), Name("secs"))
    } else {
        (Enclave(page.enclave.into()), Decimal(page.number.into()))
    }
}

fn write_span_name(span: Span, onto: &mut Vec<u8>)
    requires { HasRoom NAME_ROOM onto.old }
    ensures text { onto.new.items ≡ onto.old.items ++ spaced (span_words span) }
    ensures room { UsesRoom NAME_ROOM onto.old onto.new }
{
    match span {
        Span::Inside { enclave, tcs } => write_inside(enclave, tcs, onto),
        Span::Holds(page) => write_page(page, onto),
        Span::Awaits(page) => write_of_page("loading", page, onto),
        Span::Blocked => write_name(Name("blocked"), &[], onto),
        Span::Sealing => write_name(Name("sealing"), &[], onto),
        Span::At(frame) => write_name(Name("frame"), &[frame.into()], onto),
        Span::Loading(frame) => write_name(Name("loading"), &[frame.into()], onto),
        Span::Sealed { version } => write_name(Name("sealed"), &[Decimal(version)], onto),
    }
}

fn write_inside(enclave: u16, tcs: u32, onto: &mut Vec<u8>)
    requires { HasRoom NAME_ROOM onto.old }
    ensures text { onto.new.items ≡ onto.old.items ++ spaced (span_words (Span.Inside enclave tcs)) }
    ensures room { UsesRoom NAME_ROOM onto.old onto.new }
{
    write_name(
        Name("in"),
        &[
            Enclave(enclave.into()),
            Name("by"),
            Name("tcs"),
            Decimal(tcs.into()),
        ],
        onto,
    );
}

fn write_page(page: Page, onto: &mut Vec<u8>)
    requires { HasRoom NAME_ROOM onto.old }
    ensures text { onto.new.items ≡ onto.old.items ++ spaced (page_words Edition.Two page) }
    ensures room { UsesRoom NAME_ROOM onto.old onto.new }
{
    let (first, second) = page_names(page);
    write_name(first, &[second], onto);
}

// A word, and a page behind it.
fn write_of_page(word: &'static str, page: Page, onto: &mut Vec<u8>)
    requires short { length word.now ≤ 16 }
    requires room { HasRoom NAME_ROOM onto.old }
    ensures text { onto.new.items ≡ onto.old.items ++ spaced (word.now ∷ page_words Edition.Two page) }
    ensures room { UsesRoom NAME_ROOM onto.old onto.new }
{
    let (first, second) = page_names(page);
    write_name(Name(word), &[first, second], onto);
}

fn write_event_name(event: &Event, onto: &mut Vec<u8>)
    requires { HasRoom NAME_ROOM onto.old }
    ensures text { onto.new.items ≡ onto.old.items ++ spaced (event_words event.now) }
    ensures room { UsesRoom NAME_ROOM onto.old onto.new }
{
    match event {
        Event::Did { action, .. } => write_name(Name(action_name(action)), &[], onto),
        Event::Refused { action, .. } => write_name(
            Name("refused"),
            &[Name(action_name(action))],
            onto,
        ),
        Event::Age { page, .. } => write_of_page("age", *page, onto),
        Event::Kick { cpu } => write_name(Name("kick"), &[Decimal(cpu.0.into())], onto),
        Event::Bus { page, .. } => write_of_page("bus", *page, onto),
    }
}

fn write_lane_name(lane: Lane, onto: &mut Vec<u8>)
    requires { HasRoom NAME_ROOM onto.old }
    ensures text { onto.new.items ≡ onto.old.items ++ spaced (lane_words lane) }
    ensures room { UsesRoom NAME_ROOM onto.old onto.new }
{
    match lane {
        Lane::Processor(cpu) => { write_name(Name("processor"), &[Decimal(cpu.0.into())], onto) }
        Lane::Frame(frame) => write_name(Name("frame"), &[frame.into()], onto),
        Lane::Page(page) => write_page(page, onto),
        Lane::Builder => write_name(Name("builder"), &[], onto),
        Lane::Reclaimer => write_name(Name("reclaimer"), &[], onto),
        Lane::Counters => write_name(Name("counters"), &[], onto),
    }
}
