//! The text of the output.

ghost use Rattle.std.specs.Prelude.{ℕ, ◌≡◌, ◌<◌, true, List, [], ◌∷◌, ◌++◌, length, reverse, flat_map, OnOk, IfOk};
ghost use Rattle.sgx_rules.specs.declared.entries.Entry.{Entry};
ghost use Rattle.sgx_rules.specs.Processors.{is_by};
ghost use Rattle.script_rules.specs.Script.{interrupted_after, numbers_from};
ghost use Rattle.text_words.specs.inner.Room.{HasRoom};
ghost use Rattle.text_words.specs.Words.{Words, line_text};
ghost use Rattle.run_replies.specs.inner.Gathered.{AreEndings, AreReplies, IsReplies, ended_by, ending_lines, line_at, lines_of};
ghost use Rattle.run_replies.specs.OutText.{done_reply, init_line, out_of, refused_reply, reply_words};

use job_grammar::jobs::Job;
use script_rules::replies::is_reply;
use sgx_rules::entries::{Action, Answer, Cause, Entry, Event};
use sgx_rules::refusals::Refusal;
use sgx_types::names::{Actor, Memory};
use std::alloc::Global;
use text_words::words::Word::{Decimal, Enclave, Name};
use text_words::words::{push_line, write_line};
use trace_text::names::{fault_name, refusal_name};

// The line of a reply has so many bytes at most.
const REPLY_ROOM: usize = 128;

/// How an enclave's EINIT ended.
#[derive(Clone, Copy)]
enum Ending {
    Initialised,
    WrongMeasurement,
}

/// The lines of a processor, and whether it is interrupted behind them.
#[derive(Drop)]
struct Replies {
    lines: Vec<u8>,
    is_interrupted: bool,
}

/// The output of a run, whose entries are given oldest first, in one walk over them.
#[tactic(auto, unfolding(crate::specs::OutText::out_of))]
pub fn print_out(alloc: Global, job: &Job, entries: &[Entry]) -> Result<Vec<u8>, Memory>
    ensures { IfOk result (λ text. text.items ≡ out_of job.now (reverse entries.now)) }
{
    let enclaves = job.enclaves().len();
    let mut endings = vec![in alloc; None; enclaves + 1]?;
    let mut replies = first_lines(alloc, job.scripts().len())?;
    for entry in entries {
        note_ending(entry, &mut endings);
        note_reply(entry, &mut replies)?;
    }
    let mut text = Vec::new(alloc);
    push_enclaves(enclaves, &endings, &mut text)?;
    push_cpus(&replies, &mut text)?;
    Ok(text)
}

/// The lines of so many processors before their first replies.
fn first_lines(alloc: Global, count: usize) -> Result<Vec<Replies>, Memory>
    ensures replies { IfOk result (λ all. AreReplies [] all.items) }
    ensures len { IfOk result (λ all. length all.items ≡ count) }
{
    let mut all = Vec::new(alloc);
    for cpu in 0..count {
        all.push(Replies::new(alloc, cpu)?)?;
    }
    Ok(all)
}

/// Takes in how an entry ended the EINIT of an enclave, by the enclave's number.
fn note_ending(entry: &Entry, endings: &mut Vec<Option<Ending>>)
    ensures ended { (past : List Entry) → AreEndings past endings.old.items → AreEndings (entry.now ∷ past) endings.new.items }
    ensures len { length endings.new.items ≡ length endings.old.items }
{
    if let Some((enclave, ending)) = ending_in(&entry.event) {
        if usize::from(enclave) < endings.len() {
            endings[usize::from(enclave)] = Some(ending);
        }
    }
}

/// Takes in a reply of a processor.
fn note_reply(entry: &Entry, all: &mut Vec<Replies>) -> Result<(), Memory>
    ensures replies { OnOk result ((past : List Entry) → AreReplies past all.old.items → AreReplies (entry.now ∷ past) all.new.items) }
    ensures len { length all.new.items ≡ length all.old.items }
{
    if let Actor::Cpu(cpu) = entry.actor {
        if usize::from(cpu.0) < all.len() {
            return all[usize::from(cpu.0)].note(&entry.event);
        }
    }
    Ok(())
}

#[tactic(auto, using(crate::proofs::NumberLaws::enclaves_more))]
fn push_enclaves(count: usize, endings: &[Option<Ending>], onto: &mut Vec<u8>) -> Result<(), Memory>
    requires { count < length endings.now }
    ensures { OnOk result (
        onto.new.items ≡ onto.old.items ++ flat_map line_text (flat_map (line_at endings.now) (numbers_from 1 count))) }
{
    for index in 0..count {
        push_ending(index + 1, endings[index + 1], onto)?;
    }
    Ok(())
}

/// Writes the line of an enclave, where its EINIT has ended.
fn push_ending(enclave: usize, ending: Option<Ending>, onto: &mut Vec<u8>) -> Result<(), Memory>
    ensures { OnOk result (onto.new.items ≡ onto.old.items ++ flat_map line_text (ending_lines enclave ending)) }
{
    match ending {
        None => Ok(()),
        Some(Ending::Initialised) => push_line(Enclave(enclave as u64), &[Name("init")], onto),
        Some(Ending::WrongMeasurement) => push_line(
            Enclave(enclave as u64),
            &[Name("badmeasure")],
            onto,
        ),
    }
}

fn push_cpus(all: &[Replies], onto: &mut Vec<u8>) -> Result<(), Memory>
    ensures { OnOk result (onto.new.items ≡ onto.old.items ++ flat_map lines_of all.now) }
{
    for own in all {
        onto.extend_from_slice(&own.lines)?;
    }
    Ok(())
}

/// How an event ended an EINIT, and whose.
fn ending_in(event: &Event) -> Option<(u16, Ending)>
    ensures { (enclave : ℕ) (before : List Words) → ended_by result enclave before ≡ init_line event.now enclave before }
{
    match *event {
        Event::Did {
            action: Action::Init { enclave, .. },
            ..
        } => Some((enclave, Ending::Initialised)),
        Event::Refused {
            action: Action::Init { enclave, .. },
            why: Refusal::BadMeasure { .. },
        } => Some((enclave, Ending::WrongMeasurement)),
        _ => None,
    }
}

fn write_done_reply(action: &Action, answer: &Answer, onto: &mut Vec<u8>)
    requires { HasRoom REPLY_ROOM onto.old }
    ensures { onto.new.items ≡ onto.old.items ++ line_text (done_reply action.now answer.now) }
{
    match (action, answer) {
        (Action::Enter { .. }, Answer::Cssa(count)) => write_line(
            Name("cssa"),
            &[Decimal(u64::from(*count))],
            onto,
        ),
        (Action::Resume { .. }, Answer::Value(acc)) => write_line(
            Name("acc"),
            &[Decimal(*acc)],
            onto,
        ),
        (Action::Exit, _) => write_line(Name("exit"), &[], onto),
        (
            Action::Aex {
                cause: Cause::Timer,
            },
            _,
        ) => write_line(Name("timer"), &[], onto),
        (Action::Store { .. } | Action::Set { .. }, _) => write_line(Name("ok"), &[], onto),
        (
            Action::Load { .. }
            | Action::Xadd { .. }
            | Action::Plus { .. }
            | Action::OutLoad { .. },
            Answer::Value(value),
        ) => write_line(Decimal(*value), &[], onto),
        (Action::Pf { .. }, Answer::Pf(fault)) => write_line(
            Name("pf"),
            &[Name(fault_name(*fault))],
            onto,
        ),
        (Action::OutStore { .. }, _) => write_line(Name("dropped"), &[], onto),
        _ => write_empty_line(onto),
    }
}

fn write_refused_reply(refusal: &Refusal, onto: &mut Vec<u8>)
    requires { HasRoom REPLY_ROOM onto.old }
    ensures { onto.new.items ≡ onto.old.items ++ line_text (refused_reply refusal.now) }
{
    match refusal {
        Refusal::WrongMode => write_line(Name("mode"), &[], onto),
        _ => write_line(Name("gp"), &[Name(refusal_name(refusal))], onto),
    }
}

fn write_empty_line(onto: &mut Vec<u8>)
    requires { HasRoom REPLY_ROOM onto.old }
    ensures { onto.new.items ≡ onto.old.items ++ line_text [] }
{
    onto.push_reserved(b'\n');
}

fn write_reply(event: &Event, onto: &mut Vec<u8>)
    requires { HasRoom REPLY_ROOM onto.old }
    ensures { onto.new.items ≡ onto.old.items ++ line_text (reply_words event.now) }
{
    match event {
        Event::Did { action, answer } => write_done_reply(action, answer, onto),
        Event::Refused { why, .. } => write_refused_reply(why, onto),
        Event::Bus { .. } => write_line(Name("bus"), &[], onto),
        _ => write_empty_line(onto),
    }
}

// Writes the line of a reply.
fn push_reply(event: &Event, onto: &mut Vec<u8>) -> Result<(), Memory>
    ensures { OnOk result (
        onto.new.items ≡ onto.old.items ++ line_text (reply_words event.now)) }
{
    onto.reserve(REPLY_ROOM)?;
    write_reply(event, onto);
    Ok(())
}

/// Whether a processor is interrupted after an event of its own: it left, and no operation asked for that.
pub fn interrupted_after(event: &Event, before: bool) -> bool
    ensures { result ≡ interrupted_after event.now before }
{
    match event {
        Event::Did {
            action: Action::Enter { .. } | Action::Resume { .. } | Action::Exit,
            ..
        } => false,
        Event::Did {
            action: Action::Aex { cause },
            ..
        } => matches!(cause, Cause::Fault | Cause::Kick),
        _ => before,
    }
}

impl Replies {
    // The first line of a processor.
    fn new(alloc: Global, cpu: usize) -> Result<Replies, Memory>
        ensures { IfOk result (IsReplies [] cpu) }
    {
        let mut lines = Vec::new(alloc);
        push_line(Name("cpu"), &[Decimal(cpu as u64)], &mut lines)?;
        Ok(Replies {
            lines,
            is_interrupted: false,
        })
    }

    // What an entry of its own adds.
    fn note(&mut self, event: &Event) -> Result<(), Memory>
        ensures { OnOk result ((past : List Entry) (p : ℕ) (e : Entry) → e.event ≡ event.now → is_by p e.actor ≡ true
            → IsReplies past p self.old → IsReplies (e ∷ past) p self.new) }
    {
        if is_reply(self.is_interrupted, event) {
            push_reply(event, &mut self.lines)?;
        }
        self.is_interrupted = interrupted_after(event, self.is_interrupted);
        Ok(())
    }
}
