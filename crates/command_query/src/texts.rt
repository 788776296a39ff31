//! The texts that answer questions to a trace.

ghost use Rattle.std.specs.Prelude.{◌≡◌, ◌++◌, List, IfOk, OnOk, reverse};
ghost use Rattle.command_query.specs.AnswerText.{answer_text, cached_words, first_word, move_words, moves_text, page_text, where_words};
ghost use Rattle.sgx_rules.specs.declared.entries.Entry.{Entry};
ghost use Rattle.text_words.specs.Words.{line_text};
ghost use Rattle.trace_query.specs.Index.{IndexStands};

use crate::indexing::index_of;
use command_words::question::Question;
use job_grammar::jobs::Job;
use sgx_rules::entries::Entry;
use sgx_types::names::{Cpu, Memory};
use std::alloc::Global;
use text_words::words::Word::{Decimal, Name};
use text_words::words::{push_line, push_word};
use trace_places::moves::Where;
use trace_query::index::Index;
use trace_query::page_moves::Move;

/// The text that answers a question to a trace of a job, whose entries stand oldest first. On a page behind so many entries it has a line
/// each for where the page is, for the processors that cache it, and for its first word. On the moves of a page it has a line for each,
/// with the place first. Any list of entries is taken.
pub fn print_answer(
    alloc: Global,
    job: &Job,
    entries: &[Entry],
    question: Question,
) -> Result<Vec<u8>, Memory>
    ensures { IfOk result (λ text. text.items ≡ answer_text question (reverse entries.now)) }
{
    let index = index_of(alloc, job, entries)?;
    answer(alloc, &index, question)
}

fn answer(alloc: Global, index: &Index, question: Question) -> Result<Vec<u8>, Memory>
    ensures { IfOk result (λ text. (past : List Entry) → IndexStands index.now past → text.items ≡ answer_text question past) }
{
    match question {
        Question::Behind { place, page } => {
            let cpus = index.who_caches(alloc, place, page)?;
            let there = index.where_is(place, page);
            let value = index.word_at(place, page, 0);
            let text = print_page(alloc, there, &cpus, value)?;
            Ok(text)
        }
        Question::Moves { page } => {
            let moves = index.moves(alloc, page)?;
            let text = print_moves(alloc, &moves)?;
            Ok(text)
        }
    }
}

#[tactic(auto, unfolding(crate::specs::AnswerText::page_text))]
fn print_page(
    alloc: Global,
    there: Where,
    cpus: &[Cpu],
    value: Option<u64>,
) -> Result<Vec<u8>, Memory>
    ensures { IfOk result (λ text. text.items ≡ page_text there cpus.now value) }
{
    let mut text = Vec::new(alloc);
    push_where(there, &mut text)?;
    push_cached(cpus, &mut text)?;
    push_first_word(value, &mut text)?;
    Ok(text)
}

#[tactic(auto, unfolding(crate::specs::AnswerText::moves_text))]
fn print_moves(alloc: Global, moves: &[Move]) -> Result<Vec<u8>, Memory>
    ensures { IfOk result (λ text. text.items ≡ moves_text moves.now) }
{
    let mut text = Vec::new(alloc);
    for step in moves {
        push_move(*step, &mut text)?;
    }
    Ok(text)
}

fn push_where(there: Where, text: &mut Vec<u8>) -> Result<(), Memory>
    ensures { OnOk result (text.new.items ≡ text.old.items ++ line_text (where_words there)) }
{
    match there {
        Where::Nowhere => push_line(Name("at"), &[Name("nowhere")], text),
        Where::At(frame) => push_line(Name("at"), &[Name("frame"), frame.into()], text),
        Where::Loading(frame) => push_line(Name("at"), &[Name("loading"), frame.into()], text),
        Where::Sealed { version } => {
            push_line(Name("at"), &[Name("sealed"), Decimal(version)], text)
        }
    }
}

fn push_cached(cpus: &[Cpu], text: &mut Vec<u8>) -> Result<(), Memory>
    ensures { OnOk result (text.new.items ≡ text.old.items ++ line_text (cached_words cpus.now)) }
{
    push_word(Name("cached"), text)?;
    for cpu in cpus {
        text.push(b' ')?;
        push_word(Decimal(u64::from(cpu.0)), text)?;
    }
    text.push(b'\n')?;
    Ok(())
}

fn push_first_word(value: Option<u64>, text: &mut Vec<u8>) -> Result<(), Memory>
    ensures { OnOk result (text.new.items ≡ text.old.items ++ line_text (first_word value)) }
{
    match value {
        Some(value) => push_line(Name("word"), &[Decimal(value)], text),
        None => push_line(Name("word"), &[Name("none")], text),
    }
}

fn push_move(step: Move, text: &mut Vec<u8>) -> Result<(), Memory>
    ensures { OnOk result (text.new.items ≡ text.old.items ++ line_text (move_words step)) }
{
    push_word(Decimal(step.place), text)?;
    text.push(b' ')?;
    push_where(step.to, text)?;
    Ok(())
}
