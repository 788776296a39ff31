//! The command that the words of the command line name.

ghost use Rattle.command_words.specs.Commands.{command_in, is_help, path_by, rounds_of, size_of, sized_by, with_path};
ghost use Rattle.command_words.specs.Numbers.{count_of, is_digit};
ghost use Rattle.command_words.specs.Questions.{asks_behind, asks_moves, behind_of, moves_asked, number_below, own_page, page_asked};
ghost use Rattle.command_words.specs.declared.command.Command.TheVariants as commands;
ghost use Rattle.command_words.specs.inner.Commands.{IsSized};
ghost use Rattle.command_words.specs.Commands.{help_of, with_rounds, with_size, with_word};
ghost use Rattle.std.specs.List.{list_all};
ghost use Rattle.std.specs.Prelude.{◌≡◌, ◌≤◌, ◌^◌, IfSome, map, string_bytes};

use crate::question::Question;
use crate::rules::Rules;
use crate::showing::Showing;
use crate::telling::Telling;
use sgx_types::names::{Page, SECS_NUMBER};
use text_words::readers::{letter, number};

/// A command (this project's own).
#[derive(Clone, Copy, Debug, PartialEq, Eq)]
pub enum Command {
    /// `run PATH`: runs a job, and gives its trace to the file at the path, which is not empty.
    Run,

    /// `make NUMBER SIZE`: the text of the job that is made of a number and a size from 4 to 2000.
    Make { number: u64, size: u32 },

    /// `demo NUMBER SIZE`: runs that job, and gives a summary.
    Demo { number: u64, size: u32 },

    /// `least PATH`, `audit PATH`, `check PATH`, `query PATH PLACE L PAGE` or `moves PATH L PAGE`: what is told of a job and a trace, which
    /// is the file at the path, which is not empty.
    Tell { telling: Telling },

    /// `picture PATH` or `migrate PATH`: a trace, which is the file at the path, which is not empty, is shown.
    Show { showing: Showing },

    /// `gate ROUNDS`: from 1 to 100,000 rounds of four processors and a pager at a gate with no lock.
    Gate { rounds: u32 },

    /// `help` or `--help`: what the commands are.
    Help,
}

/// The command that these words name, which stand without the program's name. NUMBER, SIZE, ROUNDS and PLACE are one to twenty decimal
/// digits, with a value below 2^64. L is a letter from A to H, whether a job has the enclave or not, and PAGE the number of a page in it,
/// below 4294967295, or `secs`. Where L is `va`, PAGE is the number of a version array page, counted from 0 as they were made.
pub fn command_of(words: &[String]) -> Option<Command>
    ensures value { result ≡ command_in (map string_bytes words.now) }
    ensures sized { IfSome result IsSized }
{
    match words {
        [name] => lone_command(name),
        [name, word] => word_command(name, word),
        [name, first, second] => sized_command(name, first, second),
        [name, path, letter, page] => moves_command(name, path, letter, page),
        [name, path, place, letter, page] => query_command(name, path, place, letter, page),
        _ => None,
    }
}

fn lone_command(name: &str) -> Option<Command>
    ensures value { result ≡ help_of name.now }
    ensures sized { IfSome result IsSized }
{
    if is_help(name) {
        Some(Command::Help)
    } else {
        None
    }
}

fn is_help(name: &str) -> bool
    ensures { result ≡ is_help name.now }
{
    name == "help" || name == "--help"
}

fn word_command(name: &str, word: &str) -> Option<Command>
    ensures value { result ≡ with_word name.now word.now }
    ensures sized { IfSome result IsSized }
{
    if name == "gate" {
        gate_command(word)
    } else {
        path_command(name, word)
    }
}

fn path_command(name: &str, path: &str) -> Option<Command>
    ensures value { result ≡ with_path name.now path.now }
    ensures sized { IfSome result IsSized }
{
    if path.is_empty() {
        None
    } else {
        path_command_by(name)
    }
}

fn path_command_by(name: &str) -> Option<Command>
    ensures value { result ≡ path_by name.now }
    ensures sized { IfSome result IsSized }
{
    if name == "run" {
        Some(Command::Run)
    } else if name == "least" {
        Some(tell(Telling::Least))
    } else if name == "audit" {
        Some(tell(Telling::Judge(Rules::All)))
    } else if name == "check" {
        Some(tell(Telling::Judge(Rules::Processors)))
    } else if name == "migrate" {
        Some(show(Showing::Migrated))
    } else if name == "picture" {
        Some(show(Showing::Picture))
    } else {
        None
    }
}

fn tell(telling: Telling) -> Command
    ensures { result ≡ commands.Tell telling }
{
    Command::Tell { telling }
}

fn show(showing: Showing) -> Command
    ensures { result ≡ commands.Show showing }
{
    Command::Show { showing }
}

fn gate_command(word: &str) -> Option<Command>
    ensures value { result ≡ with_rounds word.now }
    ensures sized { IfSome result IsSized }
{
    let rounds = rounds(word.as_bytes())?;
    Some(Command::Gate { rounds })
}

fn sized_command(name: &str, first: &str, second: &str) -> Option<Command>
    ensures value { result ≡ with_size name.now first.now second.now }
    ensures sized { IfSome result IsSized }
{
    let number = count(first.as_bytes())?;
    let size = size(second.as_bytes())?;
    command_by(name, number, size)
}

fn command_by(name: &str, number: u64, size: u32) -> Option<Command>
    requires least { 4 ≤ size }
    requires most { size ≤ 2000 }
    ensures value { result ≡ sized_by name.now number size }
    ensures sized { IfSome result IsSized }
{
    if name == "make" {
        Some(Command::Make { number, size })
    } else if name == "demo" {
        Some(Command::Demo { number, size })
    } else {
        None
    }
}

fn query_command(name: &str, path: &str, place: &str, letter: &str, page: &str) -> Option<Command>
    ensures value { result ≡ asks_behind name.now path.now place.now letter.now page.now }
    ensures sized { IfSome result IsSized }
{
    if name == "query" && !path.is_empty() {
        behind(place.as_bytes(), letter.as_bytes(), page.as_bytes())
    } else {
        None
    }
}

fn behind(place: &[u8], letter: &[u8], page: &[u8]) -> Option<Command>
    ensures value { result ≡ behind_of place.now letter.now page.now }
    ensures sized { IfSome result IsSized }
{
    let place = count(place)?;
    let page = page_of(letter, page)?;
    Some(tell(Telling::Ask(Question::Behind { place, page })))
}

fn moves_command(name: &str, path: &str, letter: &str, page: &str) -> Option<Command>
    ensures value { result ≡ asks_moves name.now path.now letter.now page.now }
    ensures sized { IfSome result IsSized }
{
    if name == "moves" && !path.is_empty() {
        moves(letter.as_bytes(), page.as_bytes())
    } else {
        None
    }
}

fn moves(letter: &[u8], page: &[u8]) -> Option<Command>
    ensures value { result ≡ moves_asked letter.now page.now }
    ensures sized { IfSome result IsSized }
{
    let page = page_of(letter, page)?;
    Some(tell(Telling::Ask(Question::Moves { page })))
}

// The page that two words name.
fn page_of(name: &[u8], page: &[u8]) -> Option<Page>
    ensures { result ≡ page_asked name.now page.now }
{
    if name == b"va".as_slice() {
        let number = number_below(1 << 32, page)?;
        Some(Page { enclave: 0, number })
    } else {
        let enclave = letter(name)?;
        own_page(enclave, page)
    }
}

// A page of an enclave, or its SECS.
fn own_page(enclave: u16, page: &[u8]) -> Option<Page>
    ensures { result ≡ own_page enclave page.now }
{
    if page == b"secs".as_slice() {
        Some(Page {
            enclave,
            number: SECS_NUMBER,
        })
    } else {
        let number = number_below(u64::from(SECS_NUMBER), page)?;
        Some(Page { enclave, number })
    }
}

// .. below a limit.
fn number_below(limit: u64, word: &[u8]) -> Option<u32>
    requires { limit ≤ 2 ^ 32 }
    ensures { result ≡ number_below limit word.now }
{
    let number = count(word)?;
    if number < limit {
        Some(number as u32)
    } else {
        None
    }
}

// One to twenty decimal digits, with a value below 2^64.
fn count(word: &[u8]) -> Option<u64>
    ensures { result ≡ count_of word.now }
{
    if word.len() <= 20 && are_digits(word) {
        number(word)
    } else {
        None
    }
}

fn are_digits(word: &[u8]) -> bool
    ensures { result ≡ list_all is_digit word.now }
{
    word.iter().all(|byte| matches!(byte, b'0'..=b'9'))
}

// .. from 4 to 2000.
fn size(word: &[u8]) -> Option<u32>
    ensures value { result ≡ size_of word.now }
    ensures least { IfSome result (λ size. 4 ≤ size) }
    ensures most { IfSome result (λ size. size ≤ 2000) }
{
    let size = count(word)?;
    if (4..=2000).contains(&size) {
        Some(size as u32)
    } else {
        None
    }
}

// .. from 1 to 100,000.
fn rounds(word: &[u8]) -> Option<u32>
    ensures value { result ≡ rounds_of word.now }
    ensures least { IfSome result (λ rounds. 1 ≤ rounds) }
    ensures most { IfSome result (λ rounds. rounds ≤ 100000) }
{
    let rounds = count(word)?;
    if (1..=100_000).contains(&rounds) {
        Some(rounds as u32)
    } else {
        None
    }
}
