//! The other commands, the words that are none, and what is told of each ending.

use crate::calls::given_by;
use crate::run_tests::JOB;
use crate::same::are_same;
use audit_check::watch::Watch;
use page_commands::complaints::complain;
use page_commands::progress::Progress;
use page_commands::status::Status;
use run_crew::gate::Gate;
use sgx_types::names::Actor;
use std::alloc::{Alloc, Global};
use std::cell::Cell;
use std::fmt::Display;
use std::io::{self, Eprint};
use std::process::Abort;
use std::sync::Wait;
use std::test::Fail;
use std::thread::Threads;

const USAGE: &str = "\
usage: sgxpage COMMAND

  run PATH                 run a job; its trace goes to PATH
  make NUMBER SIZE         print a job made of two numbers
  demo NUMBER SIZE         run that job and sum it up
  least PATH               compare a trace's reloads with the fewest
  audit PATH               judge a trace of a job by all rules
  check PATH               judge any driver's trace by the processor's rules
  query PATH PLACE L PAGE  tell where a page was behind PLACE entries
  moves PATH L PAGE        tell where a page went
  picture PATH             print a trace as a picture for a browser
  migrate PATH             print a trace of the first edition in the second
  gate ROUNDS              try the gate that has no lock
  help                     print this

A job is read from standard input, and a trace from PATH. L is an enclave's letter and PAGE a page's number in it or secs, or L is va.
";

const SUMMARY: &str = "pages 209\noperations 808\nloads 1955\nxadds 217\n";

// Commands that read nothing and give no trace, and how the output of each begins. The sums are the reference program's.
const MADE: &[(&[&str], &str)] = &[
    (&["make", "1", "200"], "epc 128\nmarks 32 64 16\n"),
    (&["demo", "1", "200"], SUMMARY),
    (&["demo", "1", "200"], SUMMARY),
    (
        &["demo", "00000000000000000007", "4"],
        "pages 13\noperations 24\nloads 50\nxadds 2\n",
    ),
    (&["help"], USAGE),
    (&["--help"], USAGE),
    (&["gate", "1"], "enters 4\nstale 0\n"),
    (&["gate", "1000"], "enters 4000\nstale 0\n"),
];

const NO_COMMANDS: &[&[&str]] = &[
    &[],
    &["run"],
    &["run", ""],
    &["run", "t", "x"],
    &["run", "t", ""],
    &["t", "run"],
    &["", "t"],
    &["Run", "t"],
    &["runs", "t"],
    &["ru", "t"],
    &["run t"],
    &["make", "1", "3"],
    &["make", "1", "2001"],
    &["demo", "000000000000000000001", "200"],
    &["demo", "0x1", "200"],
    &["demo", "18446744073709551616", "200"],
    &["make", "", "200"],
    &["make", "1", "200", "1"],
    &["audit"],
    &["audit", ""],
    &["audit", "t", "x"],
    &["audits", "t"],
    &["least"],
    &["least", ""],
    &["least", "t", "t"],
    &["Least", "t"],
    &["query", "t", "9", "A"],
    &["query", "", "9", "A", "2"],
    &["query", "t", "x", "A", "2"],
    &["query", "t", "18446744073709551616", "A", "2"],
    &["query", "t", "9", "I", "2"],
    &["query", "t", "9", "a", "2"],
    &["query", "t", "9", "A", "4294967295"],
    &["query", "t", "9", "va", "secs"],
    &["query", "t", "9", "va", "4294967296"],
    &["query", "t", "9", "A", "2", "0"],
    &["moves", "t", "A"],
    &["moves", "", "A", "2"],
    &["moves", "t", "A", "SECS"],
    &["moves", "t", "9", "A", "2"],
    &["picture"],
    &["picture", ""],
    &["picture", "t", "t"],
    &["migrate"],
    &["gate", "0"],
    &["gate", "100001"],
    &["gate"],
    &["gate", "1", "2"],
    &["-h"],
    &["help", "run"],
];

// Calls the program with these words, which are to read nothing and to give no trace: each edge but the output would fail
// at its first call.
fn begins(
    rt: &(impl Abort + Alloc<A = Global> + Threads + Wait + Sync),
    words: &[&str],
    fails: &[u64],
    status: Status,
    begin: &str,
) -> Result<(), Fail> {
    let given = given_by(rt, rt.alloc(), words, JOB, 1000, [&[1], fails, &[1]])?;
    let begun = str::from_utf8(&given.out).is_ok_and(|text| text.starts_with(begin));
    are_same(rt, (given.status, begun), (status, true));
    are_same(rt, (given.left, given.faults), (JOB.len(), [0, 0, 0, 0]));
    Ok(())
}

#[test]
fn a_job_is_made_and_a_made_job_runs(rt: HostRuntime) -> Result<(), Fail> {
    for (words, begin) in MADE {
        begins(&rt, words, &[], Status::Done, begin)?;
    }
    Ok(())
}

#[test]
fn other_words_are_no_command(rt: HostRuntime) -> Result<(), Fail> {
    for words in NO_COMMANDS {
        begins(&rt, words, &[1], Status::BadWords, "")?;
    }
    Ok(())
}

// A terminal that keeps what was printed on it last.
#[derive(Drop)]
struct Terminal {
    alloc: Global,
    line: Cell<Option<String>>,
}

impl Eprint for Terminal {
    fn eprint<D: Display + Drop>(&self, value: D) -> io::Result<()> {
        self.line.set(Some(value.to_string(self.alloc)?));
        Ok(())
    }

    fn eprintln<D: Display + Drop>(&self, value: D) -> io::Result<()> {
        self.line.set(Some(value.to_string(self.alloc)?));
        Ok(())
    }
}

// Each ending, with its number and what is told of it, where the file at the path failed and where it did not.
const ENDINGS: &[(Status, u8, Option<&str>, Option<&str>)] = &[
    (Status::Done, 0, None, None),
    (Status::BadJob, 1, None, None),
    (Status::BadWords, 2, None, Some(USAGE)),
    (
        Status::ReadFault,
        3,
        Some("a/b.trace"),
        Some("sgxpage: cannot read the trace: a/b.trace"),
    ),
    (
        Status::ReadFault,
        3,
        None,
        Some("sgxpage: cannot read the job from standard input"),
    ),
    (
        Status::WriteFault,
        4,
        Some("a/b.trace"),
        Some("sgxpage: cannot write the trace: a/b.trace"),
    ),
    (
        Status::WriteFault,
        4,
        None,
        Some("sgxpage: cannot write to standard output"),
    ),
    (Status::Memory, 5, None, Some("sgxpage: memory was refused")),
    (Status::AuditNo, 6, None, None),
    (Status::Bus, 7, None, None),
    (
        Status::BadTrace,
        8,
        None,
        Some(
            "sgxpage: a trace begins `trace 2`; sgxpage migrate PATH makes such a text of one that begins `trace 1`",
        ),
    ),
    (Status::Spent, 9, None, None),
];

// What is told on a terminal of this ending.
fn told(alloc: Global, status: Status, failed: Option<&str>) -> Result<Option<String>, Fail> {
    let terminal = Terminal {
        alloc,
        line: Cell::new(None),
    };
    complain(&terminal, status, failed)?;
    Ok(terminal.line.take())
}

#[test]
fn an_ending_has_its_number_and_its_line(rt: HostRuntime) -> Result<(), Fail> {
    for (status, code, failed, line) in ENDINGS {
        let told = told(rt.alloc(), *status, *failed)?;
        are_same(&rt, (status.code(), told.as_deref()), (*code, *line));
    }
    Ok(())
}

// A long command tells at each 2^18th turn or entry, and else nothing.
#[test]
fn a_long_command_tells_how_far_it_is(rt: HostRuntime) -> Result<(), Fail> {
    let terminal = Terminal {
        alloc: rt.alloc(),
        line: Cell::new(None),
    };
    let progress = Progress::new(&terminal);
    for _ in 0..262_143u32 {
        progress.after_turn(Actor::Builder);
    }
    are_same(&rt, terminal.line.take().as_deref(), None);
    progress.after_turn(Actor::Reclaimer);
    let turns = terminal.line.take();
    are_same(&rt, turns.as_deref(), Some("sgxpage: 262144 turns"));
    for place in [0, 262_143, 262_145] {
        progress.judging(place);
    }
    are_same(&rt, terminal.line.take().as_deref(), None);
    progress.judging(524_288);
    let entries = terminal.line.take();
    are_same(&rt, entries.as_deref(), Some("sgxpage: 524288 entries"));
    Ok(())
}
