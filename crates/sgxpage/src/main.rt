#![tactic(auto)]

use backing_store::planned_store::PlannedStore;
use command_words::command::{Command, command_of};
use io_edges::late_file::LateFile;
use io_edges::std_edges::{StdSink, StdSource};
use page_commands::command::sgxpage;
use page_commands::complaints::complain;
use page_commands::progress::Progress;
use page_commands::status::Status;
use std::env;
use std::fs::File;
use std::io::{self, ErrorKind};
use std::os::fd::AsRawFd;
use std::process::ExitCode;
use std::sync::Wait;
use std::thread::Threads;
use trace_file::old_file::OldFile;

fn main(rt: HostRuntime) -> ExitCode {
    let status = match fill_streams(&rt) {
        Ok(_held) => carry_out(&rt, &rt),
        Err(_) => end(&rt, Status::WriteFault, None),
    };
    ExitCode::from(status.code())
}

// Takes the numbers of the standard streams that are closed, so that no file gets one of them and with it what is meant for that stream. A
// directory can be opened, and each try to read or to write it is refused.
fn fill_streams(rt: &HostRuntime) -> io::Result<[Option<File>; 3]> {
    let mut held = [None, None, None];
    for place in &mut held {
        let directory = File::open(rt, "/")?;
        if directory.as_raw_fd() > 2 {
            break;
        }
        *place = Some(directory);
    }
    Ok(held)
}

// Does what the words of the command line say, and complains where that could not be done. A run makes threads, and may wait.
fn carry_out<R: Threads + Wait + Sync>(rt: &HostRuntime, waits: &R) -> Status {
    let words = match given_words(rt) {
        Ok(words) => words,
        Err(error) => return end(rt, unread_words(error.kind()), None),
    };
    let path = trace_path(&words);
    let mut old = StdSource::new(OldFile::new(rt, path));
    let mut trace = StdSink::new(LateFile::new(rt, path));
    let ended = sgxpage(
        waits,
        rt.alloc(),
        &words,
        &mut StdSource::new(rt.stdin().reader()),
        &mut old,
        &mut StdSink::new(io::writer(rt)),
        &mut trace,
        PlannedStore::new(),
        &Progress::new(rt),
    );
    let failed = if old.faults() > 0 || trace.faults() > 0 {
        Some(path)
    } else {
        None
    };
    end(rt, ended.status, failed)
}

// The words of the command line, without the program's name.
fn given_words(rt: &HostRuntime) -> io::Result<Vec<String>> {
    let mut words = Vec::new(rt.alloc());
    for word in env::args(rt)?.skip(1) {
        words.push(word)?;
    }
    Ok(words)
}

// A word that is no text is one of no command.
fn unread_words(why: ErrorKind) -> Status {
    match why {
        ErrorKind::OutOfMemory => Status::Memory,
        _ => Status::BadWords,
    }
}

// The path that the words name: of the trace that a run gives, or of the old one that is read. Other commands open none.
fn trace_path(words: &[String]) -> &str {
    match (command_of(words), words.get(1)) {
        (Some(Command::Run | Command::Tell { .. } | Command::Show { .. }), Some(path)) => {
            path.as_str()
        }
        _ => "",
    }
}

// Where nothing can be told on standard error, the status alone tells.
fn end(rt: &HostRuntime, status: Status, failed: Option<&str>) -> Status {
    let _ = complain(rt, status, failed);
    status
}
