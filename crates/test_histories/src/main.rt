// Makes histories of jobs and judges them. The words that it is run on are names of jobs and traces in files, and words that say what is
// told of those behind them. First, each job is run by rounds of turns on one book, over a store that does what it plans, and its trace is
// printed. Behind `zeros` the work between starts and their ends is done over zeros, and the trace is the same. Behind `ends` is only told
// how the run ended. Behind `plays` given traces are played: their entries say who is next, and each has to be what is made. It is told how
// many of the entries are made so, and whether the calls of the store are those that are given. All that is expected was made by the
// reference program, a plain, unverified one with the same command line.
//
// Behind `audits` given traces are judged, and by the processor's rules alone too. Each right one is a history of its
// job, and each wrong one beside it fails first at the place, and by the rule, that is told of it. Behind `checks` stand
// traces of another driver, and nothing else is told of them than what the processor's rules say.
#![tactic(auto)]

mod audits;
mod books;
mod calls;
mod comparing;
mod playing;
mod turning;
mod verdicts;
mod wrong;

use audits::{tell_audited, tell_checked};
use books::{tell_end, tell_played, tell_trace};
use std::{env, fs, io};
use turning::Work;

fn main(rt: HostRuntime) -> io::Result<()> {
    let mut way = Way::Traces(Work::Given);
    for name in env::args(&rt)?.skip(1) {
        way = tell(&rt, name.as_str(), way)?;
    }
    Ok(())
}

// What is told of each job or trace.
#[derive(Clone, Copy)]
enum Way {
    /// The trace, where the work is done so.
    Traces(Work),

    /// How the run ends.
    Ends,

    /// How much of a trace is made.
    Plays,

    /// The verdict on a trace, and on the wrong ones beside it.
    Audits,

    /// The verdict by the processor's rules, and the tally.
    Checks,
}

// Tells of the job or the trace of that name, unless it is the name of a way. The way in which the next is told.
fn tell(rt: &HostRuntime, name: &str, way: Way) -> io::Result<Way> {
    match name {
        "zeros" => Ok(Way::Traces(Work::Zeros)),
        "ends" => Ok(Way::Ends),
        "plays" => Ok(Way::Plays),
        "audits" => Ok(Way::Audits),
        "checks" => Ok(Way::Checks),
        _ => {
            tell_by(rt, name, way)?;
            Ok(way)
        }
    }
}

fn tell_by(rt: &HostRuntime, name: &str, way: Way) -> io::Result<()> {
    match way {
        Way::Traces(how) => tell_trace(rt, name, how),
        Way::Ends => tell_end(rt, name),
        Way::Plays => tell_played(rt, name),
        Way::Audits => tell_audited(rt, name),
        Way::Checks => tell_checked(rt, name),
    }
}

// A file of this name.
fn read(rt: &HostRuntime, name: &str, end: &str) -> io::Result<Vec<u8>> {
    let path = format!(in rt.alloc(); "{name}{end}")?;
    fs::read(rt, path.as_str())
}
