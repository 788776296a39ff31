//! The top call: the words of the command line, what each command does, and how it ends.

ghost use Rattle.std.specs.Prelude.{◌≡◌, ◌+◌, ◌^◌, ◌⊎◌, ◌↔◌, ℕ, List, [], is_some, map, string_bytes, IfSome, IsSomeAnd, None, Some};
ghost use Rattle.command_words.specs.Commands.{command_in};
ghost use Rattle.command_words.specs.declared.command.Command.TheVariants as commands;
ghost use Rattle.io_edges.specs.Faults.{HasRisen};
ghost use Rattle.io_edges.specs.Sinks.{GivesPart, followed_by};
ghost use Rattle.io_edges.specs.Sources.{TakesAtMost};
ghost use Rattle.job_make.specs.MadeJob.{made_job};
ghost use Rattle.page_commands.specs.Summary.{summary_of};
ghost use Rattle.trace_file.specs.Reading.{OfRead};
ghost use Rattle.page_commands.specs.Commands.{HasEnded, IsDemoEnd, IsRunEnd, MayReadOld, MayStandIn, NoFault, ReadsJob, RunsNone};
ghost use Rattle.page_commands.specs.Commands.{status_of};
ghost use Rattle.page_commands.specs.Runs.{BothGiven, DemoBy, HalfGiven, HasFault, HasJob, RanBy};
ghost use Rattle.page_commands.specs.Says.{Ends, OfJob, Says};
ghost use Rattle.run_jobs.specs.declared.ends.End.{End};

use crate::ended::{Ended, unrun};
use crate::gates::rounds_command;
use crate::help::help_command;
use crate::making::{demo_command, make_command};
use crate::running::run_command;
use crate::showing::show_trace;
use crate::status::Status;
use crate::telling::tell_of_both;
use audit_check::watch::Watch;
use backing_store::backing::Backing;
use command_words::command::{Command, command_of};
use io_edges::sinks::Sink;
use io_edges::sources::Source;
use run_crew::gate::Gate;
use std::alloc::Global;
use std::sync::Wait;
use std::thread::Threads;

/// Does what the words of the command line say, which stand without the program's name.
///
/// `run PATH` runs the job that `job` gives, over this store, which has told no calls yet. The text of its trace goes to `trace`, which is
/// the file at that path, and then its replies go to `out`. Where the text is no job's, `out` gets its first faulty line and what is wrong
/// there. A job of more than 2^24 bytes is refused as line 0, and is read no further than one byte past them. `make NUMBER SIZE` gives the
/// text of the job that is made of these to `out`. `demo NUMBER SIZE` runs that job, and gives the summary of the run to `out`.
/// `gate ROUNDS` lets processors and a pager make so many rounds at a gate with no lock, and gives to `out` how often they entered.
///
/// `least PATH` reads the job and then, behind a valid one, a trace from `old`, which is the file at that path. It gives to `out` how
/// many accesses the trace has, how many frames the job leaves for them, the fewest loads for these, and how many reloads the trace
/// made. Where the text is no trace's, `out` gets its first faulty line. A trace of more than 2^30 bytes is refused as line 0, and is
/// read no further than one byte past them.
///
/// `audit PATH` reads the same two, whoever made the trace, and gives to `out` the verdict: `yes` where the trace is a history of the job,
/// and else the first place at which a rule fails, and that rule. `check PATH` does so by the processor's rules alone, which say nothing of
/// a driver, and gives the trace's tally behind the verdict; of the job it uses the EPC's size, the key and the first epoch and version.
///
/// `query PATH PLACE L PAGE` and `moves PATH L PAGE` read the same two, whoever made the trace, and answer a question to it. The one gives
/// to `out` where the page was behind so many entries, which processors cached it there, and its first word. The other gives a line for
/// each move of the page.
///
/// `picture PATH` reads a trace from `old`, without a job and whoever made it, and gives to `out` the text of its picture: lanes of
/// processors, frames, pages and the driver, in the Trace Event Format.
///
/// `migrate PATH` reads a trace in the first edition from `old`, without a job, and gives to `out` the text of its entries in the second,
/// whose version array pages are numbered. The other commands read and write the second edition alone.
///
/// `help` and `--help` give the text on the commands to `out`.
///
/// Other words are no command, and then nothing is read or written. The argument `gate` is told of each turn of a run, and of each entry
/// that is judged. A run whose store fails for ever may not return.
pub fn sgxpage<
    R: Threads + Wait + Sync,
    J: Source,
    O: Source,
    K: Sink,
    L: Sink,
    B: Backing + Send,
    G: Gate + Watch + Sync,
>(
    rt: &R,
    alloc: Global,
    words: &[String],
    job: &mut J,
    old: &mut O,
    out: &mut K,
    trace: &mut L,
    store: B,
    gate: &G,
) -> Ended<B>
    requires { IfSome (B.told store) (λ calls. calls ≡ []) }
    ensures bad_words { (result.status ≡ Status.BadWords) ↔ (command_in (map string_bytes words.now) ≡ None) }
    ensures no_command { result.status ≡ Status.BadWords →
        (job.new ≡ job.old) × (old.new ≡ old.old) × (out.new ≡ out.old) × (trace.new ≡ trace.old) × (result.store ≡ None) }

    ensures reads { TakesAtMost (2 ^ 24 + 1) (J.left job.old) (J.left job.new) }
    ensures reads_old { TakesAtMost (2 ^ 30 + 1) (O.left old.old) (O.left old.new) }
    ensures read_fault { result.status ≡ Status.ReadFault → IfSome (command_in (map string_bytes words.now)) (λ command.
        (HasRisen (J.faults job.old) (J.faults job.new) × (old.new ≡ old.old)
        ⊎ OfRead (J.left job.old) (MayReadOld command) × HasRisen (O.faults old.old) (O.faults old.new))
        × (out.new ≡ out.old) × (trace.new ≡ trace.old) × (result.store ≡ None)) }
    ensures write_fault { result.status ≡ Status.WriteFault →
        HasRisen (K.faults out.old) (K.faults out.new) ⊎ HasRisen (L.faults trace.old) (L.faults trace.new) }
    ensures memory { result.status ≡ Status.Memory → (out.new ≡ out.old) × (trace.new ≡ trace.old) }

    // Each other command than `run` and `demo` gives what it says of the bytes that it reads. It runs no job.
    ensures says { IfSome (command_in (map string_bytes words.now)) (λ command. RunsNone command →
        OfRead (J.left job.old) (λ bytes. (MayReadOld command bytes ⊎ (old.new ≡ old.old)) × OfRead (O.left old.old) (λ old_bytes.
        Ends (Says command bytes old_bytes) result.status (K.given out.old) (K.given out.new)))
        × (ReadsJob command ⊎ (job.new ≡ job.old)) × (trace.new ≡ trace.old) × (result.store ≡ None)) }

    // Where `run` makes no run, it gives the line on a text that is no job's, and nothing else.
    ensures unrun { command_in (map string_bytes words.now) ≡ Some commands.Run → result.store ≡ None →
        OfRead (J.left job.old) (λ bytes. Ends (OfJob bytes (λ j status text. ⊥)) result.status (K.given out.old) (K.given out.new))
        × (trace.new ≡ trace.old) }
    ensures bad_job { command_in (map string_bytes words.now) ≡ Some commands.Run → result.status ≡ Status.BadJob → result.store ≡ None }
    ensures no_job { command_in (map string_bytes words.now) ≡ Some commands.Run → IsSomeAnd (J.left job.old) HasFault →
        (result.status ≡ Status.BadJob) ⊎ MayStandIn result.status }
    ensures run_else { command_in (map string_bytes words.now) ≡ Some commands.Run → IsRunEnd result.status × (old.new ≡ old.old) }

    // Whatever the store gave: a whole run of the job, with its texts, that ended as the status says.
    ensures ran { command_in (map string_bytes words.now) ≡ Some commands.Run → (end : End) → result.status ≡ status_of end →
        OfRead (J.left job.old) (λ bytes. IsSomeAnd result.store (λ store. RanBy bytes end (B.told store) (B.plans store)
        (λ j past. BothGiven j past (K.given out.old) (K.given out.new) (L.given trace.old) (L.given trace.new)))) }
    // A run that meets no fault is complete.
    ensures complete { command_in (map string_bytes words.now) ≡ Some commands.Run → IsSomeAnd (J.left job.old) HasJob →
        NoFault (J.faults job.old) (J.faults job.new) →
        NoFault (K.faults out.old) (K.faults out.new) →
        NoFault (L.faults trace.old) (L.faults trace.new) →
        HasEnded result.status ⊎ (result.status ≡ Status.Memory) }
    ensures broke { command_in (map string_bytes words.now) ≡ Some commands.Run → result.status ≡ Status.WriteFault
        → (result.store ≡ None)
        ⊎ OfRead (J.left job.old) (λ bytes. (end : End) × IsSomeAnd result.store (λ store. RanBy bytes end (B.told store) (B.plans store)
        (λ j past. HalfGiven j past (K.given out.old) (K.given out.new) (L.given trace.old) (L.given trace.new)))) }
    // The store comes back from a run that came to its end, whatever the status, and from no other.
    ensures back { command_in (map string_bytes words.now) ≡ Some commands.Run → IfSome result.store (λ store.
        OfRead (J.left job.old) (λ bytes. (end : End) × RanBy bytes end (B.told store) (B.plans store) (λ j past. Unit {0}))) }

    // `demo` gives the summary of a whole run.
    ensures demo { (number size : ℕ) → command_in (map string_bytes words.now) ≡ Some (commands.Demo number size) →
        (end : End) → result.status ≡ status_of end → IsSomeAnd result.store (λ store.
        DemoBy number size end (B.told store) (B.plans store) (λ entries.
        K.given out.new ≡ followed_by (K.given out.old) (summary_of (made_job number size) size entries))) }
    ensures demo_broke { (number size : ℕ) → command_in (map string_bytes words.now) ≡ Some (commands.Demo number size) →
        result.status ≡ Status.WriteFault → (end : End) × IsSomeAnd result.store (λ store.
        DemoBy number size end (B.told store) (B.plans store) (λ entries.
        GivesPart (K.given out.old) (K.given out.new) (summary_of (made_job number size) size entries))) }
    ensures demo_else { (number size : ℕ) → command_in (map string_bytes words.now) ≡ Some (commands.Demo number size) →
        IsDemoEnd result.status × (job.new ≡ job.old) × (old.new ≡ old.old) × (trace.new ≡ trace.old) }
    ensures demo_back { (number size : ℕ) → command_in (map string_bytes words.now) ≡ Some (commands.Demo number size) →
        IfSome result.store (λ store. (end : End) × DemoBy number size end (B.told store) (B.plans store) (λ entries. Unit {0})) }

    // A store that tells its calls goes on to.
    ensures tells { IfSome result.store (λ back. is_some (B.told back) ≡ is_some (B.told store)) }
{
    match command_of(words) {
        None => unrun(Status::BadWords),
        Some(Command::Run) => run_command(rt, alloc, job, out, trace, store, gate),
        Some(Command::Make { number, size }) => unrun(make_command(alloc, number, size, out)),
        Some(Command::Demo { number, size }) => demo_command(
            rt, alloc, number, size, out, store, gate,
        ),
        Some(Command::Tell { telling }) => unrun(tell_of_both(alloc, telling, job, old, out, gate)),
        Some(Command::Show { showing }) => unrun(show_trace(alloc, showing, old, out)),
        Some(Command::Gate { rounds }) => unrun(rounds_command(rt, alloc, rounds, out)),
        Some(Command::Help) => unrun(help_command(out)),
    }
}

/// A command that runs no job ends in one way, by the bytes that it reads. So what is no job or no trace is never taken for one, what keeps
/// the rules is never refused, and nothing else is taken for that.
pub fn a_command_ends_in_one_way()
    ensures { (command : Command) (bytes old_bytes : List ℕ) (s t : Status) (text other : List ℕ) → Says command bytes old_bytes s text
        → Says command bytes old_bytes t other → s ≡ t }
{}
