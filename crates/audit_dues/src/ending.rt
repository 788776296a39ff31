//! The end of a run by the rule Script.

ghost use Rattle.std.specs.Prelude.{◌≡◌, ◌<◌, ◌≤◌, List, length};
ghost use Rattle.sgx_rules.specs.Rules.{Along};
ghost use Rattle.sgx_rules.specs.declared.entries.Entry.{Entry};
ghost use Rattle.script_rules.specs.inner.Cursor.{IsCursor};
ghost use Rattle.script_rules.specs.Script.{script_of};
ghost use Rattle.driver_rules.specs.inner.Decided.{is_ended};
ghost use Rattle.driver_rules.specs.Scripts.{ScriptRule};
ghost use Rattle.driver_laws.specs.inner.Agrees.{Keeping};
ghost use Rattle.due_tables.specs.inner.Asked.{next_step};
ghost use Rattle.due_tables.specs.inner.Due.{IsReady, IsShown};
ghost use Rattle.due_tables.specs.inner.Ending.{EndsAreTold};
ghost use Rattle.due_tables.specs.inner.Shown.{ShowsTurns};
ghost use Rattle.audit_dues.specs.inner.Ends.{are_done_by, is_done_by, none_left};

use cached_translations::processor::Mode;
use driver_tables::driver::Driver;
use due_tables::cpu_turns::Last;
use due_tables::turns::Turns;
use job_grammar::jobs::Job;
use sgx_machine::machine::Machine;
use sgx_types::names::Cpu;

/// Whether nothing more is to come, by the rule Script: an epoch or a version was used up, or the build is whole and each processor is
/// outside with all its replies, or was ended. Linear in the number of processors.
pub fn is_ended(job: &Job, turns: &Turns, driver: &Driver, machine: &Machine) -> bool
    requires ready { IsReady job.now driver.now machine.now turns.now }
    // Of entries that are each its actor's next, where who was ended was told why.
    ensures { (k : Keeping) (past : List Entry) → IsShown k job.now past driver.now machine.now → ShowsTurns job.now past turns.now
        → Along (ScriptRule job.now) past → EndsAreTold past → result ≡ is_ended job.now past }
{
    turns.is_spent || (is_build_whole(job, turns) && are_done(job, turns, machine, driver.cpus))
}

// Whether no step of the build is left.
fn is_build_whole(job: &Job, turns: &Turns) -> bool
    requires { IsCursor job.now turns.now.cursor }
    ensures { result ≡ none_left (next_step job.now turns.now) }
{
    let mut cursor = turns.cursor;
    cursor.next(job).is_none()
}

// Whether each of so many processors is done.
fn are_done(job: &Job, turns: &Turns, machine: &Machine, cpus: u8) -> bool
    requires turns { cpus ≤ length turns.now.cpus }
    requires machine { cpus ≤ length machine.now.cpus }
    ensures { result ≡ are_done_by job.now turns.now machine.now cpus }
{
    for number in 0..cpus {
        if !is_done(job, turns, machine, Cpu(number)) {
            return false;
        }
    }
    true
}

// Whether a processor was ended, or is outside and has the replies to all operations of its script.
fn is_done(job: &Job, turns: &Turns, machine: &Machine, cpu: Cpu) -> bool
    requires turn { cpu.0 < length turns.now.cpus }
    requires mode { cpu.0 < length machine.now.cpus }
    ensures { result ≡ is_done_by job.now turns.now machine.now cpu.0 }
{
    let turn = turns.cpus.get(cpu);
    match turn.last {
        Last::WasEnded => true,
        _ => turn.replied == operations(job, cpu) && machine.mode(cpu) == Mode::Outside,
    }
}

// How many operations the script of a processor has.
fn operations(job: &Job, cpu: Cpu) -> u64
    ensures { result ≡ length (script_of job.now cpu.0) }
{
    match job.scripts().get(usize::from(cpu.0)) {
        Some(script) => script.len() as u64,
        None => 0,
    }
}
