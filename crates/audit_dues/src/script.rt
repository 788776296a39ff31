//! The rule Script of one entry.

ghost use Rattle.std.specs.Prelude.{◌≡◌, List};
ghost use Rattle.sgx_rules.specs.declared.entries.Entry.{Entry};
ghost use Rattle.driver_rules.specs.inner.Decided.{keeps_script};
ghost use Rattle.driver_rules.specs.Scripts.{is_load};
ghost use Rattle.driver_laws.specs.inner.Agrees.{Keeping};
ghost use Rattle.due_tables.specs.inner.Due.{IsOrderly, IsReady, IsShown};
ghost use Rattle.due_tables.specs.inner.Shown.{ShowsTurns};

use crate::next::{is_build_step, is_next};
use driver_tables::driver::Driver;
use due_tables::turns::Turns;
use job_grammar::jobs::Job;
use sgx_machine::machine::Machine;
use sgx_rules::entries::{Action, Entry, Event};
use sgx_types::names::Actor;

/// Whether an entry is the one that is due to its actor, by the rule Script. The reclaimer may make every entry but loads, their ends,
/// and those that tell why a page did not come back; a processor that the job does not have makes none. Constant time.
pub fn keeps_script(
    job: &Job,
    turns: &Turns,
    driver: &Driver,
    machine: &Machine,
    entry: &Entry,
) -> bool
    requires ready { IsReady job.now driver.now machine.now turns.now }
    ensures { (k : Keeping) (past : List Entry) → IsShown k job.now past driver.now machine.now → IsOrderly job.now past
        → ShowsTurns job.now past turns.now → result ≡ keeps_script job.now past entry.now }
{
    if turns.is_spent {
        return false;
    }
    match entry.actor {
        Actor::Builder => {
            let due = turns.builder_due(job, driver, machine);
            is_build_step(due, &entry.event)
        }
        Actor::Cpu(cpu) => {
            if usize::from(cpu.0) >= job.scripts().len() {
                return false;
            }
            let due = turns.cpu_due(job, driver, machine, cpu);
            is_next(turns, driver, machine, due, &entry.event)
        }
        Actor::Reclaimer => !is_load(&entry.event),
    }
}

// Loads, their ends, and why a page did not come back: processors' alone.
fn is_load(event: &Event) -> bool
    ensures { result ≡ is_load event.now }
{
    match event {
        Event::Did { action, .. } | Event::Refused { action, .. } => {
            matches!(action, Action::EldStart { .. } | Action::Eld { .. })
        }
        Event::Bus { .. } => true,
        Event::Age { .. } | Event::Kick { .. } => false,
    }
}
