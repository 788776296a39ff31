//! What a processor does next: of its turn the end of a load that it has started, and else the first rule that applies to it.

ghost use Rattle.std.specs.Prelude.{◌≡◌, ◌<◌, List, length, map};
ghost use Rattle.sgx_rules.specs.declared.entries.Entry.{Entry};
ghost use Rattle.driver_rules.specs.Turns.{cpu_due};
ghost use Rattle.driver_laws.specs.inner.Agrees.{Keeping};
ghost use Rattle.script_rules.specs.inner.Cursor.{IsCursor};
ghost use Rattle.due_tables.specs.inner.Asked.{CanAskDue, after_by, cpu_by, early_by, inside_by, is_last_by, looks_at, next_step};
ghost use Rattle.due_tables.specs.inner.Asked.{op_at};
ghost use Rattle.due_tables.specs.inner.Asked.{outside_by};
ghost use Rattle.due_tables.specs.inner.Asked.{frame_seen, page_behind, turn_by};
ghost use Rattle.due_tables.specs.inner.CpuTurns.{turn_at};
ghost use Rattle.due_tables.specs.declared.steps.CpuStep.TheVariants as steps;
ghost use Rattle.due_tables.specs.inner.Due.{IsOrderly, IsReady, IsShown, due_in};
ghost use Rattle.due_tables.specs.inner.Shown.{ShowsTurns};
ghost use Rattle.due_tables.specs.inner.TcsTurns.{rows, tcs_at};

use crate::cpu_turns::{CpuTurn, Interruption, Last};
use crate::dues::CpuDue;
use crate::operations::access_page;
use crate::steps::CpuStep;
use crate::turns::Turns;
use cached_translations::processor::Mode;
use driver_rules::waits::Why;
use driver_tables::driver::Driver;
use job_grammar::jobs::{Job, Op};
use sgx_machine::machine::Machine;
use sgx_rules::entries::Cause;
use sgx_types::names::{Actor, Cpu, Page};

impl Turns {
    /// What a processor does next. Constant time.
    pub fn cpu_due(&self, job: &Job, driver: &Driver, machine: &Machine, cpu: Cpu) -> CpuDue
        requires cpu { cpu.0 < length job.now.scripts }
        requires ready { IsReady job.now driver.now machine.now self.now }
        ensures { (k : Keeping) (past : List Entry) → IsShown k job.now past driver.now machine.now → IsOrderly job.now past
            → ShowsTurns job.now past self.now → due_in job.now past result ≡ cpu_due job.now past cpu.0 }
    {
        self.cpu_due_by(job, driver, machine, cpu)
    }

    // What a processor does next, by what machine and tables show.
    fn cpu_due_by(&self, job: &Job, driver: &Driver, machine: &Machine, cpu: Cpu) -> CpuDue
        requires cursor { IsCursor job.now self.now.cursor }
        requires can { CanAskDue driver.now machine.now self.now cpu.0 }
        ensures { result ≡ cpu_by self.now.is_spent (looks_at driver.now machine.now self.now cpu.0) (turn_at self.now.cpus cpu.0)
            (is_last_by cpu.0 self.now.last) (op_at job.now cpu.0 (turn_at self.now.cpus cpu.0).replied) (next_step job.now self.now) }
    {
        if self.is_spent {
            return CpuDue::Stopped;
        }
        let turn = self.cpus.get(cpu);
        match turn.last {
            Last::Loads { frame, .. } => CpuDue::Ends(frame),
            Last::Fails { page, why } => {
                if self.is_last(cpu) {
                    CpuDue::Reports { page, why }
                } else {
                    CpuDue::Finished
                }
            }
            Last::WasEnded => CpuDue::Finished,
            Last::Other => self.turn_due(job, driver, machine, cpu, turn),
        }
    }

    // Whether the last entry of all is a processor's own.
    fn is_last(&self, cpu: Cpu) -> bool
        ensures { result ≡ is_last_by cpu.0 self.now.last }
    {
        match self.last {
            Some(Actor::Cpu(other)) => other.0 == cpu.0,
            _ => false,
        }
    }

    // The first rule that applies to a processor that loads nothing. Before the build is done it waits, unless its script is empty.
    fn turn_due(
        &self,
        job: &Job,
        driver: &Driver,
        machine: &Machine,
        cpu: Cpu,
        turn: CpuTurn,
    ) -> CpuDue
        requires cursor { IsCursor job.now self.now.cursor }
        requires can { CanAskDue driver.now machine.now self.now cpu.0 }
        ensures { result ≡ turn_by (looks_at driver.now machine.now self.now cpu.0) turn (op_at job.now cpu.0 turn.replied)
            (next_step job.now self.now) }
    {
        let op = op_at(job, cpu, turn.replied);
        if self.builds(job) {
            return early_turn(machine.mode(cpu), op);
        }
        match machine.mode(cpu) {
            Mode::Outside => self.outside_turn(driver, machine, cpu, turn.interruption, op),
            Mode::Inside { .. } => self.inside_turn(driver, machine, cpu, turn.is_kicked, op),
        }
    }

    // Outside: nothing more at the script's end; else first the resumption behind an exit that no operation asked for.
    fn outside_turn(
        &self,
        driver: &Driver,
        machine: &Machine,
        cpu: Cpu,
        interruption: Option<Interruption>,
        op: Option<Op>,
    ) -> CpuDue
        requires { CanAskDue driver.now machine.now self.now cpu.0 }
        ensures { result ≡ outside_by (looks_at driver.now machine.now self.now cpu.0) interruption op }
    {
        let Some(op) = op else {
            return CpuDue::Finished;
        };
        match interruption {
            Some(interruption) => self.resumption(driver, interruption, op),
            None => self.op_due(driver, machine, cpu, op),
        }
    }

    // The resumption behind an interruption, with the page of the access behind a fault.
    fn resumption(&self, driver: &Driver, interruption: Interruption, op: Op) -> CpuDue
        requires { map length self.now.tcs ≡ rows driver.now.states.counts }
        ensures { result ≡ after_by (frame_seen driver.now self.now) (tcs_at self.now.tcs) interruption op }
    {
        let tcs = Page {
            enclave: interruption.enclave,
            number: interruption.tcs,
        };
        self.resumes(driver, tcs, page_behind(interruption, op))
    }

    // Inside: a kick first, and at the script's end it leaves.
    fn inside_turn(
        &self,
        driver: &Driver,
        machine: &Machine,
        cpu: Cpu,
        is_kicked: bool,
        op: Option<Op>,
    ) -> CpuDue
        requires { CanAskDue driver.now machine.now self.now cpu.0 }
        ensures { result ≡ inside_by (looks_at driver.now machine.now self.now cpu.0) is_kicked op }
    {
        if is_kicked {
            return leaves(Cause::Kick);
        }
        match op {
            Some(op) => self.op_due(driver, machine, cpu, op),
            None => leaves(Cause::End),
        }
    }
}

// The page that a processor needs besides, behind an interruption.
fn page_behind(interruption: Interruption, op: Op) -> Option<Page>
    ensures { result ≡ page_behind interruption op }
{
    if interruption.for_page {
        access_page(interruption.enclave, op)
    } else {
        None
    }
}

fn leaves(cause: Cause) -> CpuDue
    ensures { result ≡ CpuDue.Makes (steps.Aex cause) }
{
    CpuDue::Makes(CpuStep::Aex { cause })
}

fn early_turn(mode: Mode, op: Option<Op>) -> CpuDue
    ensures { result ≡ early_by mode op }
{
    match (mode, op) {
        (Mode::Outside, None) => CpuDue::Finished,
        _ => CpuDue::Waits(Why::Building),
    }
}

/// The operation of a processor's script that has so many before it.
pub(crate) fn op_at(job: &Job, cpu: Cpu, before: u64) -> Option<Op>
    ensures { result ≡ op_at job.now cpu.0 before }
{
    let script = job.scripts().get(usize::from(cpu.0))?;
    script.get(before as usize).copied()
}
