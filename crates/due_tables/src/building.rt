//! What the builder does next.

ghost use Rattle.std.specs.Prelude.{◌≡◌, List, is_some, length, map};
ghost use Rattle.sgx_rules.specs.declared.entries.Entry.{Entry};
ghost use Rattle.script_rules.specs.Script.{step_action};
ghost use Rattle.driver_rules.specs.Turns.{builder_due};
ghost use Rattle.driver_laws.specs.inner.Agrees.{Keeping};
ghost use Rattle.script_rules.specs.inner.Cursor.{IsCursor};
ghost use Rattle.due_tables.specs.inner.TcsTurns.{rows};
ghost use Rattle.due_tables.specs.inner.Asked.{IsBuilderDue, next_step, standing_seen, step_by, with_frame};
ghost use Rattle.due_tables.specs.inner.Due.{IsOrderly, IsReady, IsShown, building_in};
ghost use Rattle.due_tables.specs.inner.Shown.{ShowsTurns};

use crate::dues::BuilderDue;
use crate::turns::Turns;
use driver_rules::waits::Why;
use driver_tables::driver::Driver;
use job_grammar::jobs::Job;
use script_rules::steps::BuildStep;
use sgx_machine::machine::Machine;
use sgx_rules::entries::Action;
use sgx_types::names::{Frame, Page};

impl Turns {
    /// What the builder does next: its next step, with the least free frame or that of the page that it measures. Constant time.
    pub fn builder_due(&self, job: &Job, driver: &Driver, machine: &Machine) -> BuilderDue
        requires { IsReady job.now driver.now machine.now self.now }
        ensures { (k : Keeping) (past : List Entry) → IsShown k job.now past driver.now machine.now → IsOrderly job.now past
            → ShowsTurns job.now past self.now → building_in result ≡ builder_due job.now past }
    {
        self.builder_due_by(job, driver, machine)
    }

    // What the builder does next, by what machine and tables show.
    fn builder_due_by(&self, job: &Job, driver: &Driver, machine: &Machine) -> BuilderDue
        requires cursor { IsCursor job.now self.now.cursor }
        requires places { map length self.now.tcs ≡ rows driver.now.states.counts }
        ensures { IsBuilderDue job.now driver.now machine.now self.now result }
    {
        let free = machine.first_free();
        if self.is_spent {
            return BuilderDue::Stopped;
        }
        match self.next_step(job) {
            Some(step) => self.step_due(driver, free, step),
            None => BuilderDue::Finished,
        }
    }

    /// The builder's next step, None where none is left.
    pub(crate) fn next_step(&self, job: &Job) -> Option<BuildStep>
        requires { IsCursor job.now self.now.cursor }
        ensures { result ≡ next_step job.now self.now }
    {
        let mut cursor = self.cursor;
        cursor.next(job)
    }

    /// Whether a step is left to the builder. Behind the build no step is made for it.
    pub(crate) fn builds(&self, job: &Job) -> bool
        requires { IsCursor job.now self.now.cursor }
        ensures { result ≡ is_some (next_step job.now self.now) }
    {
        !self.cursor.is_done(job) && self.next_step(job).is_some()
    }

    // A step that makes a page takes the free frame, and one that measures that of its page.
    fn step_due(&self, driver: &Driver, free: Option<Frame>, step: BuildStep) -> BuilderDue
        requires { map length self.now.tcs ≡ rows driver.now.states.counts }
        ensures { result ≡ step_by free (standing_seen driver.now self.now) step }
    {
        match step {
            BuildStep::Init { enclave, expect } => {
                BuilderDue::Makes(Action::Init { enclave, expect })
            }
            BuildStep::Extend {
                enclave,
                number,
                ..
            } => with_frame(step, self.standing(driver, Page { enclave, number })),
            BuildStep::Va | BuildStep::Create { .. } | BuildStep::Add { .. } => {
                with_frame(step, free)
            }
        }
    }
}

// The instruction of a step with its frame. Without one it waits.
fn with_frame(step: BuildStep, frame: Option<Frame>) -> BuilderDue
    ensures { result ≡ with_frame step frame }
{
    match frame {
        Some(frame) => BuilderDue::Makes(step_action(step, frame)),
        None => BuilderDue::Waits(Why::NoFrame),
    }
}

fn step_action(step: BuildStep, frame: Frame) -> Action
    ensures { result ≡ step_action step frame.0 }
{
    match step {
        BuildStep::Va => Action::Epa { frame },
        BuildStep::Create {
            enclave,
            base,
            size,
        } => Action::Create {
            enclave,
            frame,
            base,
            size,
        },
        BuildStep::Add {
            enclave,
            number,
            kind,
            perm,
            init,
        } => Action::Add {
            enclave,
            number,
            frame,
            kind,
            perm,
            init,
        },
        BuildStep::Extend { chunk, .. } => Action::Extend { frame, chunk },
        BuildStep::Init { enclave, expect } => Action::Init { enclave, expect },
    }
}
