//! One entry of a trace is judged.

ghost use Rattle.std.specs.Prelude.{◌≡◌, true, IfOk, None, Some};
ghost use Rattle.sgx_types.specs.declared.names.Frame.{Frame};
ghost use Rattle.sgx_machine.specs.inner.Parts.{start_of, state_of};
ghost use Rattle.driver_rules.specs.inner.Decided.{is_ended};
ghost use Rattle.audit_tables.specs.inner.Followed.{frame_begun, frame_ended};
ghost use Rattle.driver_pass.specs.inner.Noted.{gone_by, IsSeen};
ghost use Rattle.audit_trace.specs.inner.Audits.{IsAuditing, IsJudged};

use crate::auditing::Auditing;
use audit_check::asking::ask;
use audit_dues::ending::is_ended;
use audit_dues::script::keeps_script;
use audit_pass::judging::{keeps_age, keeps_kick};
use driver_pass::pass::Pass;
use driver_tables::driver::Driver;
use due_tables::holding::mode_of;
use history_rules::rules::Rule;
use job_grammar::jobs::Job;
use sgx_machine::machine::Machine;
use sgx_machine::starts::Start;
use sgx_rules::entries::{Action, Entry, Event};
use sgx_types::names::{Frame, Memory};
use std::alloc::Global;

impl Auditing {
    /// The first rule that the next entry breaks, in the order in which rules are named. None where it keeps each rule; then all stands for
    /// the entries with it. Constant time, but for the SHA-256 of a page that goes out and of an enclave's measurement.
    pub(crate) fn judge(
        &mut self,
        alloc: Global,
        job: &Job,
        entry: &Entry,
    ) -> Result<Option<Rule>, Memory>
        requires { IsAuditing job.now self.old }
        ensures { IfOk result (λ broken. (at : IsAuditing job.now self.old) → IsJudged job.now at.past entry.now self.new broken) }
    {
        if !keeps_script(job, &self.turns, &self.driver, &self.machine, entry) {
            return Ok(Some(Rule::Script));
        }
        let before = mode_of(&self.machine, entry.actor);
        let ended = self.start_ended(&entry.event);
        let keeps_age = keeps_age(&self.pass, &self.driver, &self.machine, entry);
        let keeps_kick = keeps_kick(&self.pass, &self.machine, entry);
        // A pass goes on by the tables and the machine as they stand before the entry.
        note_pass(
            &mut self.pass,
            &self.driver,
            &self.machine,
            entry,
            keeps_age,
        );
        let broken = ask(alloc, &mut self.machine, &mut self.records, entry)?;
        if broken.is_some() {
            return Ok(broken);
        }
        if !keeps_age {
            return Ok(Some(Rule::Age));
        }
        if !keeps_kick {
            return Ok(Some(Rule::Kick));
        }
        let start = self.start_begun(&entry.event, ended);
        self.follow(job, before, start, entry);
        Ok(None)
    }

    /// Whether the trace may end here.
    pub(crate) fn may_end(&self, job: &Job) -> bool
        requires { IsAuditing job.now self.now }
        ensures { (at : IsAuditing job.now self.now) → result ≡ is_ended job.now at.past }
    {
        is_ended(job, &self.turns, &self.driver, &self.machine)
    }

    // The open start that an event ends.
    fn start_ended(&self, event: &Event) -> Option<Start>
        ensures { (f : Frame) → frame_ended event.now ≡ Some f → start_of result ≡ (state_of self.now.machine).start f.0 }
    {
        match frame_ended(event) {
            Some(frame) => self.machine.open_start(frame),
            None => None,
        }
    }

    // The open start that an event has opened, and for every other event this one.
    fn start_begun(&self, event: &Event, ended: Option<Start>) -> Option<Start>
        ensures begun { (f : Frame) → frame_begun event.now ≡ Some f → start_of result ≡ (state_of self.now.machine).start f.0 }
        ensures others { frame_begun event.now ≡ None → result ≡ ended }
    {
        match frame_begun(event) {
            Some(frame) => self.machine.open_start(frame),
            None => ended,
        }
    }
}

// A pass goes on with an entry. One that breaks the rule Age is none of a pass, and the last that is judged.
fn note_pass(pass: &mut Pass, driver: &Driver, machine: &Machine, entry: &Entry, keeps_age: bool)
    requires { keeps_age ≡ true → IsSeen driver.now entry.now.actor entry.now.event }
    ensures { keeps_age ≡ true → pass.new ≡ gone_by driver.now machine.now entry.now.actor entry.now.event pass.old }
{
    if keeps_age {
        pass.note(driver, machine, entry);
    }
}

// The frame of the start that an event has opened.
fn frame_begun(event: &Event) -> Option<Frame>
    ensures { result ≡ frame_begun event.now }
{
    match *event {
        Event::Did {
            action: Action::EwbStart { frame, .. } | Action::EldStart { frame, .. },
            ..
        } => Some(frame),
        _ => None,
    }
}

// The frame of the start that an event ends.
fn frame_ended(event: &Event) -> Option<Frame>
    ensures { result ≡ frame_ended event.now }
{
    match *event {
        Event::Did {
            action: Action::Ewb { frame } | Action::Eld { frame },
            ..
        } => Some(frame),
        Event::Refused {
            action: Action::Eld { frame },
            ..
        } => Some(frame),
        _ => None,
    }
}
