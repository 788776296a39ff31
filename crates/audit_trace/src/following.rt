//! An entry that keeps each rule is told to the tables.

ghost use Rattle.std.specs.Prelude.{◌∷◌};
ghost use Rattle.audit_trace.specs.inner.Audits.{CanFollow, KeepsAudit};

use crate::auditing::Auditing;
use audit_tables::following::follow;
use cached_translations::processor::Mode;
use driver_tables::driver::Driver;
use job_grammar::jobs::Job;
use sgx_machine::starts::Start;
use sgx_rules::entries::Entry;

impl Auditing {
    /// Brings the tables to an entry that keeps each rule, with which the machine, the pass and the records have gone on. `before` is how
    /// its processor stood before it, `start` the open start that it ends, or that it has opened.
    pub(crate) fn follow(&mut self, job: &Job, before: Mode, start: Option<Start>, entry: &Entry)
        requires { CanFollow job.now self.old before start entry.now }
        ensures { (can : CanFollow job.now self.old before start entry.now)
            → KeepsAudit job.now (entry.now ∷ can.past) self.new }
    {
        follow(
            &self.turns,
            &mut self.driver,
            before,
            start,
            &self.blank,
            entry,
        );
        let Driver { states, active, .. } = &mut self.driver;
        self.turns.hold(job, states, active, before, entry);
        self.turns.note(job, before, entry);
        self.pass.settle(job.marks(), self.machine.free_count());
    }
}
