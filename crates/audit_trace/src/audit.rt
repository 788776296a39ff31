//! The audit of a whole trace.

ghost use Rattle.std.specs.Prelude.{[], ◌≡◌, ◌<◌, ◌^◌, IfOk, length, reverse};
ghost use Rattle.audit_trace.specs.inner.Audits.{KeepsAudit};
ghost use Rattle.audit_trace.specs.Judged.{Judges};

use crate::auditing::Auditing;
use audit_check::verdict::Verdict;
use audit_check::watch::Watch;
use history_rules::rules::Rule;
use job_grammar::jobs::Job;
use sgx_rules::entries::Entry;
use sgx_types::names::Memory;
use std::alloc::Global;

/// Judges a trace of a job, oldest entry first, whoever made it: `Yes` exactly where it is a history of the job, else the first place at
/// which a rule fails, and the first rule there. Linear in the entries, with the SHA-256 of each page that goes out, and of each enclave's
/// measurement.
pub fn audit(
    alloc: Global,
    job: &Job,
    entries: &[Entry],
    watch: &impl Watch,
) -> Result<Verdict, Memory>
    ensures { IfOk result (Judges job.now (reverse entries.now)) }
{
    let mut auditing = Auditing::new(alloc, job)?;
    audit_with(&mut auditing, alloc, job, entries, watch)
}

// Judges the trace with a machine and tables that stand for an empty trace.
fn audit_with(
    auditing: &mut Auditing,
    alloc: Global,
    job: &Job,
    entries: &[Entry],
    watch: &impl Watch,
) -> Result<Verdict, Memory>
    requires { KeepsAudit job.now [] auditing.old }
    ensures { IfOk result (Judges job.now (reverse entries.now)) }
{
    let count = count(entries);
    for place in 0..count {
        watch.judging(place);
        if let Some(rule) = auditing.judge(alloc, job, &entries[place])? {
            return Ok(Verdict::No { place, rule });
        }
    }
    if auditing.may_end(job) {
        return Ok(Verdict::Yes);
    }
    Ok(Verdict::No {
        place: count,
        rule: Rule::Script,
    })
}

fn count(entries: &[Entry]) -> usize
    ensures value { result ≡ length entries.now }
    ensures few { result < 2 ^ 63 }
{
    entries.len()
}
