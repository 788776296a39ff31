//! What auditor and checker say of a trace and of the wrong ones beside it, against what is told of them.

use crate::verdicts::goes_with;
use crate::wrong::{Wrong, verdict_in};
use audit_check::checking::check;
use audit_check::verdict::Verdict;
use audit_check::watch::Unwatched;
use audit_trace::audit::audit;
use job_grammar::jobs::Job;
use job_text::reader::read_job;
use sgx_rules::entries::Entry;
use sgx_types::names::Memory;
use std::alloc::Global;
use trace_reader::reader::read_trace;
use trace_tally::tally::push_tally;

/// What is said of a right trace and of its wrong ones.
#[derive(Drop)]
pub struct Report {
    pub right: Verdict,
    /// How many wrong traces there are.
    pub all: usize,
    /// Those of which the auditor says another thing, or the checker one that does not go with it.
    pub others: Vec<Other>,
}

/// A trace of which another thing is told than is found.
#[derive(Drop)]
pub struct Other {
    pub what: String,
    pub found: Verdict,
    pub told: Verdict,
}

/// Audits the trace of a job and each wrong one. None where one of the texts cannot be read.
pub fn compare(
    alloc: Global,
    job: &[u8],
    trace: &[u8],
    wrong: &[u8],
) -> Result<Option<Box<Report>>, Memory> {
    let Ok(job) = read_job(alloc, job) else {
        return Ok(None);
    };
    // In a box, as the report is: dropping either is dear to check wherever its owner can end.
    let job = Box::new(alloc, job)?;
    compare_with(alloc, &job, trace, wrong)
}

fn compare_with(
    alloc: Global,
    job: &Job,
    trace: &[u8],
    wrong: &[u8],
) -> Result<Option<Box<Report>>, Memory> {
    let Ok(right) = read_trace(alloc, trace) else {
        return Ok(None);
    };
    let Ok(wrong) = str::from_utf8(wrong) else {
        return Ok(None);
    };
    let report = Report {
        right: audit(alloc, job, &right, &Unwatched)?,
        all: 0,
        others: Vec::new(alloc),
    };
    let mut report = Box::new(alloc, report)?;
    let told = report.right;
    report.compare(
        alloc,
        "as it is",
        told,
        check(alloc, job, &right, &Unwatched)?,
    )?;
    let is_read = report.add_all(alloc, job, &right, wrong)?;
    Ok(if is_read { Some(report) } else { None })
}

impl Report {
    // Each wrong trace of a text. Whether all of them could be read.
    fn add_all(
        &mut self,
        alloc: Global,
        job: &Job,
        right: &[Entry],
        wrong: &str,
    ) -> Result<bool, Memory> {
        for text in wrong.split("\n\n").filter(|text| !text.is_empty()) {
            let Some(wrong) = Wrong::read(alloc, text)? else {
                return Ok(false);
            };
            self.add(alloc, job, right, wrong)?;
        }
        Ok(true)
    }

    // A wrong trace, and what is found of it.
    fn add(
        &mut self,
        alloc: Global,
        job: &Job,
        right: &[Entry],
        wrong: Wrong,
    ) -> Result<(), Memory> {
        let entries = wrong.entries(alloc, right)?;
        let Wrong { what, told, .. } = wrong;
        self.all = self.all.saturating_add(1);
        self.compare(alloc, &what, told, check(alloc, job, &entries, &Unwatched)?)?;
        let found = audit(alloc, job, &entries, &Unwatched)?;
        if found != told {
            self.others.push(Other { what, found, told })?;
        }
        Ok(())
    }

    // What the checker found of a trace.
    fn compare(
        &mut self,
        alloc: Global,
        what: &str,
        told: Verdict,
        found: Verdict,
    ) -> Result<(), Memory> {
        if !goes_with(told, found) {
            let what = format!(in alloc; "{what}, checked")?;
            self.others.push(Other { what, found, told })?;
        }
        Ok(())
    }
}

/// What is found of a trace of another driver, and what is told of it.
#[derive(Clone, Copy)]
pub struct Finding {
    pub found: Verdict,
    pub told: Verdict,
    /// The tally is the one that is told.
    pub is_tallied: bool,
}

/// Checks a trace of another driver. Told is the verdict on its first line, and then the tally. None where one of the texts cannot be read.
pub fn checked(
    alloc: Global,
    job: &[u8],
    trace: &[u8],
    told: &[u8],
) -> Result<Option<Finding>, Memory> {
    let Ok(job) = read_job(alloc, job) else {
        return Ok(None);
    };
    let job = Box::new(alloc, job)?;
    let Ok(entries) = read_trace(alloc, trace) else {
        return Ok(None);
    };
    let Some((line, lines)) = str::from_utf8(told)
        .ok()
        .and_then(|told| told.split_once('\n'))
    else {
        return Ok(None);
    };
    let Some(told) = verdict_in(line) else {
        return Ok(None);
    };
    let mut tally = Vec::new(alloc);
    push_tally(alloc, &entries, &mut tally)?;
    Ok(Some(Finding {
        found: check(alloc, &job, &entries, &Unwatched)?,
        told,
        is_tallied: tally.as_slice() == lines.as_bytes(),
    }))
}
