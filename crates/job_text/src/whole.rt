//! The job of a draft of all lines, or what is missing in it.

ghost use Rattle.std.specs.Prelude.{◌≡◌, ℕ, unwrap_or, Some, Ok, Err, IfOk, MatchOption};
ghost use Rattle.job_grammar.specs.Jobs.{is_save_page, lines_at, needed};
ghost use Rattle.job_grammar.specs.inner.Jobs.{parts_view};
ghost use Rattle.job_text.specs.Reading.{has_save_pages, is_incomplete, unsaved_line, whole};
ghost use Rattle.job_text.specs.inner.Sound.{IsSound};
ghost use Rattle.job_text.specs.Drafts.{first_start, job_of};

use crate::drafts::JobDraft;
use crate::enclaves::enclave_jobs;
use crate::refusals::Fault;
use crate::tcs_lines::TcsLine;
use job_grammar::jobs::{Job, JobParts, Marks};
use job_lines::kinds::JobKind;
use job_lines::statements::Start;
use std::alloc::{AllocError, Global};

impl JobDraft {
    /// Whether a page of an enclave is a REG page with R and W.
    fn is_save_page(&self, enclave: usize, page: u64) -> bool
        ensures { result ≡ is_save_page (lines_at self.now.enclaves enclave) page }
    {
        match self.enclave(enclave) {
            Some(enclave) => enclave.is_save(page),
            None => false,
        }
    }

    /// Whether all state save pages of a `tcs` line are.
    fn has_save_pages(&self, line: TcsLine) -> bool
        ensures { result ≡ has_save_pages self.now.enclaves line }
    {
        for place in 0..line.nssa {
            if !self.is_save_page(line.enclave, u64::from(line.ossa) + u64::from(place)) {
                return false;
            }
        }
        true
    }

    /// The first `tcs` line some state save page of which is none.
    fn unsaved_line(&self) -> Option<TcsLine>
        ensures { result ≡ unsaved_line self.now }
    {
        for line in &self.tcs_lines {
            if !self.has_save_pages(*line) {
                return Some(*line);
            }
        }
        None
    }

    /// How many frames the job needs.
    #[tactic(auto, unfolding(crate::specs::Drafts::job_of))]
    fn needed(&self) -> u32
        ensures { (frames : ℕ) → result ≡ needed (job_of frames self.now) }
    {
        let enclaves = self.enclaves.len() as u32;
        let va_pages = (self.pages as u32 + enclaves) / 500 + 1;
        enclaves + va_pages + 3 * self.scripts.len() as u32 + 1
    }

    /// Whether there is no `epc` line, no enclave or no processor.
    pub(crate) fn is_incomplete(&self) -> bool
        ensures { result ≡ is_incomplete self.now }
    {
        self.epc.is_none() || self.enclaves.is_empty() || self.scripts.is_empty()
    }

    /// The fault of a draft of all lines, by the number of the line after the last.
    pub(crate) fn fault_of_whole(&self, after: u32) -> Option<Fault>
        ensures { MatchOption result ((frames : ℕ) × (self.now.epc ≡ Some frames)
            × (whole after self.now ≡ Ok (job_of frames self.now)))
            (λ fault. whole after self.now ≡ Err fault) }
    {
        let missing = Fault {
            line: after,
            kind: JobKind::Missing,
        };
        if self.is_incomplete() {
            return Some(missing);
        }
        let Some(frames) = self.epc else {
            return Some(missing);
        };
        if let Some(line) = self.unsaved_line() {
            return Some(Fault {
                line: line.line,
                kind: JobKind::Missing,
            });
        }
        let needed = self.needed();
        if frames < needed {
            return Some(Fault {
                line: self.epc_line,
                kind: JobKind::EpcTooSmall { needed },
            });
        }
        None
    }

    /// The first epoch and the first version.
    fn start_or_first(&self) -> Start
        ensures { result ≡ unwrap_or self.now.start first_start }
    {
        self.start.unwrap_or(Start {
            epoch: 1,
            version: 1,
        })
    }

    /// The parts of the job that has so many frames.
    #[tactic(auto, unfolding(crate::specs::Drafts::job_of))]
    fn into_parts(self, alloc: Global, epc: u32) -> Result<JobParts, AllocError>
        ensures { IfOk result (λ parts. parts_view parts ≡ job_of epc self) }
    {
        let start = self.start_or_first();
        let enclaves = enclave_jobs(alloc, self.enclaves)?;
        Ok(JobParts {
            epc,
            marks: self.marks.unwrap_or(Marks::of_frames(epc)),
            key: self.key.unwrap_or([0; 32]),
            start_epoch: start.epoch,
            start_version: start.version,
            enclaves,
            plans: self.plans,
            scripts: self.scripts.into_vec(),
        })
    }

    /// The job of a draft of all lines, or its fault, by the number of the line after the last.
    pub(crate) fn into_job(
        self,
        alloc: Global,
        after: u32,
    ) -> Result<Result<Job, Fault>, AllocError>
        requires { IsSound self }
        ensures { IfOk result (λ read. read ≡ whole after self) }
    {
        if let Some(fault) = self.fault_of_whole(after) {
            return Ok(Err(fault));
        }
        let epc = self.epc.unwrap_or(0);
        let parts = self.into_parts(alloc, epc)?;
        Ok(Ok(Job::new(parts)))
    }
}
