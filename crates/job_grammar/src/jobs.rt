//! A job: an EPC, enclaves, scripts, and what the store does.

ghost use Rattle.std.specs.Prelude.{◌≡◌, map};
ghost use Rattle.job_grammar.specs.Jobs.{JobView, default_marks, first_page, page_count, is_tcs_line};
ghost use Rattle.job_grammar.specs.inner.Jobs.{enclave_view, is_reg_line};
ghost use Rattle.job_grammar.specs.Jobs.{is_save_line, job_pages, va_pages, needed};
ghost use Rattle.job_grammar.specs.inner.Jobs.{parts_view};

use crate::counts::{needed_by, total_pages, va_pages_of};
use io_edges::plans::PlanLine;
use sgx_types::names::Perm;
use std::marker::Model;

/// When the reclaimer works: it begins below `low` free frames, stops at `high`, and looks at `scan` pages a pass.
#[derive(Clone, Copy, Debug, PartialEq, Eq)]
pub struct Marks {
    pub low: u32,
    pub high: u32,
    pub scan: u32,
}

impl Marks {
    /// The marks of a job that gives none: Linux's 32, 64 and 16, or less where the EPC has fewer than 128 frames.
    pub fn of_frames(epc: u32) -> Self
        ensures { result ≡ default_marks epc }
    {
        Marks {
            low: (epc / 4).min(32),
            high: (epc / 2).min(64),
            scan: (epc / 4).min(16),
        }
    }
}

/// A line of an enclave's pages. Page numbers are offsets from the enclave's base in pages of 4096 bytes. A plain page
/// is added and not measured further.
#[derive(Clone, Copy, Debug, PartialEq, Eq)]
pub enum PageLine {
    /// A TCS page, whose `nssa` state save frames are the pages from `ossa` on.
    Tcs {
        page: u32,
        ossa: u32,
        nssa: u32,
        plain: bool,
    },
    /// `count` REG pages from `first` on, every 8-byte word of which is `value`.
    Reg {
        first: u32,
        count: u32,
        perm: Perm,
        value: u64,
        plain: bool,
    },
}

impl PageLine {
    /// The first page that it adds.
    pub fn first(&self) -> u32
        ensures { result ≡ first_page self.now }
    {
        match self {
            PageLine::Tcs { page, .. } => *page,
            PageLine::Reg { first, .. } => *first,
        }
    }

    /// How many pages it adds.
    pub fn count(&self) -> u32
        ensures { result ≡ page_count self.now }
    {
        match self {
            PageLine::Tcs { .. } => 1,
            PageLine::Reg { count, .. } => *count,
        }
    }

    /// Whether it adds a TCS page.
    pub fn is_tcs(&self) -> bool
        ensures { result ≡ is_tcs_line self.now }
    {
        matches!(self, PageLine::Tcs { .. })
    }

    /// Whether it adds REG pages.
    pub fn is_reg(&self) -> bool
        ensures { result ≡ is_reg_line self.now }
    {
        matches!(self, PageLine::Reg { .. })
    }

    /// Whether it adds REG pages that can be read and written, as those for saved state must be.
    pub fn is_save(&self) -> bool
        ensures { result ≡ is_save_line self.now }
    {
        match self {
            PageLine::Tcs { .. } => false,
            PageLine::Reg { perm, .. } => perm.r && perm.w,
        }
    }
}

/// An enclave: its base and size in bytes, its pages, and the measurement that is expected of it.
#[derive(Drop)]
pub struct EnclaveJob {
    pub base: u64,
    pub size: u64,
    pub lines: Vec<PageLine>,
    pub expect: Option<[u8; 32]>,
}

/// An operation of a processor's script. Offsets are in bytes from the enclave's base.
#[derive(Clone, Copy, Debug, PartialEq, Eq)]
pub enum Op {
    Enter { enclave: u16, tcs: u32 },
    Resume { enclave: u16, tcs: u32 },
    Exit,
    Timer,
    Load { off: u64 },
    Store { off: u64, value: u64 },
    Xadd { off: u64, value: u64 },
    Set { value: u64 },
    Plus { value: u64 },
    OutLoad { enclave: u16, off: u64 },
    OutStore { enclave: u16, off: u64, value: u64 },
}

/// The parts of a job: the number of EPC frames, the reclaimer's marks, the sealing key, the first epoch of each enclave
/// and the first version, the enclaves from number 1 on, what the store does, and a script for each processor from 0 on.
#[derive(Drop)]
pub struct JobParts {
    pub epc: u32,
    pub marks: Marks,
    pub key: [u8; 32],
    pub start_epoch: u64,
    pub start_version: u64,
    pub enclaves: Vec<EnclaveJob>,
    pub plans: Vec<PlanLine>,
    pub scripts: Vec<Vec<Op>>,
}

/// What to run. A job is always valid.
#[derive(Drop)]
pub struct Job {
    parts: JobParts,
}

impl Model for Job {
    ghost use Rattle.job_grammar.specs.Jobs.{JobView};

    ghost Value = { JobView };

    ghost use Rattle.job_grammar.specs.inner.Kept.{view_of, IsKept};

    ghost view = { view_of };

    ghost invariant = { IsKept };
}

impl Job {
    ghost use Rattle.std.specs.Prelude.{◌+◌, ◌^◌, ◌≤◌, ◌<◌, map};
    ghost use Rattle.job_grammar.specs.inner.Valid.{IsValid};

    /// The job of these parts, which are those of a valid one.
    pub fn new(parts: JobParts) -> Self
        requires { IsValid (parts_view parts) }
        ensures { result ≡ parts_view parts }
    {
        Job { parts }
    }

    /// The number of EPC frames, from 1 to 4096.
    pub fn epc(&self) -> u32
        ensures value { result ≡ self.now.epc }
        ensures valid { IsValid self.now }
    {
        self.parts.epc
    }

    /// When the reclaimer works.
    pub fn marks(&self) -> Marks
        ensures { result ≡ self.now.marks }
    {
        self.parts.marks
    }

    /// The sealing key.
    pub fn key(&self) -> &[u8; 32]
        ensures { result.now ≡ self.now.key }
    {
        &self.parts.key
    }

    /// The first epoch of each enclave, from 1 to 2^40 - 1.
    pub fn start_epoch(&self) -> u64
        ensures value { result ≡ self.now.start_epoch }
        ensures some { 1 ≤ result }
        ensures few { result < 2 ^ 40 }
    {
        self.parts.start_epoch
    }

    /// The first version that is drawn, from 1.
    pub fn start_version(&self) -> u64
        ensures value { result ≡ self.now.start_version }
        ensures some { 1 ≤ result }
    {
        self.parts.start_version
    }

    /// The enclaves, from number 1 on.
    pub fn enclaves(&self) -> &[EnclaveJob]
        ensures value { map enclave_view result.now ≡ self.now.enclaves }
        ensures valid { IsValid self.now }
    {
        &self.parts.enclaves
    }

    /// What the store does.
    pub fn plans(&self) -> &[PlanLine]
        ensures { result.now ≡ self.now.plans }
    {
        &self.parts.plans
    }

    /// The script of each processor, from number 0 on.
    pub fn scripts(&self) -> &[Vec<Op>]
        ensures { map (λ script. script.items) result.now ≡ self.now.scripts }
    {
        &self.parts.scripts
    }

    /// How many version array pages the builder makes: as many as give a slot to every page, every enclave and each of
    /// these pages.
    pub fn va_pages(&self) -> u32
        ensures { result ≡ va_pages self.now }
    {
        va_pages_of(&self.parts.enclaves)
    }

    /// How many pages the enclaves have, at most 4096.
    pub fn pages(&self) -> u64
        ensures { result ≡ job_pages self.now }
    {
        total_pages(&self.parts.enclaves)
    }
}

/// The least number of EPC frames with which the job can run: one for each enclave and each version array page, three for
/// each processor, and one more.
pub fn needed(job: &Job) -> u32
    ensures { result ≡ needed job.now }
{
    needed_by(&job.parts.enclaves, &job.parts.scripts)
}
