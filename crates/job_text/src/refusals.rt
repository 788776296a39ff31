//! Why a text is no job.

ghost use Rattle.std.specs.Prelude.{◌≡◌};
ghost use Rattle.job_text.specs.declared.refusals.JobRefusal.TheVariants as refusals;

use job_lines::kinds::JobKind;
use sgx_types::names::Memory;
use std::alloc::{AllocError, AllocFailed};

/// A faulty line, counted from 1, and what is wrong with it. Line 0 stands for the whole text.
#[derive(Clone, Copy, Debug, PartialEq, Eq)]
pub struct Fault {
    pub line: u32,
    pub kind: JobKind,
}

/// Why a job was not read.
#[derive(Clone, Copy, Debug, PartialEq, Eq)]
pub enum JobRefusal {
    /// A fault of the text. Lines count from 1, and line 0 stands for the whole text.
    Fault { line: u32, kind: JobKind },

    /// Memory was refused.
    Memory,
}

impl From<Memory> for JobRefusal {
    ghost from_gives = { λ _ refusal. refusal ≡ refusals.Memory };

    fn from(_error: Memory) -> JobRefusal {
        JobRefusal::Memory
    }
}

impl From<AllocError> for JobRefusal {
    ghost from_gives = { λ _ refusal. refusal ≡ refusals.Memory };

    fn from(_error: AllocError) -> JobRefusal {
        JobRefusal::Memory
    }
}

impl<T: Drop> From<AllocFailed<T>> for JobRefusal {
    ghost from_gives = { λ _ refusal. refusal ≡ refusals.Memory };

    fn from(_error: AllocFailed<T>) -> JobRefusal {
        JobRefusal::Memory
    }
}
