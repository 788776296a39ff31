//! The tables of what is due to the builder and to each processor.

ghost use Rattle.std.specs.Prelude.{[], IfOk};
ghost use Rattle.due_tables.specs.inner.Shown.{ShowsTurns};

use crate::cpu_turns::CpuTurns;
use crate::tcs_turns::TcsTurns;
use job_grammar::jobs::Job;
use script_rules::cursor::BuildCursor;
use sgx_types::names::{Actor, Memory};
use std::alloc::Global;

/// What stands of the builder and of the processors of a job: how far the builder is, which enclaves are initialised, how its entries
/// left each processor, the state save pages in use, whose the last entry of all is, whether the run was stopped for want of an epoch or
/// a version, and whether a page could not be reloaded. No call but `new` takes memory, and each takes constant time.
#[derive(Drop)]
pub struct Turns {
    pub cursor: BuildCursor,
    /// By the enclave's number from 1 to 8.
    pub inits: [bool; 9],
    pub cpus: CpuTurns,
    pub tcs: TcsTurns,
    pub last: Option<Actor>,
    pub is_spent: bool,
    pub has_loss: bool,
}

impl Turns {
    /// The tables of a job before its first entry, in time linear in the job.
    pub fn new(alloc: Global, job: &Job) -> Result<Turns, Memory>
        ensures { IfOk result (ShowsTurns job.now []) }
    {
        Ok(Turns {
            cursor: BuildCursor::new(job),
            inits: [false; 9],
            cpus: CpuTurns::new(alloc, job.scripts().len())?,
            tcs: TcsTurns::new(alloc, job.va_pages(), job.enclaves())?,
            last: None,
            is_spent: false,
            has_loss: false,
        })
    }
}
