//! What an auditor keeps.

ghost use Rattle.std.specs.Prelude.{[], IfOk};
ghost use Rattle.audit_trace.specs.inner.Audits.{KeepsAudit};

use audit_machine::old_records::OldRecords;
use driver_pass::pass::Pass;
use driver_tables::driver::Driver;
use due_tables::turns::Turns;
use job_grammar::jobs::Job;
use sgx_machine::machine::Machine;
use sgx_types::names::Memory;
use sgx_types::record::{Header, Record};
use std::alloc::Global;

/// A machine and the tables of a driver, which stand for the entries so far of a trace that somebody else made.
#[derive(Drop)]
pub(crate) struct Auditing {
    pub(crate) machine: Machine,
    pub(crate) driver: Driver,
    pub(crate) turns: Turns,
    pub(crate) pass: Pass,
    /// The record with which each page went out last that is outside.
    pub(crate) records: OldRecords,
    /// Stands in the driver's tables for the record of a load that has started, of which the rules say nothing.
    pub(crate) blank: Record,
}

impl Auditing {
    /// Before the first entry of a job's trace.
    pub(crate) fn new(alloc: Global, job: &Job) -> Result<Auditing, Memory>
        ensures { IfOk result (KeepsAudit job.now []) }
    {
        let blank = blank(alloc)?;
        let records = OldRecords::new(alloc);
        let pass = Pass::new(alloc)?;
        let turns = Turns::new(alloc, job)?;
        let driver = Driver::new(alloc, job)?;
        // The machine comes last, so that no other refusal has to give it back.
        let machine = Machine::new(
            alloc,
            job.epc(),
            job.scripts().len() as u8,
            *job.key(),
            job.start_epoch(),
            job.start_version(),
        )?;
        Ok(Auditing {
            machine,
            driver,
            turns,
            pass,
            records,
            blank,
        })
    }
}

// A record of nothing.
fn blank(alloc: Global) -> Result<Record, Memory> {
    let header = Header {
        enclave: 0,
        address: 0,
        flags: 0,
    };
    Ok(Record {
        header,
        cipher: vec![in alloc; 0; 4096]?,
        tag: [0; 32],
    })
}
