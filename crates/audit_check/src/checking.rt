//! The check of a whole trace.

ghost use Rattle.std.specs.Prelude.{[], ◌≡◌, ◌<◌, ◌^◌, IfOk, length, reverse};
ghost use Rattle.audit_machine.specs.inner.Kept.{records_of};
ghost use Rattle.audit_check.specs.Checked.{Checks};
ghost use Rattle.audit_check.specs.inner.Asks.{CanCheck, Checked, IsAnswered};
ghost use Rattle.audit_check.specs.inner.Named.{NamesOne};

use crate::asking::ask;
use crate::verdict::Verdict;
use crate::watch::Watch;
use audit_machine::old_records::OldRecords;
use history_rules::rules::Rule;
use job_grammar::jobs::Job;
use sgx_machine::machine::Machine;
use sgx_rules::entries::Entry;
use sgx_types::names::Memory;
use std::alloc::Global;

/// Judges a trace, oldest entry first, whoever made it, by the processor's rules alone: `Yes` exactly where it keeps each of them at every
/// place, else the first place at which one fails, and the first that fails there. Fits and Stale are never named: where one of them
/// fails first, Refusal fails too.
///
/// Of the job only the EPC's size, the key and the first epoch and version count. Processors are 0 to 15, whatever the job has. Linear in
/// the entries, with the SHA-256 of each page that goes out, and of each enclave's measurement.
pub fn check(
    alloc: Global,
    job: &Job,
    entries: &[Entry],
    watch: &impl Watch,
) -> Result<Verdict, Memory>
    ensures verdict { IfOk result (Checks job.now (reverse entries.now)) }
    ensures named { IfOk result NamesOne }
{
    let mut records = OldRecords::new(alloc);
    // The machine comes last, so that no other refusal has to give it back.
    let mut machine = Machine::new(
        alloc,
        job.epc(),
        16,
        *job.key(),
        job.start_epoch(),
        job.start_version(),
    )?;
    check_with(&mut machine, &mut records, alloc, job, entries, watch)
}

// Checks the trace with a machine and records that stand for an empty one.
fn check_with(
    machine: &mut Machine,
    records: &mut OldRecords,
    alloc: Global,
    job: &Job,
    entries: &[Entry],
    watch: &impl Watch,
) -> Result<Verdict, Memory>
    requires cpus { length machine.old.cpus ≡ 16 }
    requires checked { Checked job.now 16 [] machine.old (records_of records.old) }
    ensures verdict { IfOk result (Checks job.now (reverse entries.now)) }
    ensures named { IfOk result NamesOne }
{
    let count = count(entries);
    for place in 0..count {
        watch.judging(place);
        if let Some(rule) = ask_any(alloc, machine, records, &entries[place])? {
            return Ok(Verdict::No { place, rule });
        }
    }
    Ok(Verdict::Yes)
}

// Asks a machine of 16 processors for an entry: each actor is one of them, or none of any machine.
fn ask_any(
    alloc: Global,
    machine: &mut Machine,
    records: &mut OldRecords,
    entry: &Entry,
) -> Result<Option<Rule>, Memory>
    requires cpus { length machine.old.cpus ≡ 16 }
    requires can { CanCheck machine.old (records_of records.old) }
    ensures answer { IfOk result (λ broken. (can : CanCheck machine.old (records_of records.old))
        → IsAnswered can.j can.cpus can.past machine.old entry.now machine.new (records_of records.new) broken) }
    ensures cpus { length machine.new.cpus ≡ length machine.old.cpus }
{
    ask(alloc, machine, records, entry)
}

fn count(entries: &[Entry]) -> usize
    ensures value { result ≡ length entries.now }
    ensures few { result < 2 ^ 63 }
{
    entries.len()
}
