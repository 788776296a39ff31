//! Printing a job.

ghost use Rattle.std.specs.Prelude.{◌≡◌, ◌++◌, ◌≤◌, IfOk, OnOk, Ok, length, map};
ghost use Rattle.job_grammar.specs.Jobs.{JobView};
ghost use Rattle.job_grammar.specs.inner.Jobs.{enclave_view, script_ops};
ghost use Rattle.job_grammar.specs.inner.Valid.{IsValid};
ghost use Rattle.job_text.specs.Reading.{read};
ghost use Rattle.job_print.specs.JobText.{enclave_says, job_text, numbered, options_say, plans_say, script_says, statements_text};

use crate::lines::push_statement;
use crate::statements::{op_statement, page_statement, plan_statement};
use io_edges::plans::PlanLine;
use job_grammar::jobs::{EnclaveJob, Job, Op};
use job_lines::statements::{Start, Statement};
use sgx_types::names::Memory;
use std::alloc::Global;

/// Writes `epc` and the options.
fn push_options(job: &Job, onto: &mut Vec<u8>) -> Result<(), Memory>
    ensures { OnOk result (onto.new.items ≡ onto.old.items ++ statements_text (options_say job.now)) }
{
    let marks = job.marks();
    push_statement(
        Statement::Epc {
            frames: job.epc().into(),
        },
        onto,
    )?;
    push_statement(
        Statement::Marks {
            low: marks.low.into(),
            high: marks.high.into(),
            scan: marks.scan.into(),
        },
        onto,
    )?;
    push_statement(Statement::Key { key: *job.key() }, onto)?;
    push_statement(
        Statement::Start(Start {
            epoch: job.start_epoch(),
            version: job.start_version(),
        }),
        onto,
    )
}

/// Writes an enclave, by its number.
#[tactic(auto, using(crate::proofs::TextLaws::lines_laws))]
fn push_enclave(number: u16, enclave: &EnclaveJob, onto: &mut Vec<u8>) -> Result<(), Memory>
    ensures { OnOk result (
        onto.new.items ≡ onto.old.items ++ statements_text (enclave_says number (enclave_view enclave.now))) }
{
    push_statement(
        Statement::Enclave {
            enclave: number,
            base: enclave.base,
            size: enclave.size,
        },
        onto,
    )?;
    for line in &enclave.lines {
        push_statement(page_statement(*line), onto)?;
    }
    match enclave.expect {
        None => Ok(()),
        Some(digest) => push_statement(Statement::Expect { digest }, onto),
    }
}

/// Writes the enclaves.
#[tactic(auto, using(crate::proofs::TextLaws::numbered_more))]
fn push_enclaves(enclaves: &[EnclaveJob], onto: &mut Vec<u8>) -> Result<(), Memory>
    requires { length enclaves.now ≤ 8 }
    ensures { OnOk result (
        onto.new.items ≡ onto.old.items ++ statements_text (numbered enclave_says 1 (map enclave_view enclaves.now))) }
{
    let mut number = 1;
    for enclave in enclaves {
        push_enclave(number, enclave, onto)?;
        number += 1;
    }
    Ok(())
}

/// Writes the store lines.
#[tactic(auto, using(crate::proofs::TextLaws::line_more))]
fn push_plans(plans: &[PlanLine], onto: &mut Vec<u8>) -> Result<(), Memory>
    ensures { OnOk result (onto.new.items ≡ onto.old.items ++ statements_text (plans_say plans.now)) }
{
    for plan in plans {
        push_statement(Statement::Plan(plan_statement(*plan)), onto)?;
    }
    Ok(())
}

/// Writes a processor and its script, by the processor's number.
#[tactic(auto, using(crate::proofs::TextLaws::line_more, crate::proofs::TextLaws::begun))]
fn push_script(number: u64, script: &[Op], onto: &mut Vec<u8>) -> Result<(), Memory>
    ensures { OnOk result (
        onto.new.items ≡ onto.old.items ++ statements_text (script_says number script.now)) }
{
    push_statement(Statement::Cpu { number }, onto)?;
    for op in script {
        push_statement(Statement::Operation(op_statement(*op)), onto)?;
    }
    Ok(())
}

/// Writes the processors.
#[tactic(auto, using(crate::proofs::TextLaws::numbered_more))]
fn push_scripts(scripts: &[Vec<Op>], onto: &mut Vec<u8>) -> Result<(), Memory>
    requires { length scripts.now ≤ 16 }
    ensures { OnOk result (
        onto.new.items ≡ onto.old.items ++ statements_text (numbered script_says 0 (script_ops scripts.now))) }
{
    let mut number = 0;
    for script in scripts {
        push_script(number, script, onto)?;
        number += 1;
    }
    Ok(())
}

/// The canonical text of a job: `epc`, `marks`, `key` and `start` always stand, `expect` behind its enclave's other lines,
/// and words with a single space. Numbers are decimal, but bases, sizes and offsets hexadecimal; digests are in lower case.
#[tactic(auto, using(crate::proofs::TextLaws::all_parts))]
pub fn print_job(alloc: Global, job: &Job) -> Result<Vec<u8>, Memory>
    ensures text { IfOk result (λ text. text.items ≡ job_text job.now) }
    ensures again { IfOk result (λ text. read text.items ≡ Ok job.now) }
{
    let mut text = Vec::new(alloc);
    push_options(job, &mut text)?;
    push_enclaves(job.enclaves(), &mut text)?;
    push_plans(job.plans(), &mut text)?;
    push_scripts(job.scripts(), &mut text)?;
    Ok(text)
}

/// Reading the text of a valid job gives the job.
#[tactic(auto, using(crate::proofs::ReadsBack::reads_back))]
pub fn what_is_printed_is_read_again()
    ensures { (job : JobView) → IsValid job → read (job_text job) ≡ Ok job }
{}

/// No two valid jobs have one text.
#[tactic(auto, using(crate::proofs::ReadsBack::one_text))]
pub fn each_job_has_its_own_text()
    ensures { (one other : JobView) → IsValid one → IsValid other → job_text one ≡ job_text other → one ≡ other }
{}
