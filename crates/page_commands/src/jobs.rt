//! The job of a command: read, or the line on what is wrong with it.

ghost use Rattle.std.specs.Prelude.{◌≡◌, ◌+◌, ◌^◌, IfErr, IfOk, IsErrOf, Ok, OnOk};
ghost use Rattle.io_edges.specs.Faults.{HasRisen};
ghost use Rattle.io_edges.specs.Sinks.{GivesPart, followed_by};
ghost use Rattle.io_edges.specs.Sources.{TakesAtMost};
ghost use Rattle.page_commands.specs.inner.Commands.{IsUnrun};
ghost use Rattle.job_text.specs.Reading.{read};
ghost use Rattle.trace_file.specs.Reading.{OfRead};
ghost use Rattle.page_commands.specs.Runs.{job_fault_line};
ghost use Rattle.page_commands.specs.Says.{Ends};
ghost use Rattle.page_commands.specs.inner.Runs.{IsFaultAnd, IsFaultOf};

use crate::fault_lines::print_fault;
use crate::status::Status;
use io_edges::giving::give_all;
use io_edges::reading::{ReadEnd, read_all};
use io_edges::sinks::Sink;
use io_edges::sources::Source;
use job_grammar::jobs::Job;
use job_lines::kinds::JobKind;
use job_text::reader::{MOST_BYTES, read_job};
use job_text::refusals::{Fault, JobRefusal};
use std::alloc::Global;
use trace_pieces::ungiven::Ungiven;

/// Why there is no job.
pub(crate) enum Unread {
    /// Its text is none of a job.
    Bad(Fault),

    /// The source failed.
    Failed,

    /// Memory was refused.
    Memory,
}

/// Reads a job to its end. Of more than 2^24 bytes no more than one past them is read.
pub(crate) fn read<J: Source>(alloc: Global, source: &mut J) -> Result<Job, Unread>
    ensures job { IfOk result (λ job. OfRead (J.left source.old) (λ bytes. read bytes ≡ Ok job)) }
    ensures fault { IfErr result (λ unread. IsFaultOf (J.left source.old) unread) }
    ensures reads { TakesAtMost (2 ^ 24 + 1) (J.left source.old) (J.left source.new) }
    ensures failed { IsErrOf result Unread.Failed → HasRisen (J.faults source.old) (J.faults source.new) }
{
    let bytes = match read_all(alloc, source, MOST_BYTES) {
        Ok(bytes) => bytes,
        Err(ReadEnd::TooLong) => {
            return Err(Unread::Bad(Fault {
                line: 0,
                kind: JobKind::TooLong,
            }));
        }
        Err(ReadEnd::Failed) => return Err(Unread::Failed),
        Err(ReadEnd::Memory) => return Err(Unread::Memory),
    };
    match read_job(alloc, &bytes) {
        Ok(job) => Ok(job),
        Err(JobRefusal::Fault { line, kind }) => Err(Unread::Bad(Fault { line, kind })),
        Err(JobRefusal::Memory) => Err(Unread::Memory),
    }
}

/// Gives the line on what is wrong with a job. What else kept it from being read needs no text.
pub(crate) fn tell<K: Sink>(alloc: Global, out: &mut K, unread: Unread) -> Status
    ensures told { Ends (λ status text. (status ≡ Status.BadJob) × IsFaultAnd unread (λ fault. text ≡ job_fault_line fault)) result
        (K.given out.old) (K.given out.new) }
    ensures unrun { IsUnrun result }
    ensures fault { result ≡ Status.BadJob →
        IsFaultAnd unread (λ fault. K.given out.new ≡ followed_by (K.given out.old) (job_fault_line fault)) }
    ensures failed { result ≡ Status.ReadFault → (unread ≡ Unread.Failed) × (out.new ≡ out.old) }
    ensures broke { result ≡ Status.WriteFault →
        IsFaultAnd unread (λ fault. GivesPart (K.given out.old) (K.given out.new) (job_fault_line fault)) }
    ensures memory { result ≡ Status.Memory → out.new ≡ out.old }
    ensures ungiven { result ≡ Status.WriteFault → HasRisen (K.faults out.old) (K.faults out.new) }
{
    match unread {
        Unread::Bad(fault) => match give_fault(alloc, out, fault) {
            Ok(()) => Status::BadJob,
            Err(Ungiven::Failed) => Status::WriteFault,
            Err(Ungiven::Memory) => Status::Memory,
        },
        Unread::Failed => Status::ReadFault,
        Unread::Memory => Status::Memory,
    }
}

fn give_fault<K: Sink>(alloc: Global, out: &mut K, fault: Fault) -> Result<(), Ungiven>
    ensures gave { OnOk result (K.given out.new ≡ followed_by (K.given out.old) (job_fault_line fault)) }
    ensures memory { IsErrOf result Ungiven.Memory → out.new ≡ out.old }
    ensures broke { IsErrOf result Ungiven.Failed → GivesPart (K.given out.old) (K.given out.new) (job_fault_line fault) }
    ensures failed { IsErrOf result Ungiven.Failed → HasRisen (K.faults out.old) (K.faults out.new) }
{
    let text = print_fault(alloc, fault)?;
    give_all(out, &text)?;
    Ok(())
}
