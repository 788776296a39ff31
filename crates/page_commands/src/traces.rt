//! The old trace of a command: read behind its job, or the line on what is wrong with either.

ghost use Rattle.std.specs.Prelude.{◌≡◌, ◌+◌, ◌^◌, ◌⊎◌, Ok, IfErr, IfOk, IsErrOf, OnOk};
ghost use Rattle.io_edges.specs.Faults.{HasRisen};
ghost use Rattle.io_edges.specs.Sources.{TakesAtMost};
ghost use Rattle.job_text.specs.Reading.{read};
ghost use Rattle.trace_file.specs.Reading.{OfRead, Reads, trace_fault_line};
ghost use Rattle.page_commands.specs.Runs.{HasJob};
ghost use Rattle.page_commands.specs.Says.{Ends, OfBoth, OfTrace};

use crate::jobs::{read, tell};
use crate::status::Status;
use io_edges::sinks::Sink;
use io_edges::sources::Source;
use job_grammar::jobs::Job;
use sgx_rules::entries::Entry;
use std::alloc::Global;
use trace_file::faults::give_fault;
use trace_file::reading::read_old;
use trace_file::unread::Unread;
use trace_pieces::ungiven::Ungiven;
use trace_text::edition::Edition;

/// A job, and the entries of an old trace, oldest first.
#[derive(Drop)]
pub(crate) struct Traced {
    pub job: Job,
    pub entries: Vec<Entry>,
}

/// Reads a job and then, where it is one, an old trace. Where either is none, `out` gets the line on that. Without both, this is how
/// the command ends.
pub(crate) fn read_traced<J: Source, O: Source, K: Sink>(
    alloc: Global,
    job: &mut J,
    old: &mut O,
    out: &mut K,
) -> Result<Traced, Status>
    ensures reads_job { TakesAtMost (2 ^ 24 + 1) (J.left job.old) (J.left job.new) }
    ensures reads_old { TakesAtMost (2 ^ 30 + 1) (O.left old.old) (O.left old.new) }

    ensures job { IfOk result (λ traced. OfRead (J.left job.old) (λ bytes. read bytes ≡ Ok traced.job)) }
    ensures entries { IfOk result (λ traced. OfRead (O.left old.old) (λ bytes. Reads Edition.Two bytes (Ok traced.entries.items))) }
    ensures untold { OnOk result (out.new ≡ out.old) }
    ensures told { IfErr result (λ status.
        OfRead (J.left job.old) (λ bytes. (HasJob bytes ⊎ (old.new ≡ old.old)) × OfRead (O.left old.old) (λ old_bytes.
        Ends (OfBoth bytes old_bytes (λ j past status text. ⊥)) status (K.given out.old) (K.given out.new)))) }

    ensures read_fault { IsErrOf result Status.ReadFault →
        (HasRisen (J.faults job.old) (J.faults job.new) × (old.new ≡ old.old)
        ⊎ OfRead (J.left job.old) HasJob × HasRisen (O.faults old.old) (O.faults old.new)) × (out.new ≡ out.old) }
    ensures write_fault { IsErrOf result Status.WriteFault → HasRisen (K.faults out.old) (K.faults out.new) }
    ensures memory { IsErrOf result Status.Memory → out.new ≡ out.old }
{
    let job = match read(alloc, job) {
        Ok(job) => job,
        Err(unread) => return Err(tell(alloc, out, unread)),
    };
    let entries = match read_entries(alloc, Edition::Two, old, out) {
        Ok(entries) => entries,
        Err(status) => return Err(status),
    };
    Ok(Traced { job, entries })
}

/// Reads an old trace in an edition. Where its text is none, `out` gets the line on that.
pub(crate) fn read_entries<O: Source, K: Sink>(
    alloc: Global,
    edition: Edition,
    old: &mut O,
    out: &mut K,
) -> Result<Vec<Entry>, Status>
    ensures reads { TakesAtMost (2 ^ 30 + 1) (O.left old.old) (O.left old.new) }
    ensures entries { IfOk result (λ entries. OfRead (O.left old.old) (λ bytes. Reads edition bytes (Ok entries.items))) }
    ensures untold { OnOk result (out.new ≡ out.old) }
    ensures told { IfErr result (λ status. OfRead (O.left old.old) (λ bytes.
        Ends (OfTrace edition bytes (λ past status text. ⊥)) status (K.given out.old) (K.given out.new))) }
    ensures read_fault { IsErrOf result Status.ReadFault → HasRisen (O.faults old.old) (O.faults old.new) × (out.new ≡ out.old) }
    ensures write_fault { IsErrOf result Status.WriteFault → HasRisen (K.faults out.old) (K.faults out.new) }
    ensures memory { IsErrOf result Status.Memory → out.new ≡ out.old }
{
    match read_old(alloc, edition, old) {
        Ok(entries) => Ok(entries),
        Err(Unread::Bad { line }) => Err(tell_line(alloc, out, line)),
        Err(Unread::Failed) => Err(Status::ReadFault),
        Err(Unread::Memory) => Err(Status::Memory),
    }
}

// Gives the line on the first fault of an old trace.
fn tell_line<K: Sink>(alloc: Global, out: &mut K, line: u64) -> Status
    ensures told { Ends (λ status text. (status ≡ Status.BadTrace) × (text ≡ trace_fault_line line))
        result (K.given out.old) (K.given out.new) }
    ensures kind { (result ≡ Status.BadTrace) ⊎ (result ≡ Status.WriteFault) ⊎ (result ≡ Status.Memory) }
    ensures write_fault { result ≡ Status.WriteFault → HasRisen (K.faults out.old) (K.faults out.new) }
    ensures memory { result ≡ Status.Memory → out.new ≡ out.old }
{
    match give_fault(alloc, out, line) {
        Ok(()) => Status::BadTrace,
        Err(Ungiven::Failed) => Status::WriteFault,
        Err(Ungiven::Memory) => Status::Memory,
    }
}
