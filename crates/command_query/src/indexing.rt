//! An index over the entries of a trace.

ghost use Rattle.std.specs.Prelude.{IfOk, reverse};
ghost use Rattle.trace_query.specs.Index.{IndexStands};

use job_grammar::jobs::Job;
use sgx_rules::entries::Entry;
use sgx_types::names::Memory;
use std::alloc::Global;
use trace_query::index::Index;

/// An index over the entries of a trace of a job, which stand oldest first.
pub(crate) fn index_of(alloc: Global, job: &Job, entries: &[Entry]) -> Result<Index, Memory>
    ensures { IfOk result (λ index. IndexStands index (reverse entries.now)) }
{
    let mut index = Index::new(alloc, job)?;
    for entry in entries {
        index.push(alloc, entry)?;
    }
    Ok(index)
}
