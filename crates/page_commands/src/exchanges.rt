//! How many exchanges of a job's scripts have their reply.

ghost use Rattle.std.specs.Prelude.{ℕ, ◌≡◌, ◌+◌, ◌<◌, ◌≤◌, true, List, ◌∷◌, length, reverse, slice_index_or, unwrap_or, IfOk};
ghost use Rattle.std.specs.Prelude.{map, slice_get};
ghost use Rattle.sgx_rules.specs.declared.entries.Entry.{Entry};
ghost use Rattle.sgx_rules.specs.Processors.{is_by};
ghost use Rattle.script_rules.specs.Script.{replied, script_of};
ghost use Rattle.page_commands.specs.Summary.{is_xadd, xadds, xadds_in};
ghost use Rattle.page_commands.specs.inner.Progress.{AreProgress, HaveRoom, IsProgress};
ghost use Rattle.trace_tally.specs.Tally.{more_if};

use job_grammar::jobs::{Job, Op};
use run_replies::replies::interrupted_after;
use script_rules::replies::is_reply;
use sgx_rules::entries::{Entry, Event};
use sgx_types::names::{Actor, Memory};
use std::alloc::Global;

/// To how many operations of its script a processor has replies, and whether it is interrupted behind them.
#[derive(Clone, Copy)]
struct Progress {
    replied: usize,
    is_interrupted: bool,
}

/// How many replies to exchanges the processors of a job have, by the entries, in one walk over them.
pub(crate) fn number_of_xadds(alloc: Global, job: &Job, entries: &[Entry]) -> Result<u64, Memory>
    ensures { IfOk result (λ count. count ≡ xadds job.now (reverse entries.now)) }
{
    let start = Progress {
        replied: 0,
        is_interrupted: false,
    };
    let mut all = vec![in alloc; start; job.scripts().len()]?;
    let mut count: u64 = 0;
    for entry in entries {
        if note(job, entry, &mut all) {
            count += 1;
        }
    }
    Ok(count)
}

/// Takes in an entry. Whether it is the reply to an exchange.
fn note(job: &Job, entry: &Entry, all: &mut Vec<Progress>) -> bool
    requires many { length all.old.items ≡ length job.now.scripts }
    requires few { HaveRoom all.old.items }
    ensures progress { (past : List Entry) → AreProgress past all.old.items → AreProgress (entry.now ∷ past) all.new.items }
    ensures len { length all.new.items ≡ length all.old.items }
    ensures counts { (past : List Entry) → AreProgress past all.old.items →
        xadds job.now (entry.now ∷ past) ≡ more_if result (xadds job.now past) }
{
    if let Actor::Cpu(cpu) = entry.actor {
        if usize::from(cpu.0) < all.len() {
            let script = script_of(job, usize::from(cpu.0));
            return all[usize::from(cpu.0)].note(&entry.event, script);
        }
    }
    false
}

/// The script of a processor.
fn script_of(job: &Job, cpu: usize) -> &[Op]
    requires { cpu < length job.now.scripts }
    ensures { result.now ≡ script_of job.now cpu }
{
    &job.scripts()[cpu]
}

/// The operation of a script that has so many before it is an exchange.
fn is_xadd_at(script: &[Op], before: usize) -> bool
    ensures { xadds_in script.now (before + 1) ≡ more_if result (xadds_in script.now before) }
{
    before < script.len() && is_xadd(script[before])
}

fn is_xadd(op: Op) -> bool
    ensures { result ≡ is_xadd op }
{
    matches!(op, Op::Xadd { .. })
}

impl Progress {
    /// Takes in an entry of the processor's own. Whether it is the reply to an exchange of its script.
    fn note(&mut self, event: &Event, script: &[Op]) -> bool
        requires { self.old.replied < usize.MAX }
        ensures progress { (past : List Entry) (p : ℕ) (e : Entry) → e.event ≡ event.now → is_by p e.actor ≡ true
            → IsProgress past p self.old → IsProgress (e ∷ past) p self.new }
        ensures counts { (past : List Entry) (p : ℕ) (e : Entry) → e.event ≡ event.now → is_by p e.actor ≡ true
            → IsProgress past p self.old
            → xadds_in script.now (replied (e ∷ past) p) ≡ more_if result (xadds_in script.now (replied past p)) }
    {
        let before = self.replied;
        let replies = is_reply(self.is_interrupted, event);
        if replies {
            self.replied += 1;
        }
        self.is_interrupted = interrupted_after(event, self.is_interrupted);
        replies && is_xadd_at(script, before)
    }
}
