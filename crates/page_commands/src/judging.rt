//! The verdict on a trace of a job, given to a sink.

ghost use Rattle.std.specs.Prelude.{◌≡◌, IfOk, IsErrOf, reverse};
ghost use Rattle.page_commands.specs.VerdictText.{judged_text};
ghost use Rattle.io_edges.specs.inner.Faults.{HasCause};
ghost use Rattle.io_edges.specs.Sinks.{GivesPart, followed_by};
ghost use Rattle.audit_check.specs.declared.verdict.Verdict.{Verdict};
ghost use Rattle.page_commands.specs.JudgedBy.{JudgesBy};

use crate::verdicts::print_verdict;
use audit_check::checking::check;
use audit_check::verdict::Verdict;
use audit_check::watch::Watch;
use audit_trace::audit::audit;
use command_words::rules::Rules;
use io_edges::giving::give_all;
use io_edges::sinks::Sink;
use job_grammar::jobs::Job;
use sgx_rules::entries::Entry;
use sgx_types::names::Memory;
use std::alloc::Global;
use trace_pieces::ungiven::Ungiven;
use trace_tally::tally::push_tally;

/// Judges a trace of a job by these rules, and gives the line on the verdict, which is answered too, and by the processor's rules the lines
/// of the trace's tally. The entries stand oldest first.
pub fn give_verdict<K: Sink, W: Watch>(
    alloc: Global,
    rules: Rules,
    job: &Job,
    entries: &[Entry],
    watch: &W,
    out: &mut K,
) -> Result<Verdict, Ungiven>
    ensures judged { IfOk result (JudgesBy rules job.now (reverse entries.now)) }
    ensures gave { IfOk result (λ verdict. K.given out.new
        ≡ followed_by (K.given out.old) (judged_text rules (reverse entries.now) verdict)) }
    ensures broke { IsErrOf result Ungiven.Failed → (verdict : Verdict) × JudgesBy rules job.now (reverse entries.now) verdict
        × GivesPart (K.given out.old) (K.given out.new) (judged_text rules (reverse entries.now) verdict) }
    ensures memory { IsErrOf result Ungiven.Memory → out.new ≡ out.old }
    ensures cause { HasCause (K.faults out.old) (K.faults out.new) (IsErrOf result Ungiven.Failed) }
{
    let verdict = judge(alloc, rules, job, entries, watch)?;
    let text = print_judged(alloc, rules, entries, verdict)?;
    give_all(out, &text)?;
    Ok(verdict)
}

fn judge(
    alloc: Global,
    rules: Rules,
    job: &Job,
    entries: &[Entry],
    watch: &impl Watch,
) -> Result<Verdict, Memory>
    ensures { IfOk result (JudgesBy rules job.now (reverse entries.now)) }
{
    match rules {
        Rules::All => audit(alloc, job, entries, watch),
        Rules::Processors => check(alloc, job, entries, watch),
    }
}

#[tactic(auto, unfolding(crate::specs::VerdictText::judged_text))]
fn print_judged(
    alloc: Global,
    rules: Rules,
    entries: &[Entry],
    verdict: Verdict,
) -> Result<Vec<u8>, Memory>
    ensures { IfOk result (λ text. text.items ≡ judged_text rules (reverse entries.now) verdict) }
{
    let mut text = print_verdict(alloc, verdict)?;
    if let Rules::Processors = rules {
        push_tally(alloc, entries, &mut text)?;
    }
    Ok(text)
}
