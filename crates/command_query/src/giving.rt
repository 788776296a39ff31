//! The answer to a question, given to a sink.

ghost use Rattle.std.specs.Prelude.{◌≡◌, IsErrOf, OnOk, reverse};
ghost use Rattle.io_edges.specs.inner.Faults.{HasCause};
ghost use Rattle.io_edges.specs.Sinks.{GivesPart, followed_by};
ghost use Rattle.command_query.specs.AnswerText.{answer_text};

use crate::texts::print_answer;
use command_words::question::Question;
use io_edges::giving::give_all;
use io_edges::sinks::Sink;
use job_grammar::jobs::Job;
use sgx_rules::entries::Entry;
use std::alloc::Global;
use trace_pieces::ungiven::Ungiven;

/// Gives the text that answers a question to a trace of a job. The entries stand oldest first; any list of entries is taken.
pub fn give_answer<K: Sink>(
    alloc: Global,
    job: &Job,
    entries: &[Entry],
    question: Question,
    out: &mut K,
) -> Result<(), Ungiven>
    ensures gave { OnOk result (K.given out.new ≡ followed_by (K.given out.old) (answer_text question (reverse entries.now))) }
    ensures broke { IsErrOf result Ungiven.Failed
        → GivesPart (K.given out.old) (K.given out.new) (answer_text question (reverse entries.now)) }
    ensures memory { IsErrOf result Ungiven.Memory → out.new ≡ out.old }
    ensures cause { HasCause (K.faults out.old) (K.faults out.new) (IsErrOf result Ungiven.Failed) }
{
    let text = print_answer(alloc, job, entries, question)?;
    give_all(out, &text)?;
    Ok(())
}
