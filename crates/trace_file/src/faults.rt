//! The line on what is wrong with an old trace.

ghost use Rattle.std.specs.Prelude.{◌≡◌, IfOk, IsErrOf, OnOk};
ghost use Rattle.io_edges.specs.inner.Faults.{HasCause};
ghost use Rattle.io_edges.specs.Sinks.{GivesPart, followed_by};
ghost use Rattle.trace_file.specs.Reading.{trace_fault_line};

use io_edges::giving::give_all;
use io_edges::sinks::Sink;
use sgx_types::names::Memory;
use std::alloc::Global;
use text_words::words::Word::{Decimal, Name};
use text_words::words::push_word;
use trace_pieces::ungiven::Ungiven;

/// The line on the first fault of a trace's text. Line 0 is the whole text.
pub fn print_fault(alloc: Global, line: u64) -> Result<Vec<u8>, Memory>
    ensures { IfOk result (λ text. text.items ≡ trace_fault_line line) }
{
    let mut text = Vec::new(alloc);
    push_word(Name("trace line "), &mut text)?;
    push_word(Decimal(line), &mut text)?;
    text.push(b'\n')?;
    Ok(text)
}

/// Gives the line on the first fault of a trace's text to a sink.
pub fn give_fault<K: Sink>(alloc: Global, out: &mut K, line: u64) -> Result<(), Ungiven>
    ensures gave { OnOk result (K.given out.new ≡ followed_by (K.given out.old) (trace_fault_line line)) }
    ensures broke { IsErrOf result Ungiven.Failed → GivesPart (K.given out.old) (K.given out.new) (trace_fault_line line) }
    ensures memory { IsErrOf result Ungiven.Memory → out.new ≡ out.old }
    ensures cause { HasCause (K.faults out.old) (K.faults out.new) (IsErrOf result Ungiven.Failed) }
{
    let text = print_fault(alloc, line)?;
    give_all(out, &text)?;
    Ok(())
}
