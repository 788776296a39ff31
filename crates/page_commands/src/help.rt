//! The command `help`: what the commands are.

ghost use Rattle.io_edges.specs.Faults.{HasRisen};
ghost use Rattle.page_commands.specs.inner.Commands.{IsTextGiven};
ghost use Rattle.std.specs.Prelude.{◌≡◌};

use crate::status::Status;
use io_edges::giving::give_all;
use io_edges::sinks::Sink;

/// What the commands are, a line each. It is given by `help`, and told where the words of the command line are no command (this project's
/// own).
pub const HELP: &str = "\
usage: sgxpage COMMAND

  run PATH                 run a job; its trace goes to PATH
  make NUMBER SIZE         print a job made of two numbers
  demo NUMBER SIZE         run that job and sum it up
  least PATH               compare a trace's reloads with the fewest
  audit PATH               judge a trace of a job by all rules
  check PATH               judge any driver's trace by the processor's rules
  query PATH PLACE L PAGE  tell where a page was behind PLACE entries
  moves PATH L PAGE        tell where a page went
  picture PATH             print a trace as a picture for a browser
  migrate PATH             print a trace of the first edition in the second
  gate ROUNDS              try the gate that has no lock
  help                     print this

A job is read from standard input, and a trace from PATH. L is an enclave's letter and PAGE a page's number in it or secs, or L is va.
";

/// Gives the text on the commands.
pub(crate) fn help_command<K: Sink>(out: &mut K) -> Status
    ensures told { IsTextGiven HELP.now result (K.given out.old) (K.given out.new) }
    ensures memory { result ≡ Status.Memory → out.new ≡ out.old }
    ensures failed { result ≡ Status.WriteFault → HasRisen (K.faults out.old) (K.faults out.new) }
{
    match give_all(out, HELP.as_bytes()) {
        Ok(()) => Status::Done,
        Err(_) => Status::WriteFault,
    }
}
