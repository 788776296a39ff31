//! Giving a whole text to a sink.

ghost use Rattle.std.specs.Prelude.{◌≡◌, [], OnOk, OnErr, IsErr};
ghost use Rattle.io_edges.specs.inner.Faults.{HasCause};
ghost use Rattle.io_edges.specs.Sinks.{followed_by, GivesPart};

use crate::faults::Failed;
use crate::sinks::Sink;

/// Gives the whole text to the sink, in as many calls as it takes. An empty text makes no call.
pub fn give_all<K: Sink>(sink: &mut K, text: &[u8]) -> Result<(), Failed>
    ensures ok { OnOk result (K.given sink.new ≡ followed_by (K.given sink.old) text.now) }
    ensures err { OnErr result (GivesPart (K.given sink.old) (K.given sink.new) text.now) }
    ensures empty { text.now ≡ [] → sink.new ≡ sink.old }
    ensures cause { HasCause (K.faults sink.old) (K.faults sink.new) (IsErr result) }
{
    let mut at = 0;
    while at < text.len() {
        at += sink.give(&text[at..])?;
    }
    Ok(())
}
