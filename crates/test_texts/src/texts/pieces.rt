//! A trace that is given in pieces.

use crate::same::are_same;
use io_edges::mem_sink::MemSink;
use sgx_rules::entries::{Action, Answer, Entry, Event};
use sgx_types::names::Actor;
use std::test::Fail;
use trace_pieces::pieces::{PIECE, give_trace};
use trace_pieces::ungiven::Ungiven;
use trace_text::trace::print_trace;

const ENTRY: Entry = Entry {
    actor: Actor::Builder,
    event: Event::Did {
        action: Action::Exit,
        answer: Answer::Plain,
    },
};

// The calls that fail, what is answered, and how many bytes were given before, all where no call fails. A line has seven bytes.
const ROWS: [(&[u64], Result<(), Ungiven>, usize); 4] = [
    (&[], Ok(()), 140_018),
    (&[1], Err(Ungiven::Failed), 0),
    (&[2], Err(Ungiven::Failed), 64_513),
    (&[4], Ok(()), 140_018),
];

#[test]
fn a_long_trace_is_given_in_pieces(rt: HostRuntime) -> Result<(), Fail> {
    let alloc = rt.alloc();
    let entries = vec![in alloc; ENTRY; 20_000]?;
    let text = print_trace(alloc, &entries)?;
    for (fails, answer, given) in ROWS {
        let mut sink = MemSink::new(alloc, PIECE, fails)?;
        are_same(&rt, give_trace(alloc, &mut sink, &entries), answer);
        are_same(&rt, Some(sink.bytes()), text.get(..given));
    }
    Ok(())
}
