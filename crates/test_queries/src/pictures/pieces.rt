//! A picture that is given in pieces.

use super::rows::FIRST;
use crate::same::are_same;
use command_picture::giving::give_picture;
use io_edges::mem_sink::MemSink;
use picture_text::picture::print_picture;
use sgx_rules::entries::{Action, Answer, Entry, Event};
use sgx_types::names::{Actor, Memory};
use std::alloc::Global;
use std::process::Abort;
use std::test::Fail;
use trace_pieces::ungiven::Ungiven;
use trace_reader::reader::read_trace;

// How many bytes the sink takes at once, the calls that fail, and what is answered.
type Row = (usize, &'static [u64], Result<(), Ungiven>);

const ROWS: &[Row] = &[
    (1, &[], Ok(())),
    (7, &[], Ok(())),
    (65536, &[], Ok(())),
    (7, &[1], Err(Ungiven::Failed)),
    (7, &[200], Err(Ungiven::Failed)),
];

// Whether a sink got the text, or the front of it where the giving did not end well.
fn has_pieces(
    rt: &impl Abort,
    alloc: Global,
    entries: &[Entry],
    text: &[u8],
    row: &Row,
) -> Result<(), Memory> {
    let (piece, fails, answer) = *row;
    assert!(rt; piece >= 1);
    let mut sink = MemSink::new(alloc, piece, fails)?;
    are_same(rt, give_picture(alloc, entries, &mut sink), answer);
    assert!(rt; text.starts_with(sink.bytes()));
    are_same(rt, sink.bytes().len() == text.len(), answer.is_ok());
    Ok(())
}

fn go_along(rt: &impl Abort, alloc: Global, entries: &[Entry], rows: &[Row]) -> Result<(), Memory> {
    let text = print_picture(alloc, entries)?;
    for row in rows {
        has_pieces(rt, alloc, entries, &text, row)?;
    }
    Ok(())
}

#[test]
fn a_sink_takes_pieces(rt: HostRuntime) -> Result<(), Fail> {
    let entries = read_trace(rt.alloc(), FIRST)?;
    go_along(&rt, rt.alloc(), &entries, ROWS)?;
    Ok(())
}

const ENTRY: Entry = Entry {
    actor: Actor::Builder,
    event: Event::Did {
        action: Action::Exit,
        answer: Answer::Plain,
    },
};

// Of a long picture the first piece is given by the first call.
const LONG: &[Row] = &[
    (1 << 16, &[], Ok(())),
    (1 << 16, &[1], Err(Ungiven::Failed)),
    (1 << 16, &[2], Err(Ungiven::Failed)),
];

#[test]
fn a_long_picture_is_given_in_pieces(rt: HostRuntime) -> Result<(), Fail> {
    let entries = vec![in rt.alloc(); ENTRY; 2000]?;
    go_along(&rt, rt.alloc(), &entries, LONG)?;
    Ok(())
}
