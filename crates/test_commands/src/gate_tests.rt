//! The run of the gate's command.

use crate::same::are_same;
use io_edges::mem_sink::MemSink;
use page_commands::gate_counts::give_counts;
use std::test::Fail;
use trace_pieces::ungiven::Ungiven;

// The rounds, the calls of the sink that fail, each of which takes at most 7 bytes, and what is answered and given.
const ROWS: [(u32, &[u64], Result<(), Ungiven>, &[u8]); 6] = [
    (0, &[], Ok(()), b"enters 0\nstale 0\n"),
    (1, &[], Ok(()), b"enters 4\nstale 0\n"),
    (1000, &[], Ok(()), b"enters 4000\nstale 0\n"),
    (1000, &[1], Err(Ungiven::Failed), b""),
    (1000, &[2], Err(Ungiven::Failed), b"enters "),
    (1000, &[4], Ok(()), b"enters 4000\nstale 0\n"),
];

#[test]
fn each_processor_enters_once_a_round(rt: HostRuntime) -> Result<(), Fail> {
    for (rounds, fails, answer, given) in ROWS {
        let mut out = MemSink::new(rt.alloc(), 7, fails)?;
        are_same(&rt, give_counts(&rt, rt.alloc(), rounds, &mut out), answer);
        are_same(&rt, out.bytes(), given);
    }
    Ok(())
}
