//! How many events of each kind a picture has.

use super::traces::{BUS_PUT, KICK, SIXTEEN};
use picture_text::drawing::events_of;
use picture_text::events::Mark;
use picture_text::lanes::Lanes;
use std::alloc::Global;
use std::test::Fail;
use trace_reader::reader::read_trace;

#[derive(Clone, Copy, Debug, PartialEq, Eq)]
struct Counts {
    lanes: usize,
    begins: u32,
    ends: u32,
    entries: u32,
    counters: u32,
}

// Another program counted these.
const ROWS: [(&[u8], Counts); 3] = [
    (
        BUS_PUT,
        Counts {
            lanes: 21,
            begins: 45,
            ends: 27,
            entries: 51,
            counters: 29,
        },
    ),
    (
        KICK,
        Counts {
            lanes: 20,
            begins: 89,
            ends: 73,
            entries: 131,
            counters: 55,
        },
    ),
    (
        SIXTEEN,
        Counts {
            lanes: 16,
            begins: 16,
            ends: 16,
            entries: 32,
            counters: 0,
        },
    ),
];

fn count(alloc: Global, trace: &[u8]) -> Result<Counts, Fail> {
    let entries = read_trace(alloc, trace)?;
    let events = events_of(alloc, &entries)?;
    let mut counts = Counts {
        lanes: Lanes::of(alloc, &events)?.as_slice().len(),
        begins: 0,
        ends: 0,
        entries: 0,
        counters: 0,
    };
    for event in &events {
        match event.mark {
            Mark::Begins(_) => counts.begins = counts.begins.saturating_add(1),
            Mark::Ends => counts.ends = counts.ends.saturating_add(1),
            Mark::Does => counts.entries = counts.entries.saturating_add(1),
            Mark::Counts { .. } => counts.counters = counts.counters.saturating_add(1),
        }
    }
    Ok(counts)
}

#[test]
fn a_picture_has_so_many_events(rt: HostRuntime) -> Result<(), Fail> {
    for (trace, wanted) in ROWS {
        assert_eq!(rt; count(rt.alloc(), trace)?, wanted);
    }
    Ok(())
}
