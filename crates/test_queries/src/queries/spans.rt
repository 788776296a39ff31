//! Which processors cache a page behind each number of entries.

use super::places::{P2, P8};
use sgx_rules::entries::{Action, Answer, Cause, Entry, Event};
use sgx_types::names::{Actor, Cpu, Frame, Memory, Page};
use std::alloc::Global;
use std::test::Fail;
use trace_query::page_spans::PageSpans;

const FRAME: Frame = Frame(0);

/// What a processor did: it goes into an enclave or out, or fills a page's translation.
#[derive(Clone, Copy, Debug, PartialEq, Eq)]
enum Deed {
    Enter(u16),
    Resume(u16),
    Exit,
    Aex,
    Fill(u32),
}

// A processor, what it did, a page, and the processors that cache the page from then on.
type Row = (u8, Deed, Page, &'static [Cpu]);

fn action_of(deed: Deed) -> Action {
    match deed {
        Deed::Enter(enclave) => Action::Enter {
            enclave,
            tcs: 1,
            tcs_frame: FRAME,
            ssa_frame: FRAME,
        },
        Deed::Resume(enclave) => Action::Resume {
            enclave,
            tcs: 1,
            tcs_frame: FRAME,
            ssa_frame: FRAME,
        },
        Deed::Exit => Action::Exit,
        Deed::Aex => Action::Aex {
            cause: Cause::Timer,
        },
        Deed::Fill(number) => Action::Fill {
            number,
            frame: FRAME,
        },
    }
}

// Two processors fill, and leave in two ways. What is filled outside counts for nothing, also once the processor is back.
const ROWS: &[Row] = &[
    (3, Deed::Fill(2), P2, &[]),
    (3, Deed::Enter(1), P2, &[]),
    (3, Deed::Fill(2), P2, &[Cpu(3)]),
    (200, Deed::Enter(1), P2, &[Cpu(3)]),
    (200, Deed::Fill(2), P2, &[Cpu(3), Cpu(200)]),
    (200, Deed::Fill(8), P8, &[Cpu(200)]),
    (3, Deed::Fill(2), P2, &[Cpu(3), Cpu(200)]),
    (3, Deed::Aex, P2, &[Cpu(200)]),
    (3, Deed::Fill(8), P8, &[Cpu(200)]),
    (3, Deed::Resume(1), P8, &[Cpu(200)]),
    (3, Deed::Fill(8), P8, &[Cpu(3), Cpu(200)]),
    (200, Deed::Exit, P8, &[Cpu(3)]),
    (200, Deed::Enter(2), P8, &[Cpu(3)]),
    (200, Deed::Fill(2), P2, &[]),
];

fn entry_of(cpu: u8, deed: Deed) -> Entry {
    Entry {
        actor: Actor::Cpu(Cpu(cpu)),
        event: Event::Did {
            action: action_of(deed),
            answer: Answer::Plain,
        },
    }
}

fn pushed(alloc: Global) -> Result<Box<PageSpans>, Memory> {
    let mut known = Box::new(alloc, PageSpans::new(alloc))?;
    for (cpu, deed, _, _) in ROWS {
        known.push(alloc, &entry_of(*cpu, *deed))?;
    }
    Ok(known)
}

#[test]
fn processors_cache_what_they_filled_inside(rt: HostRuntime) -> Result<(), Fail> {
    let known = pushed(rt.alloc())?;
    for (place, (_, _, page, wanted)) in ROWS.iter().enumerate() {
        let n = place as u64 + 1;
        let cpus = known.who_caches(rt.alloc(), n, *page)?;
        assert_eq!(rt; cpus.as_slice(), *wanted, "behind {n}");
    }
    Ok(())
}

// Of 65 pages the first goes.
#[test]
fn the_oldest_translation_goes(rt: HostRuntime) -> Result<(), Fail> {
    let alloc = rt.alloc();
    let mut known = Box::new(alloc, PageSpans::new(alloc))?;
    known.push(alloc, &entry_of(0, Deed::Enter(1)))?;
    for number in 2..67 {
        known.push(alloc, &entry_of(0, Deed::Fill(number)))?;
    }
    for (n, wanted) in [(65, true), (66, false)] {
        let cpus = known.who_caches(alloc, n, P2)?;
        assert_eq!(rt; !cpus.is_empty(), wanted, "behind {n}");
    }
    Ok(())
}
