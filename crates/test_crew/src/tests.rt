//! Runs with threads.

ghost use Rattle.std.specs.Prelude.{◌≤◌};

use crate::jobs::{adds, crowd};
use crate::runs::run_of;
use backing_store::planned_store::PlannedStore;
use epoch_words::seen::Seen;
use run_crew::gate::OpenGate;
use sgx_rules::entries::{Action, Answer, Entry, Event};
use sgx_types::names::Actor;
use std::alloc::{AllocError, Global};
use std::test::Fail;

// Which processor an add is of, and its answer.
fn add_in(entry: &Entry) -> Option<(usize, usize)> {
    match (entry.actor, entry.event) {
        (
            Actor::Cpu(cpu),
            Event::Did {
                action: Action::Xadd { .. },
                answer: Answer::Value(value),
            },
        ) => Some((usize::from(cpu.0), value as usize)),
        _ => None,
    }
}

// Whether the adds of each so many processors were answered each number below `count` once.
fn are_each_once(
    alloc: Global,
    entries: &[Entry],
    groups: usize,
    each: usize,
    count: usize,
) -> Result<bool, AllocError>
    requires { 1 ≤ each }
{
    let mut seen = vec![in alloc; false; groups.saturating_mul(count)]?;
    for entry in entries {
        if let Some((cpu, value)) = add_in(entry)
            && value < count
            && let Some(once) = seen.get_mut((cpu / each).wrapping_mul(count).wrapping_add(value))
        {
            *once = !*once;
        }
    }
    Ok(seen.iter().all(|once| *once))
}

fn tracks_in(entries: &[Entry]) -> u64 {
    let mut tracks = 0u64;
    for entry in entries {
        if let Event::Did {
            action: Action::Track { .. },
            ..
        } = entry.event
        {
            tracks = tracks.wrapping_add(1);
        }
    }
    tracks
}

#[test]
fn four_processors_add_in_threads(rt: HostRuntime) -> Result<(), Fail> {
    let alloc = rt.alloc();
    let ran = run_of(&rt, alloc, &adds(alloc)?, PlannedStore::new(), &OpenGate)?;
    let once = are_each_once(alloc, &ran.entries, 1, 4, 400)?;
    assert_eq!(rt; (once, ran.cpus, ran.words), (true, 4, 1));
    // The word of the enclave counts the tracks, and nobody is inside any more.
    let tracks = tracks_in(&ran.entries);
    assert!(rt; tracks > 10);
    assert_eq!(rt;
        ran.first,
        Seen {
            epoch: tracks.wrapping_add(1),
            older: 0,
            newer: 0,
        }
    );
    Ok(())
}

#[test]
fn sixteen_processors_add_in_eight_enclaves(rt: HostRuntime) -> Result<(), Fail> {
    let alloc = rt.alloc();
    let ran = run_of(&rt, alloc, &crowd(alloc)?, PlannedStore::new(), &OpenGate)?;
    let once = are_each_once(alloc, &ran.entries, 8, 2, 100)?;
    assert_eq!(rt; (once, ran.cpus, ran.reclaimer > 0), (true, 16, true));
    Ok(())
}
