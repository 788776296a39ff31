//! A run whose gate holds two processors until they meet, over a store that is looked at.

ghost use Rattle.std.specs.Prelude.{◌≡◌, [], IfSome};

use crate::calls::{Edges, RUN};
use crate::meeting::Meeting;
use crate::run_tests::push_many_adds;
use crate::same::are_same;
use crate::seen_store::SeenStore;
use audit_check::watch::Watch;
use backing_store::backing::Backing;
use backing_store::planned_store::PlannedStore;
use page_commands::status::Status;
use run_crew::gate::Gate;
use sgx_types::names::Memory;
use std::alloc::Global;
use std::sync::Wait;
use std::sync::atomic::{AtomicU64, Ordering};
use std::test::Fail;
use std::thread::Threads;

// Runs a job by the whole program, over this store and this gate.
fn status_of<R: Threads + Wait + Sync, B: Backing + Send, G: Gate + Watch + Sync>(
    rt: &R,
    alloc: Global,
    job: &[u8],
    store: B,
    gate: &G,
) -> Result<Status, Memory>
    requires { IfSome (B.told store) (λ calls. calls ≡ []) }
{
    let edges = Edges::new(alloc, RUN, [job, b""], 1000, [&[], &[1], &[], &[]])?;
    let mut edges = Box::new(alloc, edges)?;
    let ended = edges.call(rt, alloc, store, gate);
    Ok(ended.status)
}

#[test]
fn two_processors_meet_at_the_gate(rt: HostRuntime) -> Result<(), Fail> {
    let alloc = rt.alloc();
    let mut job = String::new(alloc);
    push_many_adds(&mut job)?;
    let gate = Meeting::new();
    let rooms = AtomicU64::new(0);
    let puts = AtomicU64::new(0);
    let gets = AtomicU64::new(0);
    let alone = AtomicU64::new(0);
    let store = SeenStore {
        store: PlannedStore::new(),
        inside: &gate.inside,
        rooms: &rooms,
        puts: &puts,
        gets: &gets,
        alone: &alone,
    };
    let status = status_of(&rt, alloc, job.as_bytes(), store, &gate)?;
    are_same(&rt, (status, gate.counts()), (Status::Done, [1, 1, 0, 0]));
    are_same(&rt, alone.load(Ordering::SeqCst), 0);
    // 34 of 48 pages leave 14 frames while they are added, each by a room and a put, and those that are entered are got back. How many
    // more move, the threads decide.
    let many = [
        rooms.load(Ordering::SeqCst) > 33,
        puts.load(Ordering::SeqCst) > 33,
        gets.load(Ordering::SeqCst) > 0,
    ];
    are_same(&rt, many, [true, true, true]);
    Ok(())
}
