//! Frames behind a gate without a lock.

ghost use Rattle.std.specs.Prelude.{◌≡◌};

use frame_gate::gate::FrameGate;
use frame_gate::refusals::{
    EntriesSpent, EvictRefusal, GenerationSpent, NotHeld, Older, TrackRefusal,
};
use frame_gate::rounds::count_entries;
use frame_gate::seats::{PagerSeat, ProcSeat};
use std::process::Abort;
use std::test::Fail;

#[derive(Clone, Copy, Debug)]
enum Call {
    Enter,
    Leave,
    Fill(u32),
    Touch(u32),
    Block(u32),
    Place(u32),
    Settle,
    Track,
    Evict(u32),
    Word(u32),
    Epoch,
    Entered,
}

use Call::{Block, Enter, Entered, Epoch, Evict, Fill, Leave, Place, Settle, Touch, Track, Word};

#[derive(Clone, Copy, Debug, PartialEq, Eq)]
enum Told {
    Done,
    Is(u64),
    Spent(u64),
    HeldNot(u64),
    NoTrack(u64),
    OlderInside(u64),
}

use Told::{Done, HeldNot, Is, NoTrack, OlderInside, Spent};

type Row = (Call, Told);

const ONE_EVICTION: &[Row] = &[
    (Place(0), Is(1)),
    (Enter, Is(1)),
    (Fill(0), Is(1)),
    (Block(0), Done),
    (Evict(0), NoTrack(1)),
    (Track, Is(2)),
    (Evict(0), OlderInside(0)),
    (Track, OlderInside(0)),
    (Touch(0), Is(1)),
    (Leave, Done),
    (Settle, Done),
    (Evict(0), Done),
    (Enter, Is(2)),
    (Fill(0), HeldNot(4)),
    (Place(0), Is(2)),
    (Fill(0), Is(2)),
    (Word(0), Is(9)),
    (Epoch, Is(2)),
    (Entered, Is(2)),
];

// Of two processors the one that entered first leaves last.
const FIRST_ENTERS: &[Row] = &[
    (Place(1), Is(1)),
    (Enter, Is(1)),
    (Fill(1), Is(1)),
    (Block(1), Done),
    (Track, Is(2)),
];

const SECOND_ENTERS: &[Row] = &[
    (Enter, Is(2)),
    (Fill(1), HeldNot(6)),
    (Leave, Done),
    (Track, OlderInside(0)),
    (Enter, Is(2)),
];

const FIRST_LEAVES: &[Row] = &[
    (Touch(1), Is(1)),
    (Evict(1), OlderInside(0)),
    (Leave, Done),
    (Evict(1), Done),
    (Word(1), Is(4)),
];

// One of two entries of the epoch before has left.
const SECOND_STAYS: &[Row] = &[
    (Track, Is(3)),
    (Settle, OlderInside(1)),
    (Leave, Done),
    (Track, Is(4)),
    (Entered, Is(2)),
];

fn processor(rt: &impl Abort, gate: &FrameGate, seat: &mut ProcSeat, call: Call) -> Told
    requires { seat.old.gate ≡ gate.now }
    ensures { seat.new.gate ≡ seat.old.gate }
{
    match call {
        Enter => {
            assert!(rt; seat.epoch().is_none());
            match gate.enter(seat) {
                Ok(epoch) => Is(epoch),
                Err(EntriesSpent { entries }) => Spent(entries),
            }
        }
        Leave => {
            assert!(rt; seat.epoch().is_some());
            gate.leave(seat);
            Done
        }
        Fill(frame) => {
            assert!(rt; frame < gate.frames() && seat.epoch().is_some() && seat.has_room());
            match gate.fill(seat, frame) {
                Ok(generation) => Is(generation),
                Err(NotHeld { word }) => HeldNot(word),
            }
        }
        Touch(frame) => {
            assert!(rt; frame < gate.frames() && seat.holds(frame).is_some());
            Is(gate.touch(seat, frame))
        }
        _ => Is(seat.entered()),
    }
}

fn track(gate: &FrameGate, pager: &mut PagerSeat) -> Told
    requires { pager.old.gate ≡ gate.now }
    ensures { pager.new.gate ≡ pager.old.gate }
{
    match gate.track(pager) {
        Ok(epoch) => Is(epoch),
        Err(TrackRefusal::Older { word }) => OlderInside(word),
        Err(TrackRefusal::EpochSpent { epoch }) => Spent(epoch),
    }
}

fn settle(gate: &FrameGate, pager: &mut PagerSeat) -> Told
    requires { pager.old.gate ≡ gate.now }
    ensures { pager.new.gate ≡ pager.old.gate }
{
    match gate.settle(pager) {
        Ok(()) => Done,
        Err(Older { word }) => OlderInside(word),
    }
}

fn at_frame(
    rt: &impl Abort,
    gate: &FrameGate,
    pager: &mut PagerSeat,
    frame: u32,
    call: Call,
) -> Told
    requires { pager.old.gate ≡ gate.now }
    ensures { pager.new.gate ≡ pager.old.gate }
{
    assert!(rt; frame < gate.frames());
    match call {
        Block(_) => {
            assert!(rt; pager.is_held(frame));
            gate.block(pager, frame);
            Done
        }
        Place(_) => {
            assert!(rt; pager.is_free(frame));
            match gate.place(pager, frame) {
                Ok(generation) => Is(generation),
                Err(GenerationSpent { word }) => Spent(word),
            }
        }
        Evict(_) => {
            assert!(rt; pager.is_blocked(frame));
            match gate.evict(pager, frame) {
                Ok(()) => Done,
                Err(EvictRefusal::NoTrack { epoch }) => NoTrack(epoch),
                Err(EvictRefusal::Older { word }) => OlderInside(word),
            }
        }
        _ => Is(pager.word(frame)),
    }
}

// Makes a call, and says what it tells.
fn make(
    rt: &impl Abort,
    gate: &FrameGate,
    pager: &mut PagerSeat,
    seat: &mut ProcSeat,
    call: Call,
) -> Told
    requires pager { pager.old.gate ≡ gate.now }
    requires seat { seat.old.gate ≡ gate.now }
    ensures pager { pager.new.gate ≡ pager.old.gate }
    ensures seat { seat.new.gate ≡ seat.old.gate }
{
    match call {
        Enter | Leave | Fill(_) | Touch(_) | Entered => processor(rt, gate, seat, call),
        Block(frame) | Place(frame) | Evict(frame) | Word(frame) => {
            at_frame(rt, gate, pager, frame, call)
        }
        Settle => settle(gate, pager),
        Track => track(gate, pager),
        Epoch => Is(pager.epoch()),
    }
}

// Each row of a table: the call, and what it tells.
fn play(rt: &impl Abort, gate: &FrameGate, pager: &mut PagerSeat, seat: &mut ProcSeat, rows: &[Row])
    requires pager { pager.old.gate ≡ gate.now }
    requires seat { seat.old.gate ≡ gate.now }
    ensures pager { pager.new.gate ≡ pager.old.gate }
    ensures seat { seat.new.gate ≡ seat.old.gate }
{
    for row in rows {
        let (call, expected) = *row;
        let told = make(rt, gate, pager, seat, call);
        assert_eq!(rt; told, expected, "{call:?}");
    }
}

#[test]
fn a_frame_is_freed_once_nobody_can_hold_it(rt: HostRuntime) -> Result<(), Fail> {
    let (gate, mut pager, mut procs) = FrameGate::new(rt.alloc(), 2, 1)?;
    let Some(mut seat) = procs.pop() else {
        panic!(rt; "there is one processor")
    };
    play(&rt, &gate, &mut pager, &mut seat, ONE_EVICTION);
    Ok(())
}

#[test]
fn who_entered_first_may_leave_last(rt: HostRuntime) -> Result<(), Fail> {
    let (gate, mut pager, mut procs) = FrameGate::new(rt.alloc(), 2, 2)?;
    let (Some(mut first), Some(mut second)) = (procs.pop(), procs.pop()) else {
        panic!(rt; "there are two processors")
    };
    play(&rt, &gate, &mut pager, &mut first, FIRST_ENTERS);
    play(&rt, &gate, &mut pager, &mut second, SECOND_ENTERS);
    play(&rt, &gate, &mut pager, &mut first, FIRST_LEAVES);
    play(&rt, &gate, &mut pager, &mut second, SECOND_STAYS);
    Ok(())
}

#[test]
fn each_round_is_entered_once(rt: HostRuntime) -> Result<(), Fail> {
    assert_eq!(rt; count_entries(&rt, rt.alloc(), 8, 4, 1000), Ok(4000));
    Ok(())
}

// How long these take, `bench/gate` shows.
#[test]
fn one_processor_makes_many_rounds(rt: HostRuntime) -> Result<(), Fail> {
    assert_eq!(rt;
        count_entries(&rt, rt.alloc(), 8, 1, 1_000_000),
        Ok(1_000_000)
    );
    Ok(())
}

#[test]
fn four_processors_make_many_rounds(rt: HostRuntime) -> Result<(), Fail> {
    assert_eq!(rt;
        count_entries(&rt, rt.alloc(), 8, 4, 1_000_000),
        Ok(4_000_000)
    );
    Ok(())
}
