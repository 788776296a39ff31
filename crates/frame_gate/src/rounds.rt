//! Many rounds of each seat of a gate, beside one another.

ghost use Rattle.std.specs.Prelude.{◌≡◌, ℕ, ◌+◌, ◌*◌, ◌<◌, ◌≤◌, [], length, IfOk, OnOk, All};
ghost use Rattle.std.specs.Prelude.{slice_index_or};
ghost use Rattle.std.specs.Thread.{IsSync};
ghost use Rattle.frame_gate.specs.declared.limits.TheConstants.{MOST_FRAMES, MOST_PAIRS, MOST_ENTRIES};
ghost use Rattle.sgx_types.specs.declared.names.TheConstants.{PROCESSORS};
ghost use Rattle.frame_gate.specs.inner.Words.{IsFrame};
ghost use Rattle.frame_gate.specs.inner.Views.{visit};
ghost use Rattle.frame_gate.specs.inner.Known.{newcomer_of, IsOutside, IsProcInside};
ghost use Rattle.frame_gate.specs.inner.Rounds.{IsReady, HasEntered, HaveEntered, AreOutside};

use crate::gate::FrameGate;
use crate::limits::MOST_PAIRS;
use crate::seats::{PagerSeat, ProcSeat};
use sgx_types::names::{Memory, PROCESSORS};
use std::alloc::Global;
use std::sync::Wait;
use std::thread::{Threads, for_each_mut, join_mut};

/// Fills a frame, held or not. At most one more frame is held after it.
fn try_fill(gate: &FrameGate, seat: &mut ProcSeat, frame: u32)
    requires gate { seat.old.gate ≡ gate.now }
    requires frame { IsFrame gate.now frame }
    requires inside { IsProcInside seat.old }
    requires room { length seat.old.pairs < MOST_PAIRS }
    ensures gate { seat.new.gate ≡ seat.old.gate }
    ensures visit { seat.new.visit ≡ seat.old.visit }
    ensures more { length seat.new.pairs ≤ length seat.old.pairs + 1 }
{
    match gate.fill(seat, frame) {
        Ok(_) => {}
        Err(_) => {}
    }
}

/// Fills each of so many frames, and touches each that it found held.
fn use_frames(gate: &FrameGate, seat: &mut ProcSeat, frames: u32)
    requires gate { seat.old.gate ≡ gate.now }
    requires frames { (frames ≤ MOST_PAIRS) × (3 + frames ≤ gate.now.words) }
    requires inside { IsProcInside seat.old }
    requires nothing { seat.old.pairs ≡ [] }
    ensures gate { seat.new.gate ≡ seat.old.gate }
    ensures visit { seat.new.visit ≡ seat.old.visit }
{
    'fills: for frame in 0..frames {
        try_fill(gate, seat, frame);
    }
    'touches: for frame in 0..frames {
        if seat.holds(frame).is_some() {
            gate.touch(seat, frame);
        }
    }
}

/// A processor's round: it enters, uses so many frames and leaves.
fn proc_round(gate: &FrameGate, seat: &mut ProcSeat, frames: u32)
    requires gate { seat.old.gate ≡ gate.now }
    requires frames { (frames ≤ MOST_PAIRS) × (3 + frames ≤ gate.now.words) }
    requires outside { IsOutside seat.old }
    requires few { seat.old.visit.entries < MOST_ENTRIES }
    ensures { HasEntered 1 seat.old seat.new }
{
    match gate.enter(seat) {
        Ok(_) => {
            use_frames(gate, seat, frames);
            gate.leave(seat);
        }
        Err(_) => unreachable!(),
    }
}

fn proc_rounds(gate: &FrameGate, seat: &mut ProcSeat, frames: u32, rounds: u32)
    requires frames { (frames ≤ MOST_PAIRS) × (3 + frames ≤ gate.now.words) }
    requires ready { IsReady gate.now rounds seat.old }
    ensures { HasEntered rounds seat.old seat.new }
{
    for round in 0..rounds {
        proc_round(gate, seat, frames);
    }
}

/// Places a page in each free frame, until that is refused. Says whether it was not.
fn place_free(gate: &FrameGate, pager: &mut PagerSeat) -> bool
    requires { pager.old.gate ≡ gate.now }
    ensures { pager.new.gate ≡ pager.old.gate }
{
    for frame in 0..gate.frames() {
        if pager.is_free(frame) && gate.place(pager, frame).is_err() {
            return false;
        }
    }
    true
}

/// Blocks the first frame that is held.
fn block_first(gate: &FrameGate, pager: &mut PagerSeat)
    requires { pager.old.gate ≡ gate.now }
    ensures { pager.new.gate ≡ pager.old.gate }
{
    for frame in 0..gate.frames() {
        if pager.is_held(frame) {
            gate.block(pager, frame);
            return;
        }
    }
}

/// Evicts each blocked frame, until that is refused.
fn evict_blocked(gate: &FrameGate, pager: &mut PagerSeat)
    requires { pager.old.gate ≡ gate.now }
    ensures { pager.new.gate ≡ pager.old.gate }
{
    for frame in 0..gate.frames() {
        if pager.is_blocked(frame) && gate.evict(pager, frame).is_err() {
            return;
        }
    }
}

/// The pager's round: it places, blocks, tracks and evicts. A refusal ends the round.
fn pager_round(gate: &FrameGate, pager: &mut PagerSeat)
    requires { pager.old.gate ≡ gate.now }
    ensures { pager.new.gate ≡ pager.old.gate }
{
    if !place_free(gate, pager) {
        return;
    }
    block_first(gate, pager);
    if gate.track(pager).is_ok() {
        evict_blocked(gate, pager);
    }
}

fn pager_rounds(gate: &FrameGate, pager: &mut PagerSeat, rounds: u32)
    requires { pager.old.gate ≡ gate.now }
    ensures { pager.new.gate ≡ pager.old.gate }
{
    for round in 0..rounds {
        pager_round(gate, pager);
    }
}

/// The rounds of each processor, each in a thread of its own where one can be made.
fn all_rounds<R: Threads + Sync>(
    rt: &R,
    gate: &FrameGate,
    procs: &mut [ProcSeat],
    frames: u32,
    rounds: u32,
)
    requires frames { (frames ≤ MOST_PAIRS) × (3 + frames ≤ gate.now.words) }
    requires ready { All (IsReady gate.now rounds) procs.old }
    ensures { HaveEntered rounds procs.old procs.new }
{
    for_each_mut(
        rt,
        procs,
        PROCESSORS as usize,
        &|_, seat| proc_rounds(gate, seat, frames, rounds),
    );
}

/// Each processor and the pager make so many rounds, beside one another: each in a thread of its own, which ends before this
/// returns. Where no thread can be made, the caller makes the rounds. In a processor's round it enters, fills each of the
/// first 64 frames, touches each that it found held, and leaves. In a round of the pager it places a page in each free frame,
/// blocks a frame that is held, tracks and evicts each blocked frame; a refusal ends the round.
///
/// Nothing is said of how far the pager comes, and nothing of time.
pub fn run_gate<R: Threads + Wait + Sync>(
    rt: &R,
    gate: &FrameGate,
    pager: &mut PagerSeat,
    procs: &mut [ProcSeat],
    rounds: u32,
) -> Result<(), Memory>
    requires pager { pager.old.gate ≡ gate.now }
    requires procs { All (IsReady gate.now rounds) procs.old }
    ensures pager { pager.new.gate ≡ pager.old.gate }
    ensures entered { OnOk result (HaveEntered rounds procs.old procs.new) }
    ensures outside { AreOutside gate.now procs.old procs.new }
{
    let frames = gate.frames();
    let most = MOST_PAIRS as u32;
    let used = if frames < most { frames } else { most };
    join_mut(
        rt,
        &mut || pager_rounds(gate, pager, rounds),
        &mut ||
            requires { IsSync R.row × (used ≤ MOST_PAIRS) × (3 + used ≤ gate.now.words) × All (IsReady gate.now rounds) procs.now }
            ensures { HaveEntered rounds procs.entry.now procs.exit.now }
        { all_rounds(rt, gate, procs, used, rounds) },
    );
    Ok(())
}

/// How often all seats have entered together, each of them so often.
fn sum_entered(procs: &[ProcSeat], rounds: u32) -> u64
    requires few { length procs.now ≤ PROCESSORS }
    requires each { (k : ℕ) (d : _) → k < length procs.now → (slice_index_or procs.now k d).visit.entries ≡ rounds }
    ensures { result ≡ length procs.now * rounds }
{
    let mut sum = 0;
    for seat in procs {
        sum += seat.entered();
    }
    sum
}

/// Runs new seats, and answers how often all of them entered.
fn run_new<R: Threads + Wait + Sync>(
    rt: &R,
    gate: &FrameGate,
    pager: &mut PagerSeat,
    procs: &mut [ProcSeat],
    rounds: u32,
) -> Result<u64, Memory>
    requires pager { pager.old.gate ≡ gate.now }
    requires few { (length procs.old ≤ PROCESSORS) × (rounds ≤ MOST_ENTRIES) }
    requires fresh { All (λ p. p ≡ newcomer_of gate.now) procs.old }
    ensures { IfOk result (λ sum. sum ≡ length procs.old * rounds) }
{
    run_gate(rt, gate, pager, procs, rounds)?;
    Ok(sum_entered(procs, rounds))
}

/// Many rounds on a new gate with so many frames and processors. It answers how often all processors entered.
pub fn count_entries<R: Threads + Wait + Sync>(
    rt: &R,
    alloc: Global,
    frames: u32,
    processors: u32,
    rounds: u32,
) -> Result<u64, Memory>
    requires frames { (1 ≤ frames) × (frames ≤ MOST_FRAMES) }
    requires processors { (1 ≤ processors) × (processors ≤ PROCESSORS) }
    requires rounds { rounds ≤ MOST_ENTRIES }
    ensures { IfOk result (λ sum. sum ≡ processors * rounds) }
{
    let (gate, mut pager, mut procs) = FrameGate::new(alloc, frames, processors)?;
    run_new(rt, &gate, &mut pager, procs.as_mut_slice(), rounds)
}
