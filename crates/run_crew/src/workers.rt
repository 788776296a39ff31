//! What a worker does: turn after turn of its actor, with the work between a start and its end done outside the lock.

ghost use Rattle.std.specs.Prelude.{◌≡◌, IfSome};
ghost use Rattle.run_crew.specs.inner.Actors.{IsOf};

use crate::gate::Gate;
use crate::locked::{Locked, Run};
use crate::taking::take;
use crate::waiting::{Made, watch};
use backing_store::backing::Backing;
use driver_rules::waits::Why;
use epoch_words::words::{Pass, Words};
use run_rounds::run::Turn;
use seal_record::seal::{SealWork, seal};
use seal_record::unseal::{UnsealWork, unseal};
use sgx_types::names::{Actor, Cpu, Memory};
use std::alloc::Global;
use std::sync::{Mutex, Wait};

// What a worker does next. It is small, where a turn's answer has room for a page's work.
#[derive(Clone, Copy)]
enum Next {
    Goes,
    Waits(Why),
    Ends,
}

/// Takes the turns of an actor of the job until nothing is left to it, or the run was stopped, or it has to wait where some worker has no
/// thread. Who has a pass looks at the word of an enclave while a processor keeps a page of it back.
pub(crate) fn work<R: Wait, B: Backing, G: Gate, N: Run>(
    rt: &R,
    alloc: Global,
    shared: &Mutex<Locked<B, N>>,
    made: &Made,
    words: &Words,
    mut pass: Option<Pass>,
    gate: &G,
    who: Actor,
)
    requires who { IsOf N.job who }
    requires words { words.now ≡ N.words }
    requires pass { IfSome pass (λ pass. pass.words ≡ words.now) }
{
    let mut vain: u32 = 0;
    for _ in rt.forever() {
        match gated_turn(rt, alloc, shared, made, words, gate, who) {
            Next::Ends => {
                made.end();
                return;
            }
            Next::Waits(_) if made.is_given_up() => return,
            Next::Waits(why) => {
                vain = vain.saturating_add(1);
                wait(rt, made, words, &mut pass, vain, why);
            }
            Next::Goes => {
                vain = 0;
                made.note();
            }
        }
    }
}

// Waits for what a turn was answered to wait for.
fn wait<R: Wait>(rt: &R, made: &Made, words: &Words, pass: &mut Option<Pass>, vain: u32, why: Why)
    requires { IfSome pass.old (λ pass. pass.words ≡ words.now) }
    ensures { IfSome pass.new (λ pass. pass.words ≡ words.now) }
{
    match (pass, why) {
        (Some(pass), Why::Older { enclave, .. }) => watch(words, pass, enclave),
        _ => made.wait(rt, vain),
    }
}

// A turn between the two calls of the gate. The book is told of refused memory.
fn gated_turn<R: Wait, B: Backing, G: Gate, N: Run>(
    rt: &R,
    alloc: Global,
    shared: &Mutex<Locked<B, N>>,
    made: &Made,
    words: &Words,
    gate: &G,
    who: Actor,
) -> Next
    requires who { IsOf N.job who }
    requires words { words.now ≡ N.words }
{
    gate.before_turn(who);
    let next = whole_turn(rt, alloc, shared, made, words, who);
    gate.after_turn(who);
    match next {
        Ok(next) => next,
        Err(Memory) => {
            shared.lock(rt).stop_for_memory();
            Next::Ends
        }
    }
}

// A turn, and where it started a write-out or a load, its work and its end.
fn whole_turn<R: Wait, B: Backing, N: Run>(
    rt: &R,
    alloc: Global,
    shared: &Mutex<Locked<B, N>>,
    made: &Made,
    words: &Words,
    who: Actor,
) -> Result<Next, Memory>
    requires who { IsOf N.job who }
    requires words { words.now ≡ N.words }
{
    // The lock is free again behind this line.
    let turn = take(rt, shared, made).turn(alloc, words, who);
    match turn {
        Ok(Turn::Seal(work)) => Ok(sealed_turn(rt, shared, made, Box::into_inner(work))),
        Ok(Turn::Unseal(work)) => match who {
            Actor::Cpu(cpu) => Ok(opened_turn(rt, shared, made, cpu, Box::into_inner(work))),
            Actor::Builder | Actor::Reclaimer => unreachable!(),
        },
        Ok(turn) => Ok(after(turn)),
        Err(memory) => Err(memory),
    }
}

// The work of a started write-out, with the lock free, and its end.
fn sealed_turn<R: Wait, B: Backing, N: Run>(
    rt: &R,
    shared: &Mutex<Locked<B, N>>,
    made: &Made,
    work: SealWork,
) -> Next {
    let sealed = seal(work);
    after(take(rt, shared, made).commit_sealed(sealed))
}

// The work of a processor's started load, with the lock free, and its end.
fn opened_turn<R: Wait, B: Backing, N: Run>(
    rt: &R,
    shared: &Mutex<Locked<B, N>>,
    made: &Made,
    cpu: Cpu,
    work: UnsealWork,
) -> Next
    requires { IsOf N.job (Actor.Cpu cpu) }
{
    let opened = unseal(work);
    after(take(rt, shared, made).commit_opened(cpu, opened))
}

// What a worker does behind an answer.
#[inline(always)]
fn after(turn: Turn) -> Next {
    match turn {
        Turn::Finished | Turn::Stopped => Next::Ends,
        Turn::Again(why) => Next::Waits(why),
        Turn::Did { .. } | Turn::Seal(_) | Turn::Unseal(_) => Next::Goes,
    }
}
