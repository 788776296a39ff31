//! When a plan is lawful.

ghost use Rattle.std.specs.Prelude.{◌≡◌, ◌↔◌, [], length, IsTrue, IfOk};
ghost use Rattle.std.specs.Bool.{MatchBool};
ghost use Rattle.least_reloads.specs.Plans.{loads_of, IsRun, IsLawful};
ghost use Rattle.least_reloads.specs.inner.Sets.{CanLeave, CanJoin, Leave, Join, Serves};

use crate::load_plan::{LoadPlan, Step};
use crate::page_set::PageSet;
use sgx_types::names::{Memory, Page};
use std::alloc::Global;

/// Whether the plan serves the accesses, in this order, in so many frames that hold no page at first, and says rightly how
/// many loads it makes. It has a step for each access. In each, pages that are held leave, each once, and then pages that are
/// not held are loaded, each once; afterwards at most `frames` pages are held, and the accessed page is one of them. A plan
/// may load before it must.
pub fn check(alloc: Global, accesses: &[Page], frames: u32, plan: &LoadPlan) -> Result<bool, Memory>
    ensures { IfOk result (λ lawful. IsTrue lawful ↔ IsLawful accesses.now frames plan.now) }
{
    if plan.steps.len() != accesses.len() {
        return Ok(false);
    }
    Ok(is_count(&plan.steps, plan.loads) && is_run(alloc, accesses, frames, &plan.steps)?)
}

// Whether the steps make so many loads.
fn is_count(steps: &[Step], loads: u64) -> bool
    ensures { IsTrue result ↔ (loads ≡ loads_of steps.now) }
{
    let mut left = loads;
    for step in steps {
        let count = step.load.len() as u64;
        if left < count {
            return false;
        }
        left -= count;
    }
    left == 0
}

// Whether the steps serve the accesses, where no page is held at first.
fn is_run(alloc: Global, accesses: &[Page], frames: u32, steps: &[Step]) -> Result<bool, Memory>
    requires { length steps.now ≡ length accesses.now }
    ensures { IfOk result (λ serves. IsTrue serves ↔ IsRun frames [] accesses.now steps.now) }
{
    let mut held = PageSet::new(alloc);
    for (i, step) in steps.iter().enumerate() {
        if !serves(&mut held, step, accesses[i], frames)? {
            return Ok(false);
        }
    }
    Ok(true)
}

// Does a step, and tells whether it could be done and serves the access. Where it could not, part of it may be done.
fn serves(held: &mut PageSet, step: &Step, page: Page, frames: u32) -> Result<bool, Memory>
    ensures { IfOk result (λ served. Serves frames held.old page step.now served held.new) }
{
    if !leave(held, &step.out) {
        return Ok(false);
    }
    if !join(held, &step.load)? {
        return Ok(false);
    }
    if held.len() > frames as usize {
        return Ok(false);
    }
    Ok(held.contains(page))
}

// Takes the pages out of the set. False where one of them is not there, or not any more.
fn leave(held: &mut PageSet, pages: &[Page]) -> bool
    ensures { MatchBool result (CanLeave held.old pages.now × Leave held.old pages.now held.new) (¬ (CanLeave held.old pages.now)) }
{
    for page in pages {
        if !held.remove(*page) {
            return false;
        }
    }
    true
}

// Puts the pages into the set. False where one of them is there already.
fn join(held: &mut PageSet, pages: &[Page]) -> Result<bool, Memory>
    ensures { IfOk result (λ joined. MatchBool joined (CanJoin held.old pages.now × Join held.old pages.now held.new)
        (¬ (CanJoin held.old pages.now))) }
{
    for page in pages {
        if !held.insert(*page)? {
            return Ok(false);
        }
    }
    Ok(true)
}
