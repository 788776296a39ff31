//! The plan by which the page goes whose next access is farthest.

ghost use Rattle.std.specs.Prelude.{◌≡◌, ◌≤◌, List, ◌∷◌, length, IfOk, vec_len, slice_index};
ghost use Rattle.std.specs.Ordering.{nat_cmp};
ghost use Rattle.std.specs.BTreeMap.{get, btree_map_len};
ghost use Rattle.sgx_types.specs.declared.names.Page.{Page};
ghost use Rattle.least_reloads.specs.Plans.{IsLawful};
ghost use Rattle.least_reloads.specs.inner.Plans.{IsLeastPlan};
ghost use Rattle.least_reloads.specs.inner.Farthest.{AreUses, Holds, Keeps, Chosen};

use crate::load_plan::{LoadPlan, Step};
use sgx_types::names::{Memory, Page};
use std::alloc::Global;
use std::collections::{BTreeMap, HashMap};

/// The plan with the fewest loads that serves the accesses, in this order, in so many frames, of which there is at least one
/// and none holds a page at first. A page is loaded when it is accessed, and where there is no room for it the page goes
/// whose next access is farthest. The time for n accesses grows as n log n, however many frames there are.
pub fn plan(alloc: Global, accesses: &[Page], frames: u32) -> Result<LoadPlan, Memory>
    requires { 1 ≤ frames }
    ensures reached { IfOk result (λ plan. IsLawful accesses.now frames plan) }
    ensures least { IfOk result (λ plan. IsLeastPlan accesses.now frames plan) }
{
    let uses = next_uses(alloc, accesses)?;
    let mut held = BTreeMap::new(alloc);
    let mut steps = Vec::with_capacity(alloc, accesses.len())?;
    let mut loads = 0;
    for (i, page) in accesses.iter().enumerate() {
        let step = choose(alloc, &mut held, frames, i, *page)?;
        loads += step.load.len() as u64;
        held.insert(uses[i], *page)?;
        steps.push(step)?;
    }
    Ok(LoadPlan { steps, loads })
}

// The step for the access at place i. `held` has the held pages by the places of their next accesses. So the accessed
// page is held exactly where this place is a key, and the page that is accessed last stands at the last key. Neither of
// them is in `held` afterwards.
fn choose(
    alloc: Global,
    held: &mut BTreeMap<usize, Page>,
    frames: u32,
    i: usize,
    page: Page,
) -> Result<Step, Memory>
    requires { 1 ≤ frames }
    ensures { IfOk result (λ step. (coming pages : List Page) → Holds frames pages
        → Keeps i (page ∷ coming) pages (get nat_cmp held.old) (btree_map_len held.old)
        → Chosen frames i page coming pages step (get nat_cmp held.new) (btree_map_len held.new)) }
{
    if held.remove(&i).is_some() {
        return Ok(Step {
            out: Vec::new(alloc),
            load: Vec::new(alloc),
        });
    }
    let load = Vec::from_array(alloc, [page])?;
    if held.len() < frames as usize {
        return Ok(Step {
            out: Vec::new(alloc),
            load,
        });
    }
    let Some((_, old)) = held.pop_last() else {
        unreachable!()
    };
    Ok(Step {
        out: Vec::from_array(alloc, [old])?,
        load,
    })
}

// For each access the place of the next access to its page. Where none comes, that is a place past the end, each time
// another one, so that no two pages that are held are accessed next at one place.
fn next_uses(alloc: Global, accesses: &[Page]) -> Result<Vec<usize>, Memory>
    ensures len { IfOk result (λ uses. vec_len uses ≡ length accesses.now) }
    ensures uses { IfOk result (λ uses. AreUses accesses.now 0 (slice_index uses.items)) }
{
    let mut later = HashMap::new(alloc);
    let mut uses = vec![in alloc; 0; accesses.len()]?;
    for i in (0..accesses.len()).rev() {
        let next = later.insert(accesses[i], i)?;
        uses[i] = next.unwrap_or(accesses.len() + i);
    }
    Ok(uses)
}
