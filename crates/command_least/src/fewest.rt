//! The fewest loads for a list of accesses.

ghost use Rattle.std.specs.Prelude.{◌≤◌, [], ◌∷◌, ◌++◌, List, IfOk, map};
ghost use Rattle.std.specs.HashMap.{get, hash_map_len};
ghost use Rattle.command_least.specs.Fewest.{IsFewest};
ghost use Rattle.command_least.specs.inner.Kept.{page_of, same_access};
ghost use Rattle.command_least.specs.inner.Naming.{AreNamed, AreOtherNames, access_of, name};
ghost use Rattle.sgx_types.specs.declared.names.Page.{Page};

use crate::accesses::Access;
use least_reloads::farthest::plan;
use sgx_types::names::{Memory, Page};
use std::alloc::Global;
use std::collections::HashMap;

/// The fewest loads by which these accesses can be served, in this order, in so many frames, of which there is at least one and
/// none holds a page at first.
pub fn fewest_loads(alloc: Global, accesses: &[Access], frames: u32) -> Result<u64, Memory>
    requires { 1 ≤ frames }
    ensures { IfOk result (λ loads. IsFewest (map page_of accesses.now) frames loads) }
{
    let pages = named(alloc, accesses)?;
    let plan = plan(alloc, &pages, frames)?;
    Ok(plan.loads)
}

// The accesses by other pages: the first that is accessed is page 0, the next other one page 1, and so on. How many loads a plan
// makes does not change by that, and a page's number of 4 bytes need not hold that of an access. More pages than have such numbers
// are in no trace that memory can hold.
fn named(alloc: Global, accesses: &[Access]) -> Result<Vec<Page>, Memory>
    ensures { IfOk result (λ pages. AreOtherNames (map page_of accesses.now) pages.items) }
{
    let mut names = HashMap::new(alloc);
    let mut pages = Vec::new(alloc);
    for access in accesses {
        let number = name_of(&mut names, *access)?;
        pages.push(Page { enclave: 0, number })?;
    }
    Ok(pages)
}

// The name of an access's page, a new one where it has none yet.
fn name_of(names: &mut HashMap<Access, u32>, access: Access) -> Result<u32, Memory>
    ensures { IfOk result (λ number. (accesses pages : List Page)
        → AreNamed accesses pages (λ g. get same_access names.old (access_of g)) (hash_map_len names.old)
        → AreNamed (accesses ++ page_of access ∷ []) (pages ++ name number ∷ []) (λ g. get same_access names.new (access_of g))
        (hash_map_len names.new)) }
{
    if let Some(name) = names.get(&access).copied() {
        return Ok(name);
    }
    let Ok(name) = u32::try_from(names.len()) else {
        return Err(Memory);
    };
    names.insert(access, name)?;
    Ok(name)
}
