//! Looks at pages.

ghost use Rattle.std.specs.Prelude.{◌≡◌, IfOk, OnErr, true, false};
ghost use Rattle.std.specs.Result.{IsOkAnd};
ghost use Rattle.io_edges.specs.inner.Faults.{HasCause};
ghost use Rattle.driver_list.specs.inner.Places.{IsPlaced};
ghost use Rattle.driver_list.specs.inner.Listing.{is_young};
ghost use Rattle.driver_list.specs.inner.Holds.{is_held};
ghost use Rattle.driver_rules.specs.Dues.{is_look};
ghost use Rattle.driver_reclaim.specs.inner.Asked.{IsNoRoom, places_with};
ghost use Rattle.driver_reclaim.specs.inner.Looked.{told_look};

use backing_store::backing::{Backing, StoreFault};
use driver_tables::driver::Driver;
use sgx_rules::entries::Look;
use sgx_types::names::{Memory, Page};
use std::alloc::Global;

/// What is seen of the page at the head of the list: whether it is held, or else young; and else whether the store makes room for its
/// record, so that putting it later asks for no memory.
pub fn seen<S: Backing>(
    alloc: Global,
    driver: &Driver,
    store: &mut S,
    page: Page,
) -> Result<Look, Memory>
    requires placed { IsPlaced driver.now.active.counts page }
    ensures look { IfOk result (λ look. is_look (is_held driver.now.active.own page) (is_young driver.now.active.pages page) look ≡ true) }
    ensures told { IfOk result (λ look. S.told store.new ≡ told_look page look (S.told store.old)) }
    ensures places { IfOk result (λ look. S.spare store.new ≡ places_with look (S.spare store.old)) }
    ensures plans { S.plans store.new ≡ S.plans store.old }
    ensures cause { HasCause (S.faults store.old) (S.faults store.new) (IsOkAnd result IsNoRoom) }
    ensures untold { OnErr result (store.new ≡ store.old) }
{
    if driver.active.is_held(page) {
        return Ok(Look::Held);
    }
    if driver.active.young(page) {
        return Ok(Look::Young);
    }
    room(alloc, store, page)
}

/// Whether the store makes room for a page's record.
pub fn room<S: Backing>(alloc: Global, store: &mut S, page: Page) -> Result<Look, Memory>
    ensures look { IfOk result (λ look. is_look false false look ≡ true) }
    ensures told { IfOk result (λ look. S.told store.new ≡ told_look page look (S.told store.old)) }
    ensures places { IfOk result (λ look. S.spare store.new ≡ places_with look (S.spare store.old)) }
    ensures plans { S.plans store.new ≡ S.plans store.old }
    ensures cause { HasCause (S.faults store.old) (S.faults store.new) (IsOkAnd result IsNoRoom) }
    ensures untold { OnErr result (store.new ≡ store.old) }
{
    match store.room(alloc, page) {
        Ok(()) => Ok(Look::Taken),
        Err(StoreFault::Failed) => Ok(Look::NoRoom),
        Err(StoreFault::Memory) => Err(Memory),
    }
}
