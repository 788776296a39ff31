//! The end of a write-out.

ghost use Rattle.std.specs.Prelude.{◌≡◌, ◌∷◌, ◌≤◌, ◌+◌, List, length};
ghost use Rattle.sgx_machine.specs.inner.Parts.{state_of};
ghost use Rattle.sgx_rules.specs.declared.entries.Entry.{Entry};
ghost use Rattle.sgx_types.specs.Making.{Making};
ghost use Rattle.machine_laws.specs.inner.Shape.{FitsApart, ShapeWithRules};
ghost use Rattle.driver_pass.specs.inner.Noted.{instructed};
ghost use Rattle.driver_reclaim.specs.inner.Stored.{frame_sealing, IsOpen, IsStartedPass, IsStored, IsToSeal, KeepsArrays, StartsOut};
ghost use Rattle.driver_reclaim.specs.inner.Stored.{StoredSays};

use backing_store::backing::Backing;
use driver_pass::pass::Pass;
use driver_pass::stages::Taken;
use driver_tables::driver::Driver;
use seal_record::seal::{SealWork, SealedWork};
use sgx_machine::machine::Machine;
use sgx_rules::entries::Entry;
use sgx_types::names::{Actor, Frame};

/// The frame whose page has started to go out, None exactly where none has.
pub fn sealing(pass: &Pass) -> Option<Frame>
    ensures { result ≡ frame_sealing pass.now }
{
    let one = pass.sealing()?;
    Some(one.frame)
}

/// Fills in what is to be sealed of the page that has started to go out: its bytes and its header, under the machine's key and the
/// version that its start drew. It can be asked for again.
pub fn fill_in(pass: &Pass, machine: &Machine, work: &mut SealWork)
    requires { IsOpen pass.now (state_of machine.now) }
    ensures { IsToSeal pass.now (state_of machine.now) work.new.key work.new.version work.new.header work.new.plain.items }
{
    let Some(one) = pass.sealing() else {
        unreachable!();
    };
    machine.seal_input(one.frame, work);
}

/// Ends the write-out that the last step started: the page is out, its record is put, and the page is lost where the put fails. Behind
/// the last page the pass has ended. That this is right is a law, `ends_are_right`.
pub fn stored<S: Backing>(
    pass: &mut Pass,
    driver: &mut Driver,
    machine: &mut Machine,
    store: &mut S,
    work: SealedWork,
) -> Entry
    requires started { IsStartedPass pass.old (state_of machine.old) driver.old.states.counts }
    requires place { 1 ≤ S.spare store.old }
    ensures says { StoredSays pass.old (state_of machine.old) driver.old (S.told store.old) (S.faults store.old) result
        (state_of machine.new) driver.new (S.told store.new) (S.faults store.new) }
    ensures pass { pass.new ≡ instructed result.event pass.old }
    ensures used { S.spare store.new + 1 ≡ S.spare store.old }
    ensures plans { S.plans store.new ≡ S.plans store.old }
    ensures shape { (making : Making) (past : List Entry) → ShapeWithRules making (state_of machine.old) past
        → ShapeWithRules making (state_of machine.new) (result ∷ past) }
    ensures fits { (making : Making) (past : List Entry) → ShapeWithRules making (state_of machine.old) past
        → FitsApart making.frames past → FitsApart making.frames (result ∷ past) }
    ensures arrays { KeepsArrays (state_of machine.old) result (state_of machine.new) }
    ensures cpus { length machine.new.cpus ≡ length machine.old.cpus }
{
    let Some(one) = pass.sealing() else {
        unreachable!();
    };
    let entry = put_out(one, driver, machine, store, work);
    pass.instruct(entry.event);
    entry
}

// One page goes out of its frame and into the store.
fn put_out<S: Backing>(
    one: Taken,
    driver: &mut Driver,
    machine: &mut Machine,
    store: &mut S,
    work: SealedWork,
) -> Entry
    requires started { StartsOut one (state_of machine.old) driver.old.states.counts }
    requires place { 1 ≤ S.spare store.old }
    ensures stored { IsStored one (state_of machine.old) driver.old (S.told store.old) (S.faults store.old) result
        (state_of machine.new) driver.new (S.told store.new) (S.faults store.new) }
    ensures used { S.spare store.new + 1 ≡ S.spare store.old }
    ensures plans { S.plans store.new ≡ S.plans store.old }
    ensures shape { (making : Making) (past : List Entry) → ShapeWithRules making (state_of machine.old) past
        → ShapeWithRules making (state_of machine.new) (result ∷ past) }
    ensures fits { (making : Making) (past : List Entry) → ShapeWithRules making (state_of machine.old) past → FitsApart making.frames past
        → FitsApart making.frames (result ∷ past) }
    ensures arrays { KeepsArrays (state_of machine.old) result (state_of machine.new) }
    ensures cpus { length machine.new.cpus ≡ length machine.old.cpus }
{
    let Some(start) = machine.open_start(one.frame) else {
        unreachable!();
    };
    let (entry, rec) = machine.ewb_commit(Actor::Reclaimer, one.frame, work);
    let failed = store.put(one.page, &rec).is_err();
    driver.evict(one.page, start.slot, failed);
    entry
}
