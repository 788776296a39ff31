//! Starts of write-outs.

ghost use Rattle.std.specs.Prelude.{◌≡◌, IfSome, IfNone, length};
ghost use Rattle.sgx_types.specs.Pages.{is_va_page};
ghost use Rattle.driver_list.specs.inner.Places.{IsPlaced};
ghost use Rattle.driver_slots.specs.inner.Keeper.{AllOut};
ghost use Rattle.sgx_machine.specs.inner.Parts.{state_of};
ghost use Rattle.driver_tables.specs.inner.Targets.{fixed_in, slot_here_in};
ghost use Rattle.driver_tables.specs.inner.Carried.{Carries};
ghost use Rattle.driver_reclaim.specs.inner.Ready.{HasFreeSlots};
ghost use Rattle.driver_reclaim.specs.inner.Tried.{IsTriedStart, IsTried, keeps_slot, StartsAside};

use driver_pass::stages::Taken;
use driver_tables::driver::Driver;
use driver_tables::steps::step;
use sgx_machine::machine::Machine;
use sgx_rules::entries::{Action, Entry, Event};
use sgx_rules::refusals::Refusal;
use sgx_types::names::{Actor, Frame};
use std::alloc::Global;

/// Starts to write out the TCS or REG page in a frame, into the least slot that is not out. Where that is refused the slot is given back,
/// unless it held a version already: then it stays out. None where every slot is out.
pub(crate) fn try_out(
    alloc: Global,
    driver: &mut Driver,
    machine: &mut Machine,
    frame: Frame,
) -> Option<Entry>
    requires slots { HasFreeSlots driver.old }
    ensures tried { IfSome result (λ e. IsTried (state_of machine.old) driver.old frame e driver.new (state_of machine.new)) }
    ensures goes { IfSome result (λ e. Carries (state_of machine.old) e (state_of machine.new)) }
    ensures none { IfNone result (AllOut driver.old.slots) }
    ensures driver { IfNone result (driver.new ≡ driver.old) }
    ensures machine { IfNone result (machine.new ≡ machine.old) }
    ensures cpus { length machine.new.cpus ≡ length machine.old.cpus }
{
    let slot = driver.slots.take()?;
    let Some(at) = driver.slot_here(slot) else {
        unreachable!();
    };
    let entry = step(
        alloc,
        machine,
        Actor::Reclaimer,
        Action::EwbStart { frame, slot: at },
    );
    if !keeps_slot(&entry) {
        driver.slots.give(slot);
    }
    Some(entry)
}

// Whether the slot of a try is out behind it.
fn keeps_slot(entry: &Entry) -> bool
    ensures { result ≡ keeps_slot entry.now.event }
{
    match entry.event {
        Event::Refused { why, .. } => matches!(why, Refusal::SlotOccupied { .. }),
        _ => true,
    }
}

/// Starts to write out a SECS or a version array page, into its own slot.
pub(crate) fn start_aside(
    alloc: Global,
    driver: &Driver,
    machine: &mut Machine,
    one: Taken,
) -> Entry
    requires can { StartsAside driver.now one }
    ensures started { IsTriedStart (state_of machine.old) driver.now one result (state_of machine.new) }
    ensures goes { Carries (state_of machine.old) result (state_of machine.new) }
    ensures cpus { length machine.new.cpus ≡ length machine.old.cpus }
{
    let Some(at) = driver.slot_here(driver.fixed(one.page)) else {
        unreachable!();
    };
    step(
        alloc,
        machine,
        Actor::Reclaimer,
        Action::EwbStart {
            frame: one.frame,
            slot: at,
        },
    )
}
