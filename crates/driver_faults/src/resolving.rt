//! The first half of a fault step: a page's record is asked for, and its load starts.

ghost use Rattle.std.specs.Prelude.{◌≡◌, ◌<◌, Some, None, length, IfOk, OnErr};
ghost use Rattle.driver_list.specs.inner.Places.{IsPlaced};
ghost use Rattle.driver_list.specs.inner.States.{state_of as page_state};
ghost use Rattle.std.specs.Result.{IsOkAnd};
ghost use Rattle.io_edges.specs.inner.Faults.{HasCause};
ghost use Rattle.driver_faults.specs.inner.Resolving.{CanAsk, CanResolve, TellsFault, FetchesPage, IsResolved, IsStarted, asked_in};
ghost use Rattle.sgx_machine.specs.inner.Parts.{state_of};
ghost use Rattle.sgx_rules.specs.Frames.{least_free};
ghost use Rattle.sgx_types.specs.Pages.{va_page};
ghost use Rattle.driver_tables.specs.inner.Targets.{slot_here_in};

use crate::answers::FaultAnswer;
use crate::rooms::room;
use backing_store::backing::{Backing, StoreFault};
use driver_list::page_states::PageState;
use driver_rules::waits::Why;
use driver_tables::driver::Driver;
use driver_tables::steps::{is_refused, step};
use seal_record::unseal::UnsealWork;
use sgx_machine::machine::Machine;
use sgx_rules::entries::{Action, BusWhy};
use sgx_types::names::{Actor, Cpu, Frame, Memory, Page, SlotAt, VaSlot};
use sgx_types::record::Record;
use std::alloc::Global;

/// The fault step of a processor for a page. Memory is taken before the store is asked for the page's record, and that once at most: a
/// refusal leaves tables, machine and store as they were. The record that the store gave is copied into the room of that
/// processor, where it stays until the load's end.
///
/// For a TCS or REG page that is away its SECS is asked for where that is not here, and else the version array page of its slot where that
/// is not here; `asked` tells the page. All that follows is of this page.
///
/// Here where the page is in a frame and not on its way out. Again `Busy` where it is on its way out, or is being loaded; again
/// `NoFrame` where no frame is free. `Bus` with `PutFailed` where the page's last put failed, with `GetFailed` where its get
/// fails, with `NoRecord` where the store has none. `Slot` where its slot has no version. That this is what is due is
/// a law, `answers_are_right`.
pub fn resolve<B: Backing>(
    alloc: Global,
    driver: &mut Driver,
    machine: &mut Machine,
    store: &mut B,
    cpu: Cpu,
    page: Page,
) -> Result<FaultAnswer, Memory>
    requires room { cpu.0 < length driver.old.kept }
    requires can { CanResolve driver.old page }
    ensures does { IfOk result (λ answer. IsResolved cpu (asked_in driver.old page)
        (page_state driver.old.states (asked_in driver.old page)) driver.old machine.old (B.told store.old)
        answer driver.new machine.new (B.told store.new)) }
    ensures cpus { length machine.new.cpus ≡ length machine.old.cpus }
    ensures spare { B.spare store.new ≡ B.spare store.old }
    ensures plans { B.plans store.new ≡ B.plans store.old }
    ensures cause { HasCause (B.faults store.old) (B.faults store.new) (IsOkAnd result TellsFault) }
    ensures driver { OnErr result (driver.new ≡ driver.old) }
    ensures machine { OnErr result (machine.new ≡ machine.old) }
    ensures store { OnErr result (store.new ≡ store.old) }
{
    let asked = asked(driver, page);
    match driver.states.state(asked) {
        PageState::Here(_) => Ok(FaultAnswer::Here),
        PageState::Lost(_) => Ok(FaultAnswer::Bus(BusWhy::PutFailed)),
        PageState::Away(slot) => fetch(alloc, driver, machine, store, cpu, asked, slot),
        PageState::Absent | PageState::Leaving(_) | PageState::Loading(_, _) => {
            Ok(FaultAnswer::Again(Why::Busy(asked)))
        }
    }
}

/// The page that a fault step asks for: for a page that is away the one that has to be back first, and else the page itself.
pub fn asked(driver: &Driver, page: Page) -> Page
    requires { CanAsk driver.now page }
    ensures { result ≡ asked_in driver.now page }
{
    match driver.states.state(page) {
        PageState::Away(slot) => driver.target(page, slot),
        _ => page,
    }
}

// Asks for the record of a page that is away, and starts its load into the least free frame.
fn fetch<B: Backing>(
    alloc: Global,
    driver: &mut Driver,
    machine: &mut Machine,
    store: &mut B,
    cpu: Cpu,
    page: Page,
    slot: VaSlot,
) -> Result<FaultAnswer, Memory>
    requires room { cpu.0 < length driver.old.kept }
    requires placed { IsPlaced driver.old.states.counts page }
    requires array { IsPlaced driver.old.states.counts (va_page slot.va) }
    requires found { slot_here_in driver.old slot ≡ None → ⊥ }
    ensures does { IfOk result (λ answer. FetchesPage cpu page slot (slot_here_in driver.old slot)
        (least_free (state_of machine.old).frames (state_of machine.old).content) driver.old machine.old (B.told store.old)
        answer driver.new machine.new (B.told store.new)) }
    ensures cpus { length machine.new.cpus ≡ length machine.old.cpus }
    ensures spare { B.spare store.new ≡ B.spare store.old }
    ensures plans { B.plans store.new ≡ B.plans store.old }
    ensures cause { HasCause (B.faults store.old) (B.faults store.new) (IsOkAnd result TellsFault) }
    ensures driver { OnErr result (driver.new ≡ driver.old) }
    ensures machine { OnErr result (machine.new ≡ machine.old) }
    ensures store { OnErr result (store.new ≡ store.old) }
{
    let Some(at) = driver.slot_here(slot) else {
        unreachable!();
    };
    let Some(frame) = machine.first_free() else {
        return Ok(FaultAnswer::Again(Why::NoFrame));
    };
    let room = room(alloc)?;
    match store.get(alloc, page) {
        Ok(Some(rec)) => Ok(start(
            alloc, driver, machine, cpu, page, slot, at, frame, rec, room,
        )),
        Ok(None) => Ok(FaultAnswer::Bus(BusWhy::NoRecord)),
        Err(StoreFault::Failed) => Ok(FaultAnswer::Bus(BusWhy::GetFailed)),
        Err(StoreFault::Memory) => Err(Memory),
    }
}

// Starts a page's load in this room for its work, and keeps the record that is to be opened.
fn start(
    alloc: Global,
    driver: &mut Driver,
    machine: &mut Machine,
    cpu: Cpu,
    page: Page,
    slot: VaSlot,
    at: SlotAt,
    frame: Frame,
    rec: Record,
    mut work: Box<UnsealWork>,
) -> FaultAnswer
    requires room { cpu.0 < length driver.old.kept }
    requires placed { IsPlaced driver.old.states.counts page }
    ensures does { IsStarted cpu page slot at frame rec driver.old machine.old result driver.new machine.new }
    ensures cpus { length machine.new.cpus ≡ length machine.old.cpus }
{
    let action = Action::EldStart {
        frame,
        page,
        slot: at,
    };
    let entry = step(alloc, machine, Actor::Cpu(cpu), action);
    if is_refused(&entry) {
        return FaultAnswer::Slot { entry };
    }
    work.rec = rec;
    driver.start_load(cpu, page, slot, frame, &work.rec);
    machine.unseal_input(frame, &mut work);
    FaultAnswer::Started { entry, work }
}
