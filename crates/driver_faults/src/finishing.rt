//! The second half of a fault step: the end of a load.

ghost use Rattle.std.specs.Prelude.{◌≡◌, true, length};
ghost use Rattle.driver_faults.specs.inner.Finishing.{CanFinish, Ends, IsFinished, IsToList, bus_why};
ghost use Rattle.sgx_machine.specs.inner.Parts.{state_of};

use crate::answers::Loaded;
use driver_list::kept_records::copy_record;
use driver_list::page_states::PageState;
use driver_tables::driver::Driver;
use driver_tables::moves::is_own_page;
use driver_tables::steps::is_refused;
use seal_record::unseal::{UnsealWork, UnsealedWork, unseal};
use sgx_machine::machine::Machine;
use sgx_rules::entries::{BusWhy, Entry, Event};
use sgx_rules::refusals::Refusal;
use sgx_types::names::{Actor, Cpu, Frame, Page, VaSlot};
use sgx_types::record::Record;

/// The end of a processor's load of a page, by the record that is kept for it: where the work opened another one, the kept record
/// is opened anew in the work's buffers. Takes no memory.
///
/// The page is here. A TCS or REG page is listed as the last and not young, and its slot is given back. A refused load
/// leaves the page away in its slot:
/// with `Mac` where the record was not sealed under the slot's version, and else with `Header` where it is another page's. That this
/// is right is a law, `ends_are_right`.
pub fn finish(
    driver: &mut Driver,
    machine: &mut Machine,
    cpu: Cpu,
    page: Page,
    work: UnsealedWork,
) -> Loaded
    requires { CanFinish cpu page driver.old machine.old }
    ensures does { (can : CanFinish cpu page driver.old machine.old) → IsFinished cpu page can.slot can.frame can.kept driver.old
        (state_of machine.old) result driver.new (state_of machine.new) }
    ensures cpus { length machine.new.cpus ≡ length machine.old.cpus }
{
    let PageState::Loading(frame, slot) = driver.states.state(page) else {
        unreachable!();
    };
    let work = opened(driver.kept.kept(cpu), work);
    let entry = machine.eld_commit(Actor::Cpu(cpu), frame, work);
    driver.kept.forget(cpu);
    end(driver, page, frame, slot, entry)
}

// The work, of this record.
fn opened(rec: &Record, work: UnsealedWork) -> UnsealedWork
    ensures { result.rec ≡ rec.now }
{
    if is_same(&work.rec, rec) {
        return work;
    }
    let UnsealedWork {
        key,
        version,
        rec: mut other,
        plain,
        ..
    } = work;
    copy_record(&mut other, rec);
    unseal(UnsealWork {
        key,
        version,
        rec: other,
        space: plain,
    })
}

// Whether two records are one.
fn is_same(one: &Record, other: &Record) -> bool
    ensures { result ≡ true → one.now ≡ other.now }
{
    one.header == other.header && one.tag == other.tag && one.cipher == other.cipher
}

// What the entry of a load's end makes of the tables.
fn end(driver: &mut Driver, page: Page, frame: Frame, slot: VaSlot, entry: Entry) -> Loaded
    requires { IsToList driver.old page frame slot }
    ensures { Ends driver.old page frame slot entry result driver.new }
{
    if is_refused(&entry) {
        driver.load_refused(page);
        let why = bus_why(&entry);
        return Loaded::Bus { entry, why };
    }
    if is_own_page(page) {
        driver.load(page, frame, slot);
    } else {
        driver.arrive(page, frame);
    }
    Loaded::Here(entry)
}

// Why a record is refused.
fn bus_why(entry: &Entry) -> BusWhy
    ensures { result ≡ bus_why entry.now.event }
{
    match entry.event {
        Event::Refused {
            why: Refusal::BadHeader { .. },
            ..
        } => BusWhy::Header,
        _ => BusWhy::Mac,
    }
}
