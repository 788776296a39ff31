//! The work of a load that has started, again.

ghost use Rattle.std.specs.Prelude.{◌≡◌, ◌<◌, length, IfOk, IfSome};
ghost use Rattle.driver_list.specs.inner.Keeping.{kept_at, page_kept};
ghost use Rattle.driver_faults.specs.inner.Repeating.{IsAgain, WaitsFor};

use crate::rooms::room;
use driver_list::kept_records::copy_record;
use driver_list::page_states::PageState;
use driver_tables::driver::Driver;
use seal_record::unseal::UnsealWork;
use sgx_machine::machine::Machine;
use sgx_types::names::{Cpu, Memory};
use std::alloc::Global;

/// The work of a processor's started load, over a copy of the record that is kept for it. None exactly where none is kept, so where
/// the processor has no started load. Changes nothing.
pub fn again(
    alloc: Global,
    driver: &Driver,
    machine: &Machine,
    cpu: Cpu,
) -> Result<Option<Box<UnsealWork>>, Memory>
    requires room { cpu.0 < length driver.now.kept }
    requires waits { IfSome (page_kept (kept_at driver.now.kept cpu.0)) (WaitsFor driver.now machine.now) }
    ensures { IfOk result (IsAgain cpu driver.now machine.now) }
{
    let Some(page) = driver.kept.kept_page(cpu) else {
        return Ok(None);
    };
    let PageState::Loading(frame, _) = driver.states.state(page) else {
        unreachable!();
    };
    let mut work = room(alloc)?;
    copy_record(&mut work.rec, driver.kept.kept(cpu));
    machine.unseal_input(frame, &mut work);
    Ok(Some(work))
}
