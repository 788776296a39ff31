//! Which SECS or version array page is due to be written out.

ghost use Rattle.std.specs.Prelude.{◌≡◌, ◌<◌, ◌≤◌};
ghost use Rattle.sgx_types.specs.Pages.{secs_page};
ghost use Rattle.driver_list.specs.inner.Places.{IsPlaced};
ghost use Rattle.sgx_machine.specs.inner.Parts.{state_of};
ghost use Rattle.driver_pass.specs.inner.Dues.{CanBeDue, due_in, is_alone_in, is_spare_in, spare_in};
ghost use Rattle.driver_pass.specs.declared.stages.Behind.TheVariants as last;

use crate::stages::Behind;
use driver_list::page_states::PageState;
use driver_tables::driver::Driver;
use driver_tables::moves::is_own_page;
use sgx_machine::machine::Machine;
use sgx_types::names::{Page, SECS_NUMBER};

/// The page that is due besides what a pass gives. Behind a page that has gone out it is the SECS of its enclave, where that is initialised
/// and no page of it is left in a frame; and else, or behind a SECS for which the store had no room, a version array page of whose slots
/// none can be taken and none is busy, and that no processor holds: the one with the least number. Page 0 stays.
pub fn due(driver: &Driver, machine: &Machine, behind: Behind) -> Option<Page>
    requires can { CanBeDue driver.now (state_of machine.now) behind }
    ensures { result ≡ due_in driver.now (state_of machine.now) behind }
{
    match behind {
        Behind::Out(page) => {
            if is_own_page(page) && is_alone(driver, machine, page.enclave) {
                return Some(secs(page.enclave));
            }
            spare(driver, machine)
        }
        Behind::NoRoom => spare(driver, machine),
        Behind::Nothing => None,
    }
}

fn secs(enclave: u16) -> Page
    ensures { result ≡ secs_page enclave }
{
    Page {
        enclave,
        number: SECS_NUMBER,
    }
}

// Whether an enclave is initialised, with its SECS here and no page left.
fn is_alone(driver: &Driver, machine: &Machine, enclave: u16) -> bool
    requires placed { IsPlaced driver.now.states.counts (secs_page enclave) }
    requires first { 1 ≤ enclave }
    requires last { enclave ≤ 8 }
    ensures { result ≡ is_alone_in driver.now (state_of machine.now) enclave }
{
    machine.is_init(enclave) && driver.is_here(secs(enclave)) && machine.children(enclave) == 0
}

// The version array page that may go out.
fn spare(driver: &Driver, machine: &Machine) -> Option<Page>
    requires can { CanBeDue driver.now (state_of machine.now) last.Nothing }
    ensures { result ≡ spare_in driver.now (state_of machine.now) }
{
    for va in 1..driver.va_pages {
        if is_spare(driver, machine, va) {
            return Some(Page {
                enclave: 0,
                number: va,
            });
        }
    }
    None
}

fn is_spare(driver: &Driver, machine: &Machine, va: u32) -> bool
    requires can { CanBeDue driver.now (state_of machine.now) last.Nothing }
    requires made { va < driver.now.va_pages }
    ensures { result ≡ is_spare_in driver.now (state_of machine.now) va }
{
    let array = Page {
        enclave: 0,
        number: va,
    };
    let PageState::Here(frame) = driver.states.state(array) else {
        return false;
    };
    driver.slots.is_full(va) && !machine.any_busy(frame) && !driver.active.is_held(array)
}
