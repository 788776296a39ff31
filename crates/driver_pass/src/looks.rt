//! What a look changes beside a pass.

ghost use Rattle.std.specs.Prelude.{◌≡◌};
ghost use Rattle.sgx_types.specs.Pages.{is_secs_page};
ghost use Rattle.driver_list.specs.inner.Places.{IsPlaced};
ghost use Rattle.driver_pass.specs.inner.Noted.{aside_looked, behind_looked, taken_by, taken_of};

use crate::stages::{Aside, Behind, Taken};
use driver_tables::driver::Driver;
use driver_tables::moves::{frame_in, is_own_page};
use sgx_rules::entries::Look;
use sgx_types::names::{Page, SECS_NUMBER};

/// A page with its frame.
fn taken_of(driver: &Driver, page: Page) -> Taken
    requires placed { IsPlaced driver.now.states.counts page }
    ensures { result ≡ taken_of driver.now page }
{
    let frame = frame_in(driver.states.state(page));
    Taken { page, frame }
}

/// The page that a look takes, with its frame.
pub(crate) fn taken_by(driver: &Driver, page: Page, look: Look) -> Option<Taken>
    requires placed { IsPlaced driver.now.states.counts page }
    ensures { result ≡ taken_by driver.now page look }
{
    match look {
        Look::Taken => Some(taken_of(driver, page)),
        Look::Held | Look::Young | Look::NoRoom => None,
    }
}

/// A SECS or version array page that was taken goes out next.
pub(crate) fn aside_looked(driver: &Driver, page: Page, look: Look) -> Aside
    requires placed { IsPlaced driver.now.states.counts page }
    ensures { result ≡ aside_looked driver.now page look }
{
    if is_own_page(page) {
        return Aside::None;
    }
    match taken_by(driver, page, look) {
        Some(one) => Aside::ToGo(one),
        None => Aside::None,
    }
}

/// What a look tells of the page that is due next.
pub(crate) fn behind_looked(page: Page, look: Look) -> Behind
    ensures { result ≡ behind_looked page look }
{
    match look {
        Look::NoRoom if is_secs(page) => Behind::NoRoom,
        _ => Behind::Nothing,
    }
}

fn is_secs(page: Page) -> bool
    ensures { result ≡ is_secs_page page }
{
    page.enclave != 0 && page.number == SECS_NUMBER
}
