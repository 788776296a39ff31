//! Looks at the head of the list.

ghost use Rattle.std.specs.Prelude.{◌≡◌};
ghost use Rattle.driver_rules.specs.Dues.{is_look};
ghost use Rattle.driver_list.specs.inner.Listing.{head_of};
ghost use Rattle.audit_pass.specs.inner.Told.{look_is_right, looks_right};

use driver_tables::driver::Driver;
use sgx_rules::entries::{Event, Look};
use sgx_types::names::Page;

/// Whether a look is at the head of the list, and told what is so of it. Events of other kinds are right.
pub(crate) fn looks_right(driver: &Driver, event: Event) -> bool
    ensures { result ≡ looks_right driver.now event }
{
    match event {
        Event::Age { page, look } => look_is_right(driver, page, look),
        _ => true,
    }
}

fn look_is_right(driver: &Driver, page: Page, look: Look) -> bool
    ensures { result ≡ look_is_right driver.now (head_of driver.now.active.pages) page look }
{
    match driver.active.head() {
        Some(head) => {
            let held = driver.active.is_held(head);
            let young = driver.active.young(head);
            head == page && is_look(held, young, look)
        }
        None => false,
    }
}

// Whether a look tells what is so of a page: a held page as held, else a young one as young.
fn is_look(held: bool, young: bool, look: Look) -> bool
    ensures { result ≡ is_look held young look }
{
    match look {
        Look::Held => held,
        Look::Young => !held && young,
        Look::NoRoom | Look::Taken => !held && !young,
    }
}
