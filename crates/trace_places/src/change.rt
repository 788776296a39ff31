//! What an entry changes of where pages are.

ghost use Rattle.std.specs.Prelude.{◌≡◌, ℕ};
ghost use Rattle.sgx_rules.specs.Frames.{vas_after};
ghost use Rattle.trace_places.specs.Places.{page_of_tenant, gone_page, page_named, other_than};
ghost use Rattle.trace_places.specs.Places.{frame_changed, change_by, done_change, put, va_change, load_puts, gone_by, va_number};

use sgx_rules::entries::{Action, Answer, Event};
use sgx_types::names::{Frame, Page};

/// The page that a frame has, or the page that it awaits.
#[derive(Clone, Copy, PartialEq, Eq)]
pub enum Tenant {
    Has(Page),
    Awaits(Page),
}

impl Tenant {
    pub(crate) fn page(&self) -> Page
        ensures { result ≡ page_of_tenant self.now }
    {
        match *self {
            Tenant::Has(page) => page,
            Tenant::Awaits(page) => page,
        }
    }
}

/// A page that went out, and the version under which it is sealed.
#[derive(Clone, Copy, PartialEq, Eq)]
pub struct Gone {
    pub page: Page,
    pub version: u64,
}

/// A frame has a tenant from now on, or nobody's page; in that case a page may have gone out.
#[derive(Clone, Copy, PartialEq, Eq)]
pub enum Change {
    Puts { frame: Frame, tenant: Tenant },
    Empties { frame: Frame, gone: Option<Gone> },
}

impl Change {
    pub(crate) fn frame(&self) -> Frame
        ensures { result.0 ≡ frame_changed self.now }
    {
        match *self {
            Change::Puts { frame, .. } => frame,
            Change::Empties { frame, .. } => frame,
        }
    }

    /// The page that is named.
    pub(crate) fn page(&self) -> Option<Page>
        ensures { result ≡ page_named self.now }
    {
        match *self {
            Change::Puts { tenant, .. } => Some(tenant.page()),
            Change::Empties { gone, .. } => gone_page(gone),
        }
    }
}

fn gone_page(gone: Option<Gone>) -> Option<Page>
    ensures { result ≡ gone_page gone }
{
    match gone {
        Some(gone) => Some(gone.page),
        None => None,
    }
}

/// A page, if it is another one than the former.
pub(crate) fn other_than(former: Option<Page>, page: Option<Page>) -> Option<Page>
    ensures { result ≡ other_than former page }
{
    let page = page?;
    match former {
        Some(former) if former == page => None,
        _ => Some(page),
    }
}

// The number of a SECS, as a page of its enclave.
const SECS: u32 = u32::MAX;

/// What an event changes, where the next version array page has this number.
pub(crate) fn change_by(event: &Event, next_va: Option<u32>) -> Option<Change>
    ensures { result ≡ change_by event.now next_va }
{
    match *event {
        Event::Did { action, answer } => done_change(&action, &answer, next_va),
        Event::Refused {
            action: Action::Eld { frame },
            ..
        } => Some(Change::Empties { frame, gone: None }),
        _ => None,
    }
}

fn done_change(action: &Action, answer: &Answer, next_va: Option<u32>) -> Option<Change>
    ensures { result ≡ done_change action.now answer.now next_va }
{
    match *action {
        Action::Epa { frame } => Some(va_change(frame, next_va)),
        Action::Create { enclave, frame, .. } => Some(put(frame, enclave, SECS)),
        Action::Add {
            enclave,
            number,
            frame,
            ..
        } => Some(put(frame, enclave, number)),
        Action::EldStart { frame, page, .. } => Some(Change::Puts {
            frame,
            tenant: Tenant::Awaits(page),
        }),
        Action::Eld { frame } => loaded(frame, answer),
        Action::Ewb { frame } => Some(Change::Empties {
            frame,
            gone: gone_by(answer),
        }),
        _ => None,
    }
}

fn put(frame: Frame, enclave: u16, number: u32) -> Change
    ensures { result ≡ put frame enclave number }
{
    Change::Puts {
        frame,
        tenant: Tenant::Has(Page { enclave, number }),
    }
}

fn va_change(frame: Frame, next_va: Option<u32>) -> Change
    ensures { result ≡ va_change frame next_va }
{
    match next_va {
        Some(number) => put(frame, 0, number),
        None => Change::Empties { frame, gone: None },
    }
}

fn loaded(frame: Frame, answer: &Answer) -> Option<Change>
    ensures { result ≡ load_puts frame answer.now }
{
    match *answer {
        Answer::Moved { page, .. } => Some(put(frame, page.enclave, page.number)),
        _ => None,
    }
}

fn gone_by(answer: &Answer) -> Option<Gone>
    ensures { result ≡ gone_by answer.now }
{
    match *answer {
        Answer::Moved { page, version, .. } => Some(Gone { page, version }),
        _ => None,
    }
}

/// The number of the version array page that is made next, None where a page's number has no more bits for it.
pub(crate) fn va_after(event: &Event, next_va: Option<u32>) -> Option<u32>
    ensures { (made : ℕ) → next_va ≡ va_number made → result ≡ va_number (vas_after event.now made) }
{
    match event {
        Event::Did {
            action: Action::Epa { .. },
            ..
        } => next_va?.checked_add(1),
        _ => next_va,
    }
}
