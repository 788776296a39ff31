//! Brings the driver's tables to an instruction's entry.

ghost use Rattle.std.specs.Prelude.{◌≡◌, IfSome};
ghost use Rattle.driver_list.specs.inner.Places.{IsPlaced};
ghost use Rattle.due_notes.specs.inner.Noted.{AreNoted, CanNoteTables};
ghost use Rattle.due_notes.specs.inner.Noting.{Does, DoesEvent, Fits, FitsAnswer, FitsEvent, MakesArray, first_slot, offset_inside_of};
ghost use Rattle.due_notes.specs.inner.Noting.{touching};
ghost use Rattle.due_tables.specs.inner.Holding.{page_inside_of};

use cached_translations::processor::Mode;
use driver_tables::driver::Driver;
use due_tables::operations::page_of;
use due_tables::turns::Turns;
use sgx_rules::entries::{Action, Answer, Entry, Event};
use sgx_types::names::{Frame, Page, SECS_NUMBER};

/// Brings the driver's tables to the entry of an instruction that moves no page out or back, before the entry is noted in `turns`. `before`
/// is how the entry's processor stood before it. A version array page that was made is here and gives its slots: page 0 those from `first`
/// on, and any other page all. The SECS of an enclave that was created is here. A page that was added is here and listed as the last, and
/// the pages that a processor uses are young: that of a translation or of an access, and the TCS page and the state save page by which it
/// enters or resumes. A refused instruction changes nothing. Constant time.
#[inline(always)]
pub fn note_tables(turns: &Turns, driver: &mut Driver, first: u16, before: Mode, entry: &Entry)
    requires { CanNoteTables turns.now driver.old first before entry.now }
    ensures { (can : CanNoteTables turns.now driver.old first before entry.now)
        → AreNoted can.keeping can.j can.past driver.old entry.now driver.new }
{
    note_event(turns, driver, first, before, &entry.event);
}

// Brings the tables to an entry with this event. A refused instruction changes nothing.
fn note_event(turns: &Turns, driver: &mut Driver, first: u16, before: Mode, event: &Event)
    requires { FitsEvent turns.now first before event.now driver.old }
    ensures { DoesEvent turns.now first before event.now driver.old driver.new }
{
    if let Event::Did { action, answer } = event {
        note_done(turns, driver, first, before, action, answer);
    }
}

// An instruction was done.
fn note_done(
    turns: &Turns,
    driver: &mut Driver,
    first: u16,
    before: Mode,
    action: &Action,
    answer: &Answer,
)
    requires { Fits turns.now first before action.now answer.now driver.old }
    ensures { Does turns.now first before action.now answer.now driver.old driver.new }
{
    match *action {
        Action::Epa { frame } => note_array(driver, first, frame, answer),
        Action::Create { enclave, frame, .. } => {
            let secs = Page {
                enclave,
                number: SECS_NUMBER,
            };
            driver.arrive(secs, frame);
        }
        Action::Add {
            enclave,
            number,
            frame,
            ..
        } => driver.add(Page { enclave, number }, frame),
        Action::Fill { number, .. } => touch(driver, page_inside(before, number)),
        Action::Load { off } | Action::Store { off, .. } | Action::Xadd { off, .. } => {
            touch(driver, offset_inside(before, off));
        }
        Action::Enter { enclave, tcs, .. } => {
            let tcs = Page {
                enclave,
                number: tcs,
            };
            touch_both(driver, tcs, turns.next_save(tcs));
        }
        Action::Resume { enclave, tcs, .. } => {
            let tcs = Page {
                enclave,
                number: tcs,
            };
            touch_both(driver, tcs, turns.last_save(tcs));
        }
        _ => {}
    }
}

// A version array page was made, by the number that it was told by.
fn note_array(driver: &mut Driver, first: u16, frame: Frame, answer: &Answer)
    requires { FitsAnswer driver.old first answer.now }
    ensures { MakesArray first frame answer.now driver.old driver.new }
{
    if let Answer::Va(va) = *answer {
        driver.add_array(va, first_slot(first, va), frame);
    }
}

// The first slot of a version array page that the keeper has, where it has those of page 0 from this one on.
fn first_slot(first: u16, va: u32) -> u16
    ensures { result ≡ first_slot first va }
{
    if va == 0 { first } else { 0 }
}

// Marks a page as young, if there is one.
fn touch(driver: &mut Driver, page: Option<Page>)
    requires { IfSome page (IsPlaced driver.old.active.counts) }
    ensures { driver.new ≡ touching driver.old page }
{
    if let Some(page) = page {
        driver.active.touch(page);
    }
}

// Marks a TCS page and a state save page as young.
fn touch_both(driver: &mut Driver, tcs: Page, save: Option<Page>)
    requires tcs { IsPlaced driver.old.active.counts tcs }
    requires save { IfSome save (IsPlaced driver.old.active.counts) }
    ensures { driver.new ≡ touching (touching driver.old save) (Some tcs) }
{
    touch(driver, save);
    touch(driver, Some(tcs));
}

// The page of a number in the enclave that the processor is inside.
fn page_inside(before: Mode, number: u32) -> Option<Page>
    ensures { result ≡ page_inside_of before number }
{
    match before {
        Mode::Outside => None,
        Mode::Inside { enclave, .. } => Some(Page { enclave, number }),
    }
}

// The page of an offset in the enclave that the processor is inside.
fn offset_inside(before: Mode, off: u64) -> Option<Page>
    ensures { result ≡ offset_inside_of before off }
{
    match before {
        Mode::Outside => None,
        Mode::Inside { enclave, .. } => Some(page_of(enclave, off)),
    }
}
