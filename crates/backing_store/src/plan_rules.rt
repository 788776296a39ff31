//! What the plan lines say of a call.

ghost use Rattle.std.specs.Prelude.{◌≡◌};
ghost use Rattle.std.specs.List.{list_any};
ghost use Rattle.backing_store.specs.inner.Store.{fails_room, fails_put, fails_get, drops, flips, replays, first_of, partner_of};

use io_edges::plans::PlanLine;
use sgx_types::names::Page;

/// Whether a line lets the room of this number fail, counted from 1 among all rooms.
pub fn room_fails(plans: &[PlanLine], number: u64) -> bool
    ensures { result ≡ list_any (fails_room number) plans.now }
{
    plans.iter().any(|line| matches!(line, PlanLine::FailRoom { k } if *k == number))
}

/// Whether a line lets the put of this number fail, counted from 1 among all puts.
pub fn put_fails(plans: &[PlanLine], number: u64) -> bool
    ensures { result ≡ list_any (fails_put number) plans.now }
{
    plans.iter().any(|line| matches!(line, PlanLine::FailPut { k } if *k == number))
}

/// Whether a line lets the get of this number fail, counted from 1 among all gets.
pub fn get_fails(plans: &[PlanLine], number: u64) -> bool
    ensures { result ≡ list_any (fails_get number) plans.now }
{
    plans.iter().any(|line| matches!(line, PlanLine::FailGet { k } if *k == number))
}

/// Whether a line lets the get of a page find nothing. The number counts the gets of this page from 1.
pub fn is_dropped(plans: &[PlanLine], page: Page, number: u64) -> bool
    ensures { result ≡ list_any (drops page number) plans.now }
{
    plans.iter().any(
        |line| matches!(line, PlanLine::DropGet { page: g, g: k } if *g == page && *k == number),
    )
}

/// The bit that is inverted in what that get gives.
pub fn bit_flipped(plans: &[PlanLine], page: Page, number: u64) -> Option<u32>
    ensures { result ≡ first_of (flips page number) plans.now }
{
    for line in plans {
        if let PlanLine::Flip { page: g, g: k, bit } = *line
            && g == page
            && k == number
        {
            return Some(bit);
        }
    }
    None
}

/// Which record of the page a line replays to that get, counted from 1.
pub fn replayed(plans: &[PlanLine], page: Page, number: u64) -> Option<u64>
    ensures { result ≡ first_of (replays page number) plans.now }
{
    for line in plans {
        if let PlanLine::Replay { page: g, g: k, w } = *line
            && g == page
            && k == number
        {
            return Some(w);
        }
    }
    None
}

/// The page whose newest record is given for a page: the one that it is swapped with, or itself.
pub fn partner(plans: &[PlanLine], page: Page) -> Page
    ensures { result ≡ partner_of plans.now page }
{
    for line in plans {
        if let PlanLine::Swap { one, other } = *line {
            if one == page {
                return other;
            }
            if other == page {
                return one;
            }
        }
    }
    page
}
