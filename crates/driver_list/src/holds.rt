//! Which pages are held, and by whom.

ghost use Rattle.std.specs.Prelude.{◌≡◌, ◌++◌, ◌+◌, ◌<◌, ◌≤◌, ◌^◌, length, sum, IfOk, IfSome};
ghost use Rattle.std.specs.Option.{option_to_list};
ghost use Rattle.driver_list.specs.inner.Places.{IsPlaced};
ghost use Rattle.driver_list.specs.inner.Holds.{holder_of, no_holds, own_of, holds_page, is_held, with_hold, with_one_less};

use crate::places::Places;
use sgx_types::names::{Actor, Cpu, Memory, Page};
use std::alloc::Global;
use std::marker::Model;

// How many actors hold pages: the processors and the builder.
const HOLDERS: usize = 17;

// How many pages an actor holds at most: three, and eight version array pages that it brought back.
pub(crate) const MOST: usize = 11;

/// The pages that each actor holds, at most eleven: the processors in order, and then the builder.
#[derive(Drop)]
pub(crate) struct Holds {
    places: Places,
    // By place, how many holds a page has, at most 187.
    held: Vec<u8>,
    // By actor, with room for eleven pages each.
    own: Vec<Vec<Page>>,
}

impl Model for Holds {
    ghost use Rattle.driver_list.specs.inner.Holds.{HoldTable};

    ghost Value = { HoldTable };

    ghost use Rattle.driver_list.specs.inner.KeptHolds.{holds_of, AreHoldsKept};

    ghost view = { holds_of };

    ghost invariant = { AreHoldsKept };
}

impl Holds {
    /// No holds, with room for each page of the job, by how many TCS and REG pages each enclave has, from enclave 1 on, and how many
    /// version array pages there are.
    pub(crate) fn new(alloc: Global, counts: &[u32], arrays: u32) -> Result<Holds, Memory>
        requires enclaves { length counts.now ≤ 8 }
        requires arrays { arrays ≤ 9 }
        requires pages { length counts.now + arrays + sum counts.now < 2 ^ 32 }
        ensures { IfOk result (λ holds. holds ≡ no_holds (record { own = counts.now; arrays = arrays })) }
    {
        let places = Places::new(alloc, counts, arrays)?;
        let total = places.total();
        let mut own = Vec::with_capacity(alloc, HOLDERS)?;
        for _ in 0..HOLDERS {
            own.push_reserved(Vec::with_capacity(alloc, MOST)?);
        }
        Ok(Holds {
            places,
            held: vec![in alloc; 0; total]?,
            own,
        })
    }

    /// Adds a hold of an actor that has fewer than eleven.
    pub(crate) fn hold(&mut self, who: Actor, page: Page)
        requires placed { IsPlaced self.old.counts page }
        requires holder { holder_of who < 17 }
        requires room { length (own_of self.old.own (holder_of who)) < 11 }
        ensures { self.new ≡ with_hold self.old (holder_of who) page }
    {
        let place = self.places.place(page);
        self.own[number_of(who)].push_reserved(page);
        self.held[place] += 1;
    }

    /// Ends an actor's last hold, and tells its page. None where the actor holds no page.
    pub(crate) fn pop(&mut self, who: Actor) -> Option<Page>
        requires { holder_of who < 17 }
        ensures new { self.new ≡ with_one_less self.old (holder_of who) }
        ensures splits { own_of self.old.own (holder_of who) ≡ own_of self.new.own (holder_of who) ++ option_to_list result }
        ensures placed { IfSome result (IsPlaced self.old.counts) }
        ensures holders { length self.old.own ≡ 17 }
        ensures few { length (own_of self.old.own (holder_of who)) ≤ 11 }
    {
        let page = self.own[number_of(who)].pop()?;
        let place = self.places.place(page);
        self.held[place] -= 1;
        Some(page)
    }

    /// Whether an actor holds a page.
    pub(crate) fn holds(&self, who: Actor, page: Page) -> bool
        requires { holder_of who < 17 }
        ensures { result ≡ holds_page (own_of self.now.own (holder_of who)) page }
    {
        self.own[number_of(who)].contains(&page)
    }

    /// Whether some actor holds a page.
    pub(crate) fn is_held(&self, page: Page) -> bool
        requires { IsPlaced self.now.counts page }
        ensures value { result ≡ is_held self.now.own page }
        ensures holders { length self.now.own ≡ 17 }
    {
        self.held[self.places.place(page)] > 0
    }
}

// An actor's number among those that hold pages.
fn number_of(who: Actor) -> usize
    ensures { result ≡ holder_of who }
{
    match who {
        Actor::Cpu(Cpu(number)) => usize::from(number),
        Actor::Builder => 16,
        Actor::Reclaimer => usize::MAX,
    }
}
