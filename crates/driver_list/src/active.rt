//! The list of the pages that may be written out, with the holds that keep a page from being taken.

ghost use Rattle.std.specs.Prelude.{◌≡◌, ◌≢◌, ◌+◌, ◌<◌, ◌≤◌, ◌^◌, [], false, length, sum, IfOk};
ghost use Rattle.driver_list.specs.inner.Active.{IsActive, new_active, pushed, turned, with_touch, with_hold, without_holds};
ghost use Rattle.driver_list.specs.inner.Active.{RemovesActive, are_held};
ghost use Rattle.driver_list.specs.inner.Holds.{holder_of, most_of, own_of, joined, is_held};
ghost use Rattle.driver_list.specs.inner.Listing.{head_of, is_young};
ghost use Rattle.driver_list.specs.inner.Places.{IsPlaced};
ghost use Rattle.driver_list.specs.inner.Ring.{is_listed};
ghost use Rattle.driver_list.specs.inner.Fewer.{with_fewer};

use crate::holds::{Holds, MOST};
use crate::page_list::PageList;
use sgx_types::names::{Actor, Memory, Page};
use std::alloc::Global;
use std::marker::Model;

/// The list of the pages that may be written out, each with its young mark, and the holds of pages (this project's
/// own). The reclaimer looks at the list's head. Only `new` takes memory, and each other call looks at a bounded number
/// of pages, however many are listed.
///
/// A page of the job is one that `new` was told of: a TCS or REG page, the SECS of an enclave, or a version array page. A call that is
/// given a page needs one.
#[derive(Drop)]
pub struct Active {
    list: PageList,
    holds: Holds,
    // How many listed pages nobody holds.
    unheld: u32,
}

impl Model for Active {
    ghost use Rattle.driver_list.specs.inner.Active.{ActiveList};

    ghost Value = { ActiveList };

    ghost use Rattle.driver_list.specs.inner.KeptActive.{active_of, IsActiveKept};

    ghost view = { active_of };

    ghost invariant = { IsActiveKept };
}

impl Active {
    /// An empty list without holds, with room for each page of the job. `counts` tells how many TCS and REG pages each enclave has, from
    /// enclave 1 on, of at most 8 enclaves. `arrays` tells how many version array pages there are, at most 9. With the SECSs they are at
    /// most 2^32 - 1 pages in all. The error says that memory was refused.
    pub fn new(alloc: Global, counts: &[u32], arrays: u32) -> Result<Active, Memory>
        requires enclaves { length counts.now ≤ 8 }
        requires arrays { arrays ≤ 9 }
        requires pages { length counts.now + arrays + sum counts.now < 2 ^ 32 }
        ensures { IfOk result (λ active. active ≡ new_active (record { own = counts.now; arrays = arrays })) }
    {
        Ok(Active {
            list: PageList::new(alloc, counts, arrays)?,
            holds: Holds::new(alloc, counts, arrays)?,
            unheld: 0,
        })
    }

    /// Appends a page of the job that is not listed. It is not young.
    pub fn push_back(&mut self, page: Page)
        requires placed { IsPlaced self.old.counts page }
        requires absent { is_listed self.old.pages page ≡ false }
        ensures { self.new ≡ pushed self.old page }
    {
        self.list.push_back(page);
        self.unheld += u32::from(!self.holds.is_held(page));
    }

    /// The page at the head: of those that are listed, the one that was appended or moved to the tail first. None exactly
    /// where no page is listed.
    pub fn head(&self) -> Option<Page>
        ensures value { result ≡ head_of self.now.pages }
        ensures sound { IsActive self.now }
    {
        self.list.head()
    }

    /// Moves the head to the tail, where it is not young. There has to be a head.
    pub fn to_tail(&mut self)
        requires { self.old.pages ≢ [] }
        ensures { self.new ≡ turned self.old }
    {
        self.list.to_tail();
    }

    /// Takes the head off the list, and tells which page it was. There has to be a head. The page's holds stay.
    pub fn remove_head(&mut self) -> Page
        requires { self.old.pages ≢ [] }
        ensures { RemovesActive self.old result self.new }
    {
        let page = self.list.remove_head();
        self.unheld -= u32::from(!self.holds.is_held(page));
        page
    }

    /// Whether a page is listed and young: touched since it was appended or last moved to the tail.
    pub fn young(&self, page: Page) -> bool
        requires { IsPlaced self.now.counts page }
        ensures { result ≡ is_young self.now.pages page }
    {
        self.list.young(page)
    }

    /// Whether a page is listed.
    pub fn is_listed(&self, page: Page) -> bool
        requires { IsPlaced self.now.counts page }
        ensures { result ≡ is_listed self.now.pages page }
    {
        self.list.is_listed(page)
    }

    /// Marks a page as young where it is listed. Changes nothing where it is not.
    pub fn touch(&mut self, page: Page)
        requires { IsPlaced self.old.counts page }
        ensures { self.new ≡ with_touch self.old page }
    {
        self.list.touch(page);
    }

    /// How many pages are listed.
    pub fn len(&self) -> u32
        ensures { result ≡ length self.now.pages }
    {
        self.list.len()
    }

    /// Holds a page for an actor. Changes nothing where this actor holds the page already. A processor holds at most eleven pages: three,
    /// and eight version array pages that it brought back. The builder holds at most one, and the reclaimer none. The page need not be
    /// listed.
    pub fn hold(&mut self, who: Actor, page: Page)
        requires placed { IsPlaced self.old.counts page }
        requires holder { holder_of who < 17 }
        requires room { length (joined (own_of self.old.own (holder_of who)) page) ≤ most_of (holder_of who) }
        ensures { self.new ≡ with_hold self.old (holder_of who) page }
    {
        if self.holds.holds(who, page) {
            return;
        }
        let frees = !self.holds.is_held(page);
        let listed = self.list.is_listed(page);
        self.holds.hold(who, page);
        self.unheld -= u32::from(frees & listed);
    }

    /// Ends the holds of a processor or of the builder. Those of the others stay.
    pub fn drop_holds(&mut self, who: Actor)
        requires { holder_of who < 17 }
        ensures { self.new ≡ without_holds self.old (holder_of who) }
    {
        for _ in 0..MOST {
            self.drop_last(who);
        }
    }

    /// Whether some actor holds a page.
    pub fn is_held(&self, page: Page) -> bool
        requires { IsPlaced self.now.counts page }
        ensures { result ≡ is_held self.now.own page }
    {
        self.holds.is_held(page)
    }

    /// Whether each listed page is held. So it is where no page is listed.
    pub fn all_held(&self) -> bool
        ensures { result ≡ are_held self.now }
    {
        self.unheld == 0
    }

    // Ends an actor's last hold, if it has one.
    fn drop_last(&mut self, who: Actor)
        requires { holder_of who < 17 }
        ensures new { self.new ≡ with_fewer self.old (holder_of who) }
        ensures few { length (own_of self.old.own (holder_of who)) ≤ 11 }
        ensures holders { length self.old.own ≡ 17 }
    {
        if let Some(page) = self.holds.pop(who) {
            let freed = !self.holds.is_held(page);
            self.unheld += u32::from(freed & self.list.is_listed(page));
        }
    }
}
