//! What a table's row asks of the list, and how a table is played on it.

ghost use Rattle.std.specs.Prelude.{◌≡◌, ◌+◌, ◌∷◌, ◌<◌, ◌^◌, [], IsTrue};
ghost use Rattle.driver_list.specs.inner.Places.{IsPlaced};

use driver_list::active::Active;
use sgx_types::names::{Memory, Page};
use std::alloc::Global;
use std::marker::Model;
use std::process::Abort;

// What a test asks of a list.
#[derive(Clone, Copy)]
pub enum Ask {
    PushBack(Page),
    Head,
    ToTail,
    RemoveHead,
    Young(Page),
    IsListed(Page),
    Touch(Page),
    Len,
    IsHeld(Page),
    AllHeld,
}

// What it tells.
#[derive(Clone, Copy, Debug, PartialEq, Eq)]
pub enum Told {
    Done,
    Nothing,
    Is(Page),
    Yes,
    No,
    Count(u32),
}

// A list over two enclaves whose numbers of pages are known. Contracts see no more of it.
#[derive(Drop)]
pub struct World {
    // In a box, so that dropping it is one call.
    active: Box<Active>,
    first: u32,
    second: u32,
}

impl Model for World {
    ghost use Rattle.std.specs.Prelude.{◌≡◌, ◌∷◌, [], ℕ};

    ghost Value = { ℕ };

    ghost view = { λ w. w.first };

    ghost invariant = { λ w. w.active.value.counts ≡ record { own = w.first ∷ w.second ∷ []; arrays = 1 } };
}

impl World {
    pub fn new(alloc: Global, first: u32, second: u32) -> Result<World, Memory>
        requires { first + second + 3 < 2 ^ 32 }
    {
        let active = Active::new(alloc, &[first, second], 1)?;
        let active = Box::new(alloc, active)?;
        Ok(World {
            active,
            first,
            second,
        })
    }

    // Plays rows, each of which has to tell what is wanted.
    pub fn play(&mut self, rt: &impl Abort, rows: &[(Ask, Told)]) {
        for (at, (ask, want)) in rows.iter().enumerate() {
            let told = self.told(rt, *ask);
            assert_eq!(rt; told, *want, "row {at}");
        }
    }

    pub fn told(&mut self, rt: &impl Abort, ask: Ask) -> Told {
        match ask {
            Ask::PushBack(page) => self.push_back(rt, page),
            Ask::Head => page_told(self.active.head()),
            Ask::ToTail => self.to_tail(rt),
            Ask::RemoveHead => self.remove_head(rt),
            Ask::Young(page) => self.young(rt, page),
            Ask::IsListed(page) => self.is_listed(rt, page),
            Ask::Touch(page) => self.touch(rt, page),
            Ask::Len => Told::Count(self.active.len()),
            Ask::IsHeld(page) => self.is_held(rt, page),
            Ask::AllHeld => truth_told(self.active.all_held()),
        }
    }

    fn push_back(&mut self, rt: &impl Abort, page: Page) -> Told {
        assert!(rt; is_page(self.first, self.second, page));
        assert!(rt; !self.active.is_listed(page));
        self.active.push_back(page);
        Told::Done
    }

    fn to_tail(&mut self, rt: &impl Abort) -> Told {
        assert!(rt; self.active.len() > 0);
        self.active.to_tail();
        Told::Done
    }

    fn remove_head(&mut self, rt: &impl Abort) -> Told {
        assert!(rt; self.active.len() > 0);
        Told::Is(self.active.remove_head())
    }

    fn young(&self, rt: &impl Abort, page: Page) -> Told {
        assert!(rt; is_page(self.first, self.second, page));
        truth_told(self.active.young(page))
    }

    fn is_listed(&self, rt: &impl Abort, page: Page) -> Told {
        assert!(rt; is_page(self.first, self.second, page));
        truth_told(self.active.is_listed(page))
    }

    fn touch(&mut self, rt: &impl Abort, page: Page) -> Told {
        assert!(rt; is_page(self.first, self.second, page));
        self.active.touch(page);
        Told::Done
    }

    fn is_held(&self, rt: &impl Abort, page: Page) -> Told {
        assert!(rt; is_page(self.first, self.second, page));
        truth_told(self.active.is_held(page))
    }
}

fn is_page(first: u32, second: u32, page: Page) -> bool
    ensures { IsTrue result → IsPlaced (record { own = first ∷ second ∷ []; arrays = 1 }) page }
{
    match page.enclave {
        1 => page.number < first,
        2 => page.number < second,
        _ => false,
    }
}

fn page_told(page: Option<Page>) -> Told {
    match page {
        Some(page) => Told::Is(page),
        None => Told::Nothing,
    }
}

fn truth_told(truth: bool) -> Told {
    match truth {
        true => Told::Yes,
        false => Told::No,
    }
}
