//! The states of the enclaves that were created.

ghost use Rattle.std.specs.Prelude.{◌≡◌, ◌≤◌, length, None, OnSome};
ghost use Rattle.std.specs.Option.{option_copied, option_copied_mut};
ghost use Rattle.std.specs.Borrow.{sem};
ghost use Rattle.secs_state.specs.inner.Table.{empty_table, enclave_at, with_enclave};
ghost use Rattle.secs_state.specs.inner.Lending.{LendsEnclave};

use crate::secs::Secs;
use std::marker::Model;

/// The enclaves that were created, of A to H, which have the numbers 1 to 8.
#[derive(Default, Drop)]
pub struct SecsTable {
    // Fields and no array: what a borrower of an array's element writes back could not be stated.
    a: Option<Secs>,
    b: Option<Secs>,
    c: Option<Secs>,
    d: Option<Secs>,
    e: Option<Secs>,
    f: Option<Secs>,
    g: Option<Secs>,
    h: Option<Secs>,
}

impl Model for SecsTable {
    ghost use Rattle.std.specs.Prelude.{List, [], ◌∷◌, Option};
    ghost use Rattle.secs_state.specs.inner.Secs.{SecsState};

    ghost Value = { List (Option SecsState) };

    ghost view = { λ t. t.a ∷ t.b ∷ t.c ∷ t.d ∷ t.e ∷ t.f ∷ t.g ∷ t.h ∷ [] };
}

impl SecsTable {
    /// A table without enclaves.
    pub fn new() -> SecsTable
        ensures { result ≡ empty_table }
    {
        SecsTable::default()
    }

    /// The state of an enclave, which is None where it was not created.
    pub fn get(&self, enclave: u16) -> Option<&Secs>
        ensures value { option_copied result ≡ enclave_at self.now enclave }
        ensures numbered { OnSome result ((1 ≤ enclave) × (enclave ≤ 8)) }
        ensures places { length self.now ≡ 8 }
    {
        match enclave {
            1 => self.a.as_ref(),
            2 => self.b.as_ref(),
            3 => self.c.as_ref(),
            4 => self.d.as_ref(),
            5 => self.e.as_ref(),
            6 => self.f.as_ref(),
            7 => self.g.as_ref(),
            8 => self.h.as_ref(),
            _ => None,
        }
    }

    /// The same, to be changed.
    pub fn get_mut(&mut self, enclave: u16) -> Option<&mut Secs>
        ensures value { option_copied_mut result ≡ enclave_at self.old enclave }
        ensures* writes_back { sem 𝓛 (LendsEnclave self.entry enclave result) }
    {
        match enclave {
            1 => self.a.as_mut(),
            2 => self.b.as_mut(),
            3 => self.c.as_mut(),
            4 => self.d.as_mut(),
            5 => self.e.as_mut(),
            6 => self.f.as_mut(),
            7 => self.g.as_mut(),
            8 => self.h.as_mut(),
            _ => None,
        }
    }

    /// Puts an enclave into the table, where it is not.
    pub fn insert(&mut self, secs: Secs)
        requires first { 1 ≤ secs.enclave }
        requires last { secs.enclave ≤ 8 }
        requires absent { enclave_at self.old secs.enclave ≡ None }
        ensures { self.new ≡ with_enclave self.old secs.enclave secs }
    {
        match secs.enclave() {
            1 => self.a = Some(secs),
            2 => self.b = Some(secs),
            3 => self.c = Some(secs),
            4 => self.d = Some(secs),
            5 => self.e = Some(secs),
            6 => self.f = Some(secs),
            7 => self.g = Some(secs),
            8 => self.h = Some(secs),
            _ => unreachable!(),
        }
    }
}
