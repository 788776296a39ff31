//! The lists of the planned store.

ghost use Rattle.std.specs.Option.{option_copied};
ghost use Rattle.std.specs.Prelude.{◌≡◌, ◌+◌, ◌<◌, ◌≤◌, Ok, IfOk, OnOk, IsErrOf, vec_len, vec_capacity};

use crate::backing::StoreFault;
use crate::blank::Blank;
use crate::calls::{GetAnswer, StoreCall};
use crate::flips::copy;
use crate::page_places::PagePlaces;
use crate::plan_rules::{
    bit_flipped, get_fails, is_dropped, partner, put_fails, replayed, room_fails,
};
use io_edges::faults::Failed;
use io_edges::plans::PlanLine;
use sgx_types::names::{Memory, Page};
use sgx_types::record::Record;
use std::alloc::{AllocError, Global};

/// The plan lines, the calls and the records of a store, and what is looked up of them.
#[derive(Drop)]
pub struct Ledger {
    pub plans: Vec<PlanLine>,
    pub calls: Vec<StoreCall>,
    pub puts: Vec<Record>,
    // One for each record that may be put without taking memory.
    pub blanks: Vec<Blank>,
    // How many rooms and gets there were.
    pub rooms: u64,
    pub gets: u64,
    pub known: PagePlaces,
}

impl Ledger {
    ghost use Rattle.backing_store.specs.inner.Kept.{state_of, IsKept, LedgerHasRoom};
    ghost use Rattle.backing_store.specs.inner.Store.{new_store, spare_of, next_get_of, place_given, get_answer, after_room};
    ghost use Rattle.backing_store.specs.inner.Store.{after_put};
    ghost use Rattle.backing_store.specs.inner.Store.{after_get};
    ghost use Rattle.backing_store.specs.inner.Told.{room_answer, put_answer, answer_of, get_answer_of, copy_of, record_at};
    ghost use Rattle.backing_store.specs.inner.Told.{WhereMade};

    /// No plan lines and no calls.
    pub fn new(alloc: Global) -> Ledger
        ensures state { state_of result ≡ new_store }
        ensures kept { IsKept result }
    {
        Ledger {
            plans: Vec::new(alloc),
            calls: Vec::new(alloc),
            puts: Vec::new(alloc),
            blanks: Vec::new(alloc),
            rooms: 0,
            gets: 0,
            known: PagePlaces::new(alloc),
        }
    }

    /// Makes place for one record.
    pub fn room(&mut self, alloc: Global, page: Page) -> Result<(), StoreFault>
        requires { IsKept self.old }
        ensures kept { IsKept self.new }
        ensures answer { WhereMade result (result ≡ room_answer (state_of self.old)) }
        ensures made { WhereMade result (state_of self.new ≡ after_room (state_of self.old) page) }
        ensures memory { IsErrOf result StoreFault.Memory → state_of self.new ≡ state_of self.old }
    {
        self.reserve(2)?;
        self.blanks.reserve(1)?;
        let blank = Blank::new(alloc)?;
        self.note_room(page, blank)
    }

    fn note_room(&mut self, page: Page, blank: Blank) -> Result<(), StoreFault>
        requires kept { IsKept self.old }
        requires room { LedgerHasRoom 2 self.old }
        requires place { vec_len self.old.blanks < vec_capacity self.old.blanks }
        ensures kept { IsKept self.new }
        ensures answer { result ≡ room_answer (state_of self.old) }
        ensures made { state_of self.new ≡ after_room (state_of self.old) page }
    {
        self.rooms += 1;
        let failed = room_fails(&self.plans, self.rooms);
        self.calls.push_reserved(StoreCall::Room { page, failed });
        if failed {
            return Err(StoreFault::Failed);
        }
        self.blanks.push_reserved(blank);
        Ok(())
    }

    /// Keeps a record.
    pub fn put(&mut self, page: Page, rec: &Record) -> Result<(), Failed>
        requires kept { IsKept self.old }
        requires spare { 1 ≤ spare_of (state_of self.old).calls }
        ensures kept { IsKept self.new }
        ensures answer { result ≡ put_answer (state_of self.old) }
        ensures made { state_of self.new ≡ after_put (state_of self.old) page rec.now }
    {
        let place = self.puts.len() as u64;
        let failed = put_fails(&self.plans, place + 1);
        let blank = self.blanks.pop().unwrap();
        self.puts.push_reserved(blank.fill(rec));
        self.calls.push_reserved(StoreCall::Put { page, failed });
        if failed {
            return Err(Failed);
        }
        self.known.note_put(page, place);
        Ok(())
    }

    /// A copy of a record of a page.
    pub fn get(&mut self, alloc: Global, page: Page) -> Result<Option<Record>, StoreFault>
        requires { IsKept self.old }
        ensures kept { IsKept self.new }
        ensures answer { WhereMade result (result ≡ get_answer_of (state_of self.old) page) }
        ensures made { WhereMade result (state_of self.new ≡ after_get (state_of self.old) page) }
        ensures memory { IsErrOf result StoreFault.Memory → state_of self.new ≡ state_of self.old }
    {
        self.reserve(1)?;
        self.get_with_room(alloc, page)
    }

    fn get_with_room(&mut self, alloc: Global, page: Page) -> Result<Option<Record>, StoreFault>
        requires kept { IsKept self.old }
        requires room { LedgerHasRoom 1 self.old }
        ensures kept { IsKept self.new }
        ensures answer { WhereMade result (result ≡ get_answer_of (state_of self.old) page) }
        ensures made { WhereMade result (state_of self.new ≡ after_get (state_of self.old) page) }
        ensures memory { IsErrOf result StoreFault.Memory → state_of self.new ≡ state_of self.old }
    {
        let answer = self.answer(page);
        match answer {
            GetAnswer::Failed => {
                self.note_get(page, answer);
                Err(StoreFault::Failed)
            }
            GetAnswer::Nothing => {
                self.note_get(page, answer);
                Ok(None)
            }
            GetAnswer::Given { put, flipped } => {
                let found = self.copy_at(alloc, put, flipped)?;
                self.note_get(page, answer);
                Ok(found)
            }
        }
    }

    fn note_get(&mut self, page: Page, answer: GetAnswer)
        requires kept { IsKept self.old }
        requires room { LedgerHasRoom 1 self.old }
        requires rule { answer ≡ get_answer (state_of self.old).plans (state_of self.old).calls page }
        ensures kept { IsKept self.new }
        ensures made { state_of self.new ≡ after_get (state_of self.old) page }
    {
        self.gets += 1;
        self.known.note_get(page);
        self.calls.push_reserved(StoreCall::Got { page, answer });
    }

    // What a get of a page gives now.
    fn answer(&self, page: Page) -> GetAnswer
        requires kept { IsKept self.now }
        requires room { LedgerHasRoom 1 self.now }
        ensures { result ≡ get_answer (state_of self.now).plans (state_of self.now).calls page }
    {
        if get_fails(&self.plans, self.gets + 1) {
            return GetAnswer::Failed;
        }
        let number = self.next_get_of(page);
        if is_dropped(&self.plans, page, number) {
            return GetAnswer::Nothing;
        }
        match self.place_given(page, number) {
            Some(put) => GetAnswer::Given {
                put,
                flipped: bit_flipped(&self.plans, page, number),
            },
            None => GetAnswer::Nothing,
        }
    }

    // The place of the record that the get of a page with this number gives.
    fn place_given(&self, page: Page, number: u64) -> Option<u64>
        requires kept { IsKept self.now }
        requires number { number ≡ next_get_of page (state_of self.now).calls }
        ensures { result ≡ place_given (state_of self.now).plans (state_of self.now).calls page }
    {
        if let Some(nth) = replayed(&self.plans, page, number)
            && let Some(place) = self.known.place(page, nth)
        {
            return Some(place);
        }
        let other = partner(&self.plans, page);
        self.known.place(other, self.known.counts(other).puts)
    }

    // The number that the next get of a page has among its gets.
    fn next_get_of(&self, page: Page) -> u64
        requires kept { IsKept self.now }
        requires room { LedgerHasRoom 1 self.now }
        ensures { result ≡ next_get_of page (state_of self.now).calls }
    {
        self.known.counts(page).gets + 1
    }

    // A copy of the record at a place, with a bit inverted or as it is.
    fn copy_at(&self, alloc: Global, place: u64, bit: Option<u32>) -> Result<Option<Record>, Memory>
        ensures { IfOk result (λ found. Ok found ≡ answer_of (copy_of bit (record_at place (state_of self.now).puts))) }
    {
        match self.record(place) {
            Some(rec) => Ok(Some(copy(alloc, rec, bit)?)),
            None => Ok(None),
        }
    }

    // The record at a place.
    fn record(&self, place: u64) -> Option<&Record>
        ensures { option_copied result ≡ record_at place (state_of self.now).puts }
    {
        self.puts.get(place as usize)
    }

    // Room for so many calls more, and for the puts to come.
    fn reserve(&mut self, more: usize) -> Result<(), AllocError>
        requires kept { IsKept self.old }
        requires few { more ≤ 2 }
        ensures kept { IsKept self.new }
        ensures room { OnOk result (LedgerHasRoom more self.new) }
        ensures state { state_of self.new ≡ state_of self.old }
    {
        let calls = self.blanks.len() + more;
        self.calls.reserve(calls)?;
        self.puts.reserve(calls)?;
        self.known.reserve(calls)
    }
}
