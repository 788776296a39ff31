//! A store that keeps records in memory, and lies by a plan.

ghost use Rattle.std.specs.Prelude.{◌≡◌, ◌≤◌, ℕ, true, [], Option, Some, is_some, OnOk, OnErr, IsErrOf, length};
ghost use Rattle.std.specs.Prelude.{reverse, count_by};

use crate::backing::{Backing, StoreFault};
use crate::calls::StoreCall;
use crate::ledger::Ledger;
use io_edges::faults::Failed;
use io_edges::plans::PlanLine;
use sgx_types::names::{Memory, Page};
use sgx_types::record::Record;
use std::alloc::Global;
use std::marker::Model;

/// A store over memory that fails and lies exactly where its plan lines say (this project's own). Without lines it gives
/// each page's newest record. It tells all its calls. Contracts see its plan lines, its calls and the records that were
/// put.
#[derive(Drop)]
pub struct PlannedStore {
    // None before the first call that is given memory, since `new` is given none.
    ledger: Option<Ledger>,
}

impl Model for PlannedStore {
    ghost use Rattle.backing_store.specs.inner.Store.{StoreState};
    ghost use Rattle.backing_store.specs.inner.Kept.{store_of, IsKeptIn};

    ghost Value = { StoreState };

    ghost view = { λ s. store_of s.ledger };

    ghost invariant = { λ s. IsKeptIn s.ledger };
}

impl PlannedStore {
    ghost use Rattle.backing_store.specs.inner.Store.{new_store, is_put, get_answer, GiveGoodPuts, IsStore};
    ghost use Rattle.backing_store.specs.inner.Told.{record_at};
    ghost use Rattle.backing_store.specs.declared.calls.GetAnswer.TheVariants.{Given};
    ghost use Rattle.sgx_types.specs.declared.names.Page.{Page};

    /// No plan lines and no calls.
    pub fn new() -> PlannedStore
        ensures { result ≡ new_store }
    {
        PlannedStore { ledger: None }
    }

    /// The plan lines that it was handed, in their order.
    pub fn plans(&self) -> &[PlanLine]
        ensures { result.now ≡ self.now.plans }
    {
        match &self.ledger {
            Some(ledger) => &ledger.plans,
            None => &[],
        }
    }

    /// The calls that were made, the oldest first.
    pub fn calls(&self) -> &[StoreCall]
        ensures calls { result.now ≡ reverse self.now.calls }
        ensures by_rule { IsStore self.now }
        ensures good { GiveGoodPuts self.now.calls }
    {
        match &self.ledger {
            Some(ledger) => &ledger.calls,
            None => &[],
        }
    }

    /// The records that were put, the oldest first: one for each put among the calls, in their order, whether it failed or
    /// not.
    pub fn puts(&self) -> &[Record]
        ensures puts { result.now ≡ reverse self.now.puts }
        ensures one_each { length self.now.puts ≡ count_by is_put self.now.calls }

        // What the next get of a page gives has its record among them.
        ensures found { (page : Page) (put : ℕ) (bit : Option ℕ) →
            get_answer self.now.plans self.now.calls page ≡ Given put bit → is_some (record_at put self.now.puts) ≡ true }
    {
        match &self.ledger {
            Some(ledger) => &ledger.puts,
            None => &[],
        }
    }
}

impl Backing for PlannedStore {
    ghost use Rattle.backing_store.specs.inner.Store.{spare_of, count_failed, with_plans, after_room, after_put, after_get};
    ghost use Rattle.backing_store.specs.inner.Told.{told_of, room_answer, put_answer, get_answer_of, WhereMade};

    ghost told = { λ s. Some (told_of s.calls s.puts) };

    ghost plans = { λ s. s.plans };

    ghost spare = { λ s. spare_of s.calls };

    ghost faults = { λ s. count_failed s.calls };

    fn plan(&mut self, alloc: Global, lines: &[PlanLine]) -> Result<(), Memory>
        requires { told_of self.old.calls self.old.puts ≡ [] }
        ensures done { OnOk result (self.new ≡ with_plans lines.now self.old) }
        ensures refused { OnErr result (self.new ≡ self.old) }
    {
        let plans = lines.to_vec(alloc)?;
        match &mut self.ledger {
            Some(ledger) => ledger.plans = plans,
            None => self.ledger.insert(Ledger::new(alloc)).plans = plans,
        }
        Ok(())
    }

    fn room(&mut self, alloc: Global, page: Page) -> Result<(), StoreFault>
        ensures answer { WhereMade result (result ≡ room_answer self.old) }
        ensures store { WhereMade result (self.new ≡ after_room self.old page) }
        ensures memory { IsErrOf result StoreFault.Memory → self.new ≡ self.old }
    {
        match &mut self.ledger {
            Some(ledger) => ledger.room(alloc, page),
            None => self.ledger.insert(Ledger::new(alloc)).room(alloc, page),
        }
    }

    fn put(&mut self, page: Page, rec: &Record) -> Result<(), Failed>
        requires { 1 ≤ spare_of self.old.calls }
        ensures answer { result ≡ put_answer self.old }
        ensures store { self.new ≡ after_put self.old page rec.now }
    {
        let ledger = self.ledger.as_mut().unwrap();
        ledger.put(page, rec)
    }

    fn get(&mut self, alloc: Global, page: Page) -> Result<Option<Record>, StoreFault>
        ensures answer { WhereMade result (result ≡ get_answer_of self.old page) }
        ensures store { WhereMade result (self.new ≡ after_get self.old page) }
        ensures memory { IsErrOf result StoreFault.Memory → self.new ≡ self.old }
    {
        match &mut self.ledger {
            Some(ledger) => ledger.get(alloc, page),
            None => self.ledger.insert(Ledger::new(alloc)).get(alloc, page),
        }
    }
}
