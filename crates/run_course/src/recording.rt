//! What is done with each entry.

ghost use Rattle.std.specs.Prelude.{◌≡◌, ◌++◌, ◌∷◌, [], vec_capacity};
ghost use Rattle.driver_pass.specs.inner.Viewed.{is_kicked, is_sealing, still_out};
ghost use Rattle.run_laws.specs.inner.Books.{with_own};
ghost use Rattle.run_course.specs.inner.Recording.{CanRecord, CanTake, IsRecorded, IsTaken};
ghost use Rattle.due_tables.specs.inner.Noting.{IsNoted};

use crate::course::Course;
use cached_translations::processor::Mode;
use driver_tables::driver::Driver;
use sgx_rules::entries::Entry;

impl Course {
    /// Takes an entry in, before which its processor stood so: the holds and the tables of what is due follow it, it is kept, and it is
    /// decided whether the reclaimer works.
    #[inline(always)]
    pub(crate) fn take_in(&mut self, before: Mode, entry: &Entry)
        requires { CanTake self.old before entry.now }
        ensures book { (take : CanTake self.old before entry.now) → IsRecorded self.old entry.now take.can.longer self.new }
        ensures stands { CanTake self.old before entry.now → IsTaken self.old entry.now self.new }
        ensures kept { self.new.entries.items ≡ self.old.entries.items ++ entry.now ∷ [] }
        ensures room { vec_capacity self.new.entries ≡ vec_capacity self.old.entries }
        ensures noted { IsNoted self.old.job self.old.turns before entry.now self.new.turns }
        ensures driver { self.new.driver ≡ with_own self.old.driver self.new.driver.active.own }
        ensures places { still_out self.new.pass ≡ still_out self.old.pass }
        ensures sealing { is_sealing self.new.pass ≡ is_sealing self.old.pass }
        ensures kicks { is_kicked self.new.pass ≡ is_kicked self.old.pass }
        ensures others { self.new ≡ record self.old {
          driver = self.new.driver;
          turns = self.new.turns;
          pass = self.new.pass;
          entries = self.new.entries;
        } }
    {
        self.record_entry(before, entry);
        let free = self.machine.free_count();
        self.pass.settle(self.driver.marks, free);
    }

    /// .. within a pass, where nothing is decided.
    #[inline(always)]
    pub(crate) fn record_entry(&mut self, before: Mode, entry: &Entry)
        requires { CanRecord self.old before entry.now }
        ensures book { (can : CanRecord self.old before entry.now) → IsRecorded self.old entry.now can.longer self.new }
        ensures kept { self.new.entries.items ≡ self.old.entries.items ++ entry.now ∷ [] }
        ensures room { vec_capacity self.new.entries ≡ vec_capacity self.old.entries }
        ensures noted { IsNoted self.old.job self.old.turns before entry.now self.new.turns }
        ensures driver { self.new.driver ≡ with_own self.old.driver self.new.driver.active.own }
        ensures others { self.new ≡ record self.old { driver = self.new.driver; turns = self.new.turns; entries = self.new.entries } }
    {
        let Driver { states, active, .. } = &mut self.driver;
        self.turns.hold(&self.job, states, active, before, entry);
        self.turns.note(&self.job, before, entry);
        self.entries.push_reserved(*entry);
    }
}
