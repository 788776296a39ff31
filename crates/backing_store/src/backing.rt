//! Where sealed records are kept outside the EPC.

ghost use Rattle.std.specs.Prelude.{◌≡◌, ◌+◌, ◌≤◌, ℕ, List, [], Option, is_err, IfSome, OnOk, OnErr, OnSome, IsErr};
ghost use Rattle.std.specs.Prelude.{IsErrOf};
ghost use Rattle.io_edges.specs.inner.Faults.{HasCause};
ghost use Rattle.io_edges.specs.declared.plans.PlanLine.{PlanLine};
ghost use Rattle.backing_store.specs.Calls.{Call, Put};
ghost use Rattle.backing_store.specs.inner.Calls.{with_call, told_room, told_got};

use io_edges::faults::Failed;
use io_edges::plans::PlanLine;
use sgx_types::names::{Memory, Page};
use sgx_types::record::Record;
use std::alloc::{AllocError, Global};

/// Why a store did not do what was asked.
#[derive(Clone, Copy, Debug, PartialEq, Eq)]
pub enum StoreFault {
    /// It failed. It is answered only where the count of faults of the store has risen, or stands at its last value,
    /// 2^64 - 1.
    Failed,

    /// Memory was refused. The call counts as not made.
    Memory,
}

impl From<Memory> for StoreFault {
    ghost use Rattle.backing_store.specs.declared.backing.StoreFault.TheVariants as faults;

    ghost from_gives = { λ _ fault. fault ≡ faults.Memory };

    fn from(_memory: Memory) -> StoreFault {
        StoreFault::Memory
    }
}

impl From<AllocError> for StoreFault {
    ghost use Rattle.backing_store.specs.declared.backing.StoreFault.TheVariants as faults;

    ghost from_gives = { λ _ fault. fault ≡ faults.Memory };

    fn from(_error: AllocError) -> StoreFault {
        StoreFault::Memory
    }
}

/// Where sealed records are kept outside the EPC. Nothing is promised of the records that it gives: it may give one of
/// another page, an old one, or one that nobody put.
pub trait Backing: Drop {
    /// The calls that were made of it, the newest first, where it tells them.
    ghost told: { Self → Option (List Call) };

    /// The plan lines that it was handed. They say something only of a store that tells its calls.
    ghost plans: { Self → List PlanLine };

    /// How many records it has made place for that are not put yet.
    ghost spare: { Self → ℕ };

    /// How often it has failed. A count that would pass 2^64 - 1 stands still.
    ghost faults: { Self → ℕ };

    /// Hands the plan lines of a job over, before any other call. What they are to a store is its own matter.
    fn plan(&mut self, alloc: Global, lines: &[PlanLine]) -> Result<(), Memory>
        requires { IfSome (told self.old) (λ calls. calls ≡ []) }
        ensures lines { OnOk result (OnSome (told self.new) (plans self.new ≡ lines.now)) }
        ensures refused { OnErr result (self.new ≡ self.old) }
        ensures told { told self.new ≡ told self.old }
        ensures spare { spare self.new ≡ spare self.old }
        ensures faults { faults self.old ≤ faults self.new };

    /// Makes place for one record. A call that fails makes none, and leaves all records as they were.
    fn room(&mut self, alloc: Global, page: Page) -> Result<(), StoreFault>
        ensures told { told self.new ≡ told_room page result (told self.old) }
        ensures made { OnOk result (spare self.new ≡ spare self.old + 1) }
        ensures refused { OnErr result (spare self.new ≡ spare self.old) }

        // A call for which memory was refused counts as not made.
        ensures memory { IsErrOf result StoreFault.Memory → self.new ≡ self.old }
        ensures plans { plans self.new ≡ plans self.old }
        ensures cause { HasCause (faults self.old) (faults self.new) (IsErrOf result StoreFault.Failed) };

    /// Keeps a record of a page in a place that was made for one. It takes no memory. A call that fails uses the place up
    /// too, and its record is told all the same.
    fn put(&mut self, page: Page, rec: &Record) -> Result<(), Failed>
        requires { 1 ≤ spare self.old }
        ensures told { told self.new ≡ with_call (Put page rec.now (is_err result)) (told self.old) }
        ensures used { spare self.new + 1 ≡ spare self.old }
        ensures plans { plans self.new ≡ plans self.old }
        ensures cause { HasCause (faults self.old) (faults self.new) (IsErr result) };

    /// A copy of a record of a page, or that there is none.
    fn get(&mut self, alloc: Global, page: Page) -> Result<Option<Record>, StoreFault>
        ensures told { told self.new ≡ told_got page result (told self.old) }
        ensures spare { spare self.new ≡ spare self.old }

        // A call for which memory was refused counts as not made.
        ensures memory { IsErrOf result StoreFault.Memory → self.new ≡ self.old }
        ensures plans { plans self.new ≡ plans self.old }
        ensures cause { HasCause (faults self.old) (faults self.new) (IsErrOf result StoreFault.Failed) };
}
