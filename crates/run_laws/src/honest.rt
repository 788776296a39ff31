//! Laws of the definitions. A law is the contract of a function without arguments.

ghost use Rattle.backing_store.specs.inner.Store.{IsStore, StoreState, is_put};
ghost use Rattle.backing_store.specs.inner.Told.{told_of};
ghost use Rattle.driver_rules.specs.Scripts.{IsDone, IsEnded};
ghost use Rattle.driver_rules.specs.Stops.{has_loss, is_spent};
ghost use Rattle.job_grammar.specs.Jobs.{JobView};
ghost use Rattle.history_rules.specs.Honest.{IsHonest};
ghost use Rattle.sgx_rules.specs.declared.entries.Entry.{Entry};
ghost use Rattle.std.specs.Prelude.{ℕ, ◌≡◌, ◌<◌, false, List, [], count_by, length};

/// The planned store fails nothing and gives each page's last record put, where it was handed no plan lines. Its calls are answered by its
/// rules, and it has one record for each put: `PlannedStore::calls` and `puts` say so.
pub fn planned_stores_without_lines_are_honest()
    ensures { (store : StoreState) → IsStore store → length store.puts ≡ count_by is_put store.calls → store.plans ≡ []
        → IsHonest (told_of store.calls store.puts) }
{}

/// Where a run is at its end, each page came back, and no epoch or version was used up, each operation of each script has its reply, and
/// each processor is outside.
pub fn runs_without_a_loss_are_done()
    ensures { (j : JobView) (past : List Entry) → IsEnded j past → has_loss past ≡ false → is_spent past ≡ false
        → (p : ℕ) → p < length j.scripts → IsDone j past p }
{}
