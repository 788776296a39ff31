//! Laws of whole runs. A law is the contract of a function without arguments.

ghost use Rattle.backing_store.specs.inner.Store.{IsStore, StoreState, is_put};
ghost use Rattle.backing_store.specs.inner.Told.{told_of};
ghost use Rattle.job_grammar.specs.Jobs.{JobView};
ghost use Rattle.driver_rules.specs.Stops.{has_loss};
ghost use Rattle.run_jobs.specs.Runs.{WholeRun};
ghost use Rattle.run_jobs.specs.declared.ends.End.{End};
ghost use Rattle.run_jobs.specs.declared.ends.End.TheVariants as ends;
ghost use Rattle.sgx_rules.specs.declared.entries.Entry.{Entry};
ghost use Rattle.std.specs.Prelude.{◌≡◌, ◌≢◌, Some, false, List, [], count_by, length};

/// A run of a job without plan lines over a planned store, which answers its calls by its rules and has one record for each put, loses no
/// page, however it ended, and so ends no processor by one.
pub fn planned_runs_without_lines_lose_nothing()
    ensures { (j : JobView) (past : List Entry) (end : End) (store : StoreState) → IsStore store
        → length store.puts ≡ count_by is_put store.calls → j.plans ≡ []
        → WholeRun j past end (Some (told_of store.calls store.puts)) store.plans → (has_loss past ≡ false) × (end ≢ ends.Bus) }
{}
