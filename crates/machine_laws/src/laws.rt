//! Laws of the steps. Each is the contract of a function without arguments, and so holds for every run.

ghost use Rattle.std.specs.Prelude.{◌≡◌, ◌≤◌, false, List};
ghost use Rattle.sgx_rules.specs.declared.entries.Action.{Action};
ghost use Rattle.sgx_types.specs.declared.names.Actor.{Actor};
ghost use Rattle.sgx_rules.specs.declared.entries.Entry.{Entry};
ghost use Rattle.sgx_rules.specs.inner.Enclaves.{EnclavesAreFlat};
ghost use Rattle.sgx_rules.specs.Sights.{row_at};
ghost use Rattle.sgx_types.specs.Cases.{first_of_row};
ghost use Rattle.seal_record.specs.Records.{Given, Made, Unforged};
ghost use Rattle.machine_laws.specs.inner.Columns.{HasAllVersions, HasColumns};
ghost use Rattle.machine_laws.specs.inner.Guarded.{IsGuarded};
ghost use Rattle.machine_laws.specs.inner.Histories.{StandsWithAllRules};
ghost use Rattle.machine_laws.specs.inner.Runs.{Run};
ghost use Rattle.machine_laws.specs.inner.Shape.{ShapeWithRules};
ghost use Rattle.machine_laws.specs.inner.State.{State, making_of, row_of};
ghost use Rattle.machine_laws.specs.inner.Steps.{is_of_cpus};

/// Whatever instructions and commits take a fresh machine on, through states that are sound and guarded, as its type keeps
/// them, its state is the one that its entries say, column by column. By these entries the frames that are named are of the EPC
/// and taken where they are free, no processor inside has a stale translation, only drained pages go out, and the versions
/// that EWB draws are in order. Nothing is asked of the records that are brought, so that it holds of forged ones too.
pub fn every_run_is_shaped()
    ensures { (s : State) (past : List Entry) (made : List Made) (given : List Given) → Run s past made given
        → ShapeWithRules (making_of s) s past }
{}

/// Of a run of a fresh machine, where none of the records that the loads looked at was forged: flat memory is what its frames and the
/// records that its write-outs gave hold, and the entries keep every rule of the machine.
pub fn every_run_stands()
    ensures { (s : State) (past : List Entry) (made : List Made) (given : List Given) → Run s past made given
        → 1 ≤ s.first_version → Unforged s.key made given → StandsWithAllRules (making_of s) s past made }
{}

/// The rows of the instructions that build enclaves and move pages see columns alone. So where a guarded state has the columns of some
/// entries, the slots of each version array page in a frame have the versions that the entries say, and flat memory has the enclaves and
/// pages as these entries made them, whatever the bytes of the pages are, each such instruction is allowed in the state where it is by the
/// entries, and else refused by the same case.
pub fn rows_see_columns()
    ensures { (s : State) (past : List Entry) (a : Actor) (action : Action) → is_of_cpus action ≡ false → HasColumns s past
        → HasAllVersions s past → IsGuarded s → EnclavesAreFlat past
        → first_of_row (row_of s a action) ≡ first_of_row (row_at (making_of s) past a action) }
{}
