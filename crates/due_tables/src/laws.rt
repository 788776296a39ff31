//! What the entries of a driver keep. A law is the contract of a function without arguments.

ghost use Rattle.std.specs.Prelude.{ℕ, ◌≡◌, ◌<◌, ◌^◌, ◌∷◌, [], List, length, replicate};
ghost use Rattle.driver_laws.specs.inner.Agrees.{drivers};
ghost use Rattle.driver_laws.specs.inner.Kinds.{CanMove};
ghost use Rattle.driver_laws.specs.inner.Three.{NamesOwn, TcsAreApart};
ghost use Rattle.driver_rules.specs.Dues.{Finished};
ghost use Rattle.driver_rules.specs.Scripts.{IsEnded, ScriptRule};
ghost use Rattle.driver_rules.specs.Turns.{builder_due, cpu_due};
ghost use Rattle.driver_tables.specs.inner.Agrees.{Agrees};
ghost use Rattle.driver_tables.specs.declared.driver.Driver.{Driver};
ghost use Rattle.cached_translations.specs.declared.processor.Mode.{Mode};
ghost use Rattle.job_grammar.specs.Jobs.{JobView};
ghost use Rattle.job_grammar.specs.inner.Valid.{IsValid};
ghost use Rattle.machine_laws.specs.inner.State.{State};
ghost use Rattle.machine_laws.specs.inner.Steps.{CanApply, IsStep};
ghost use Rattle.sgx_machine.specs.inner.Parts.{Parts};
ghost use Rattle.sgx_types.specs.Making.{Making};
ghost use Rattle.sgx_rules.specs.Rules.{Along};
ghost use Rattle.sgx_rules.specs.declared.entries.Action.{Action};
ghost use Rattle.sgx_types.specs.declared.names.Actor.{Actor};
ghost use Rattle.sgx_rules.specs.declared.entries.Entry.{Entry};
ghost use Rattle.due_tables.specs.inner.Due.{IsOrderly, IsShown};
ghost use Rattle.due_tables.specs.inner.Ending.{EndsAreTold, IsForRecord, NoneFails};
ghost use Rattle.due_tables.specs.inner.Entries.{CanNote, EntersApart};
ghost use Rattle.due_tables.specs.inner.Holding.{KeepsHolds};
ghost use Rattle.due_tables.specs.inner.Noting.{AreFew, IsNoted};
ghost use Rattle.due_tables.specs.inner.Shown.{ShowsTurns};
ghost use Rattle.due_tables.specs.declared.turns.Turns.{Turns};

/// One entry more keeps that each page is in the frame into which it was last put, and that no TCS page has more state save pages in use
/// than it has: where all are in use, a processor enters by one frame alone, which a machine refuses.
pub fn entries_stay_orderly()
    ensures first { (j : JobView) → IsOrderly j [] }
    ensures more { (j : JobView) (past : List Entry) (e : Entry) → IsValid j → TcsAreApart j → ((p : ℕ) → NamesOwn j past p)
        → CanMove past e.event → ScriptRule j past e → EntersApart e.event → IsOrderly j past → IsOrderly j (e ∷ past) }
    ensures told { (cpus : ℕ) (s : State) (a : Actor) (action : Action) (e : Entry) (t : State) → CanApply cpus a action
        → IsStep s a action e t → EntersApart e.event }
{}

/// Where the builder and each processor have nothing more to do, the run is ended, as long as who was ended was told why. So it goes on
/// where loads are refused only for their records.
pub fn finished_runs_are_ended()
    ensures ended { (j : JobView) (past : List Entry) → Along (ScriptRule j) past → EndsAreTold past → NoneFails past
        → builder_due j past ≡ Finished → ((p : ℕ) → p < length j.scripts → cpu_due j past p ≡ Finished) → IsEnded j past }
    ensures first { EndsAreTold [] }
    ensures more { (past : List Entry) (e : Entry) → IsForRecord past e.event → EndsAreTold past → EndsAreTold (e ∷ past) }
{}

/// Where driver and machine agree on some entries, the driver's tables and the machine show them.
pub fn agreeing_tables_show()
    ensures { (made : Making) (j : JobView) (past : List Entry) (d : Driver) (m : Parts) → Agrees made j past d m
        → IsShown (drivers j) j past d m }
{}

/// Nobody holds a page before a job's first entry.
pub fn holds_begin()
    ensures { (j : JobView) → KeepsHolds j (replicate 17 []) [] }
{}

/// No count of the tables is larger than the number of entries that they show.
pub fn counts_are_few()
    ensures { (j : JobView) (past : List Entry) (t : Turns) → ShowsTurns j past t → length past < 2 ^ 63 → AreFew t }
{}

/// Tables that show what the entries say go on to, behind an entry that they took in.
pub fn noted_tables_show_their_entries()
    ensures { (j : JobView) (past : List Entry) (old new : Turns) (before : Mode) (e : Entry) → IsNoted j old before e new
        → ShowsTurns j past old → CanNote j past before e → ShowsTurns j (e ∷ past) new }
{}
