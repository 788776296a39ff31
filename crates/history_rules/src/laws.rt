//! Laws of the definitions. Each is the contract of a function without arguments, and so holds for every list of entries.

ghost use Rattle.std.specs.Prelude.{ℕ, ◌≡◌, ◌≤◌, true, List, [], ◌∷◌, None, Some};
ghost use Rattle.sgx_types.specs.declared.names.Actor.{Actor};
ghost use Rattle.sgx_rules.specs.declared.entries.Entry.{Entry};
ghost use Rattle.sgx_rules.specs.declared.entries.Event.{Event};
ghost use Rattle.sgx_rules.specs.Rules.{Along, FlatRule};
ghost use Rattle.sgx_rules.specs.Fresh.{Out, last_out};
ghost use Rattle.sgx_types.specs.declared.names.Page.{Page};
ghost use Rattle.sgx_rules.specs.inner.Enclaves.{EnclavesAreFlat};
ghost use Rattle.io_edges.specs.declared.plans.PlanLine.{PlanLine};
ghost use Rattle.job_grammar.specs.Jobs.{JobView};
ghost use Rattle.script_rules.specs.Machines.{machine_of};
ghost use Rattle.driver_laws.specs.inner.Driven.{IsDriven};
ghost use Rattle.driver_rules.specs.Ages.{AgeRule, KickRule};
ghost use Rattle.driver_rules.specs.Passes.{pass};
ghost use Rattle.driver_laws.specs.inner.Kinds.{CanMove};
ghost use Rattle.driver_laws.specs.inner.Sound.{IsSound};
ghost use Rattle.driver_laws.specs.inner.Stages.{KeepsPages};
ghost use Rattle.driver_laws.specs.inner.Three.{IsApart, TcsAreApart};
ghost use Rattle.driver_laws.specs.inner.Tracks.{KeepsTracks};
ghost use Rattle.driver_rules.specs.Scripts.{ScriptRule};
ghost use Rattle.backing_store.specs.Calls.{Call};
ghost use Rattle.history_rules.specs.Calls.{CallsAre, before};
ghost use Rattle.history_rules.specs.declared.rules.Rule.{Rule};
ghost use Rattle.history_rules.specs.Given.{UnforgedRun};
ghost use Rattle.history_rules.specs.Histories.{FailsFirst, History, Keeps, RuleSays};
ghost use Rattle.history_rules.specs.inner.Histories.{GoesOn, is_machines, is_note};
ghost use Rattle.history_rules.specs.Honest.{IsHonest};
ghost use Rattle.history_rules.specs.inner.Honest.{GiftsAreLast, IsLastPut};
ghost use Rattle.history_rules.specs.Stored.{StoreCalls, StoreTrue};

/// A history keeps each rule, so a trace that fails somewhere is none. A history is one that goes on.
pub fn histories_fail_nowhere()
    ensures keeps { (j : JobView) (past : List Entry) → History j past → (rule : Rule) → Keeps j rule past }
    ensures fails { (j : JobView) (whole : List Entry) (place : ℕ) (rule : Rule) → FailsFirst j whole place rule → History j whole → ⊥ }
    ensures goes_on { (j : JobView) (past : List Entry) → History j past → GoesOn j past }
    ensures shorter { (j : JobView) (e : Entry) (past : List Entry) → GoesOn j (e ∷ past) → GoesOn j past }
{}

/// In a trace that is a history so far, places, the list and the slots are sound, a pass keeps what it says of tracks and of its pages, and
/// three holds suffice.
pub fn histories_are_driven()
    ensures driven { (j : JobView) (past : List Entry) → GoesOn j past → IsDriven (machine_of j) j past }
    ensures sound { (j : JobView) (past : List Entry) → 1 ≤ j.start_version → GoesOn j past → IsSound past }
    ensures tracks { (j : JobView) (past : List Entry) → 1 ≤ j.start_version → GoesOn j past → KeepsTracks past (pass j past) }
    ensures pages { (j : JobView) (past : List Entry) → 1 ≤ j.start_version → GoesOn j past → KeepsPages past (pass j past) }
    ensures three { (j : JobView) (past : List Entry) → 1 ≤ j.start_version → TcsAreApart j → GoesOn j past → (p : ℕ) → IsApart j past p }
{}

/// What is supposed of a run's records, and what its calls are, is so of the run without its last entry.
pub fn runs_without_their_last_entry()
    ensures unforged { (key : List ℕ) (e : Entry) (past : List Entry) (calls : List Call) → UnforgedRun key (e ∷ past) calls
        → UnforgedRun key past (before e.event calls) }
    ensures stored { (key : List ℕ) (e : Entry) (past : List Entry) (calls : List Call) → StoreCalls key (e ∷ past) calls
        → StoreCalls key past (before e.event calls) }
    ensures told { (j : JobView) (e : Entry) (past : List Entry) (plans : List PlanLine) (calls : List Call)
        → StoreTrue j (e ∷ past) plans (Some calls) → StoreTrue j past plans (Some (before e.event calls)) }
{}

/// Where a store fails nothing and gives each page's last record put, each load that has started was given that record; and the last record
/// put of a page that is outside is sealed under the version with which it went out. Nothing is supposed of forged records.
pub fn honest_stores_give_the_last_record()
    ensures first { GiftsAreLast [] [] }
    ensures more { (past : List Entry) (e : Entry) (calls : List Call) → IsSound past → CanMove past e.event → CallsAre (e ∷ past) calls
        → IsHonest calls → GiftsAreLast past (before e.event calls) → GiftsAreLast (e ∷ past) calls }
    ensures before { (event : Event) (calls : List Call) → IsHonest calls → IsHonest (before event calls) }
    ensures last { (key : List ℕ) (past : List Entry) (calls : List Call) → StoreCalls key past calls → (g : Page) (o : Out)
        → last_out past g ≡ Some o → IsLastPut key past calls g o.version }
{}

/// Where flat memory takes each instruction, it has each enclave and each page as the entries made it.
pub fn flat_memory_has_the_pages()
    ensures { (past : List Entry) → Along FlatRule past → EnclavesAreFlat past }
{}

/// Only Script, Age and Kick say something of a look, of a kick, and of why a page did not come back. So a trace that is a history so far
/// is one with such an entry too, where the entry keeps these three.
pub fn entries_of_no_instruction()
    ensures says { (j : JobView) (past : List Entry) (a : Actor) (ev : Event) (rule : Rule) → is_note ev ≡ true → is_machines rule ≡ true
        → RuleSays j rule past None → RuleSays j rule past (Some (record { actor = a; event = ev })) }
    ensures goes_on { (j : JobView) (past : List Entry) (a : Actor) (ev : Event) → is_note ev ≡ true
        → ScriptRule j past (record { actor = a; event = ev }) → AgeRule j past (record { actor = a; event = ev })
        → KickRule j past (record { actor = a; event = ev }) → GoesOn j past → GoesOn j (record { actor = a; event = ev } ∷ past) }
{}
