//! That there is room for the version array pages of the build, and which of their slots are kept. A law is the contract of a function
//! without arguments.

ghost use Rattle.std.specs.Prelude.{◌≡◌, ◌∷◌, true, false, [], List, length};
ghost use Rattle.driver_laws.specs.inner.Agrees.{auditors, drivers, Keeping};
ghost use Rattle.driver_laws.specs.inner.Keeps.{is_epa};
ghost use Rattle.driver_laws.specs.inner.Sound.{IsSound, is_absent};
ghost use Rattle.driver_laws.specs.inner.Stages.{KeepsPages};
ghost use Rattle.driver_rules.specs.Ages.{AgeRuleBy, KeptAgeRule};
ghost use Rattle.driver_rules.specs.Passes.{aside, is_aside, pass};
ghost use Rattle.driver_rules.specs.Places.{place};
ghost use Rattle.driver_rules.specs.Scripts.{ScriptRule};
ghost use Rattle.driver_rules.specs.Spares.{Outs};
ghost use Rattle.driver_tables.specs.inner.Tables.{IsNew, ShowsTables};
ghost use Rattle.driver_tables.specs.inner.Targets.{first_in};
ghost use Rattle.driver_tables.specs.declared.driver.Driver.{Driver};
ghost use Rattle.job_grammar.specs.Jobs.{JobView};
ghost use Rattle.job_grammar.specs.inner.Valid.{IsValid};
ghost use Rattle.machine_laws.specs.inner.Columns.{HasColumns};
ghost use Rattle.machine_laws.specs.inner.State.{State};
ghost use Rattle.machine_laws.specs.inner.Steps.{IsStep};
ghost use Rattle.sgx_types.specs.declared.names.Actor.{Actor};
ghost use Rattle.sgx_types.specs.declared.names.Actor.TheVariants as actors;
ghost use Rattle.sgx_rules.specs.Rules.{Along};
ghost use Rattle.sgx_rules.specs.declared.entries.Action.{Action};
ghost use Rattle.sgx_rules.specs.declared.entries.Entry.{Entry};
ghost use Rattle.sgx_rules.specs.declared.entries.Event.{Event};
ghost use Rattle.sgx_types.specs.declared.names.Page.{Page};
ghost use Rattle.sgx_types.specs.Pages.{is_own_page};
ghost use Rattle.due_notes.specs.inner.Arrays.{HasAsMany, KeepsKeeper, is_move};
ghost use Rattle.due_notes.specs.inner.Noted.{HasSecsHere, KeepsFrom};
ghost use Rattle.due_notes.specs.inner.Plain.{is_reclaimer};
ghost use Rattle.script_rules.specs.Script.{is_builder};
ghost use Rattle.driver_slots.specs.inner.Keeper.{Keeper};

/// The new tables of a job have room for the version array pages of its build, and until the first TCS or REG page is added they keep
/// it: an entry of another actor than the builder makes none. Once such a page was added there is nothing more to keep, whatever the
/// keeper: so it is behind an entry that moves one, behind each of the reclaimer's in a pass, and wherever one is not absent. Behind an
/// entry that moves a SECS or a version array page the keeper has as many pages as before.
pub fn arrays_are_kept()
    ensures first { (j : JobView) (d : Driver) → IsNew j d → KeepsKeeper j d.slots [] }
    ensures others { (j : JobView) (old new : Keeper) (past : List Entry) (e : Entry) → is_builder e.actor ≡ false → is_epa e.event ≡ false
        → length new.arrays ≡ length old.arrays → new.room ≡ old.room → KeepsKeeper j old past → KeepsKeeper j new (e ∷ past) }
    ensures moved { (j : JobView) (old new : Keeper) (past : List Entry) (e : Entry) (g : Page) → IsSound past
        → is_builder e.actor ≡ false → is_move e.event ≡ true → is_absent (place past g) ≡ false
        → (is_own_page g ≡ false → HasAsMany old new) → KeepsKeeper j old past → KeepsKeeper j new (e ∷ past) }
    ensures passes { (j : JobView) (out : Outs) (old new : Keeper) (past : List Entry) (event : Event) → IsSound past
        → KeepsPages past (pass j past) → AgeRuleBy j past out (record { actor = actors.Reclaimer; event = event })
        → (is_aside (aside past) event ≡ true → HasAsMany old new) → KeepsKeeper j old past
        → KeepsKeeper j new (record { actor = actors.Reclaimer; event = event } ∷ past) }
    ensures late { (j : JobView) (keeper : Keeper) (past : List Entry) (e : Entry) (g : Page) → IsSound past → is_own_page g ≡ true
        → is_absent (place past g) ≡ false → KeepsKeeper j keeper (e ∷ past) }
{}

/// A page is added while the SECS of its enclave is here, where the reclaimer kept Age by the slots that its driver keeps as out: a SECS
/// leaves only once its enclave is initialised, and behind that the build adds no page of it.
pub fn pages_are_added_with_their_secs()
    ensures { (j : JobView) (past : List Entry) → IsValid j → Along (ScriptRule j) past → Along (KeptAgeRule j) past
        → IsSound past → (s : State) → HasColumns s past → (a : Actor) (action : Action) (e : Entry) (t : State) → is_reclaimer a ≡ false
        → ScriptRule j past e → IsStep s a action e t → HasSecsHere past e.event }
{}

/// A driver's keeper has the slots of version array page 0 from its first one for TCS and REG pages on, and an auditor's has all.
pub fn keepers_keep_from()
    ensures driver { (k : Keeping) (j : JobView) (d : Driver) (past : List Entry) → ShowsTables k j d past
        → KeepsFrom (drivers j) (first_in d 0) }
    ensures auditor { KeepsFrom auditors 0 }
{}
