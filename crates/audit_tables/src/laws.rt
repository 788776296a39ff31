//! Laws of what an auditor keeps. A law is the contract of a function without arguments.

ghost use Rattle.std.specs.Prelude.{ℕ, ◌≤◌, ◌∷◌, List};
ghost use Rattle.sgx_types.specs.Making.{Making};
ghost use Rattle.sgx_rules.specs.Rules.{RefusalRule};
ghost use Rattle.sgx_rules.specs.inner.Starts.{LoadsAreApart};
ghost use Rattle.sgx_rules.specs.declared.entries.Entry.{Entry};
ghost use Rattle.job_grammar.specs.Jobs.{JobView};
ghost use Rattle.script_rules.specs.Machines.{machine_of};
ghost use Rattle.sgx_machine.specs.inner.Parts.{Parts};
ghost use Rattle.driver_rules.specs.Scripts.{ScriptRule};
ghost use Rattle.driver_laws.specs.inner.Agrees.{auditors, Keeping};
ghost use Rattle.driver_laws.specs.inner.Kinds.{CanMove};
ghost use Rattle.driver_laws.specs.inner.Sound.{IsSound};
ghost use Rattle.driver_laws.specs.inner.Three.{IsApart, TcsAreApart};
ghost use Rattle.driver_laws.specs.inner.Used.{StartTells};
ghost use Rattle.driver_tables.specs.inner.Tells.{Tells};
ghost use Rattle.driver_tables.specs.declared.driver.Driver.{Driver};
ghost use Rattle.history_rules.specs.inner.Histories.{GoesOn};
ghost use Rattle.due_tables.specs.inner.Due.{IsShown};
ghost use Rattle.due_tables.specs.inner.Ending.{EndsAreTold};
ghost use Rattle.due_tables.specs.declared.turns.Turns.{Turns};
ghost use Rattle.audit_tables.specs.inner.Shown.{ShowsTrace};

/// Tables and machine tell a trace that kept each rule, where the tables show it: nothing else is asked of who made it.
pub fn lawful_traces_tell()
    ensures { (j : JobView) (past : List Entry) (d : Driver) (m : Parts) (t : Turns) → ShowsTrace j past d m t
        → Tells auditors (machine_of j) j past d m }
{}

/// Where tables and machine tell some entries, they show them to the tables of what is due.
pub fn telling_tables_show()
    ensures { (k : Keeping) (made : Making) (j : JobView) (past : List Entry) (d : Driver) (m : Parts) → Tells k made j past d m
        → IsShown k j past d m }
{}

/// Each entry of a history that goes on could move its page, and what it told of its start is so.
pub fn lawful_entries_can_move()
    ensures can { (j : JobView) (past : List Entry) (e : Entry) → 1 ≤ j.start_version → GoesOn j (e ∷ past) → CanMove past e.event }
    ensures starts { (j : JobView) (past : List Entry) (e : Entry) → 1 ≤ j.start_version → GoesOn j (e ∷ past) → StartTells past e.event }
{}

/// No frame holds a page that is being loaded, and no page is loaded twice, where places and frames are sound.
pub fn loads_are_apart()
    ensures { (past : List Entry) → IsSound past → LoadsAreApart past }
{}

/// Who was ended was told why: by the rule Refusal a load is refused only for its record, and by the rule Script its start only for a slot
/// that holds no version, so that the refusal is still to be told.
pub fn ends_are_told()
    ensures { (k : Making) (j : JobView) (past : List Entry) (e : Entry) → RefusalRule k past e → ScriptRule j past e → EndsAreTold past
        → EndsAreTold (e ∷ past) }
{}

/// What each processor holds is of three pages.
pub fn holds_are_apart()
    ensures { (j : JobView) (past : List Entry) (p : ℕ) → 1 ≤ j.start_version → TcsAreApart j → GoesOn j past → IsApart j past p }
{}
