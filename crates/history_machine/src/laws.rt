//! Laws of the definitions. Each is the contract of a function without arguments, and so holds for every list of entries.

ghost use Rattle.std.specs.Prelude.{ℕ, ◌≡◌, List, Some};
ghost use Rattle.sgx_rules.specs.declared.entries.Entry.{Entry};
ghost use Rattle.job_grammar.specs.Jobs.{JobView};
ghost use Rattle.driver_rules.specs.Scripts.{ScriptRule};
ghost use Rattle.history_rules.specs.declared.rules.Rule.{Rule};
ghost use Rattle.history_rules.specs.Histories.{FailsHere, History};
ghost use Rattle.history_rules.specs.inner.Histories.{is_machines};
ghost use Rattle.history_machine.specs.Histories.{FailsAmong, FailsFirstAmong, MachineHistory};

/// A history keeps the processor's rules. A trace that fails somewhere among them keeps them not all. Where Script holds at an entry, and
/// one of the processor's rules fails as the first of them, it is the first of all rules that fails there.
pub fn the_processors_rules_are_some_of_all()
    ensures history { (j : JobView) (past : List Entry) → History j past → MachineHistory j past }
    ensures fails { (j : JobView) (whole : List Entry) (place : ℕ) (rule : Rule) → FailsFirstAmong is_machines j whole place rule
        → MachineHistory j whole → ⊥ }
    ensures here { (j : JobView) (past : List Entry) (e : Entry) (rule : Rule) → ScriptRule j past e
        → FailsAmong is_machines j past (Some e) rule → FailsHere j past (Some e) rule }
{}
