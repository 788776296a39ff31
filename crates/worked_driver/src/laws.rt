//! Laws of the tests by which wrong entries are told.

ghost use Rattle.std.specs.Prelude.{◌≡◌, true, List, ◌∷◌, Some, length};
ghost use Rattle.sgx_rules.specs.declared.entries.Entry.{Entry};
ghost use Rattle.job_grammar.specs.Jobs.{JobView};
ghost use Rattle.history_rules.specs.declared.rules.Rule.{Rule};
ghost use Rattle.history_rules.specs.Histories.{FailsFirst, FailsHere, History, Keeps, RuleSays};
ghost use Rattle.history_rules.specs.inner.Histories.{is_machines};
ghost use Rattle.worked_driver.specs.inner.Lawful.{is_of_six};
ghost use Rattle.worked_driver.specs.inner.Faults.{breaks_at_last, breaks_first, is_history, keeps_all_six, keeps_machines};

/// An entry that passes keeps the rules Refusal, Flat, Fits, Stale, Evict, Fresh, Sealed and Measure.
pub fn the_test_of_the_machines_rules_tells_them()
    ensures { (j : JobView) (past : List Entry) (e : Entry) → keeps_machines j past e ≡ true
        → (rule : Rule) → is_machines rule ≡ true → RuleSays j rule past (Some e) }
{}

/// Where the test passes for a rule, the entry breaks this rule, and of the eleven rules none that is named before it.
pub fn the_test_of_a_fault_tells_the_rule_that_is_named()
    ensures { (j : JobView) (past : List Entry) (e : Entry) (rule : Rule) → breaks_first rule j past e ≡ true
        → FailsHere j past (Some e) rule }
{}

/// A trace that passes keeps Refusal, Flat, Fits, Stale, Evict and Fresh.
pub fn the_test_of_a_trace_tells_six_rules()
    ensures { (j : JobView) (past : List Entry) → keeps_all_six j past ≡ true → (rule : Rule) → is_of_six rule ≡ true
        → Keeps j rule past }
{}

/// A trace that passes, and tells no digest, is a history; and one that passes but for its last entry fails there first.
pub fn the_tests_of_a_trace_without_digests_tell_all_rules()
    ensures history { (j : JobView) (past : List Entry) → is_history j past ≡ true → History j past }
    ensures fails { (j : JobView) (past : List Entry) (e : Entry) (rule : Rule) → breaks_at_last rule j past e ≡ true
        → FailsFirst j (e ∷ past) (length past) rule }
{}
