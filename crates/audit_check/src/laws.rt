//! Laws of what is checked. A law is the contract of a function without arguments.

ghost use Rattle.std.specs.Prelude.{ℕ, List};
ghost use Rattle.audit_machine.specs.inner.Asked.{made_for};
ghost use Rattle.job_grammar.specs.Jobs.{JobView};
ghost use Rattle.history_machine.specs.Histories.{MachineHistory};
ghost use Rattle.machine_laws.specs.inner.Histories.{StandsWithAllRules};
ghost use Rattle.machine_laws.specs.inner.State.{State};
ghost use Rattle.seal_record.specs.Records.{Made};
ghost use Rattle.sgx_rules.specs.declared.entries.Entry.{Entry};

/// A trace that a machine stands for keeps the processor's rules, whoever made it, and however many processors the machine has.
pub fn machines_keep_the_processors_rules()
    ensures { (j : JobView) (cpus : ℕ) (s : State) (past : List Entry) (records : List Made)
        → StandsWithAllRules (made_for j cpus) s past records → MachineHistory j past }
{}
