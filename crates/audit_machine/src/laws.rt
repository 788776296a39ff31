//! What is so of the record of a page that is out. A law is the contract of a function without arguments.

ghost use Rattle.std.specs.Prelude.{List};
ghost use Rattle.audit_machine.specs.inner.Asked.{IsOwnRecord};
ghost use Rattle.machine_laws.specs.inner.Histories.{StandsWithAllRules};
ghost use Rattle.machine_laws.specs.inner.State.{State};
ghost use Rattle.machine_laws.specs.inner.Steps.{CanBring};
ghost use Rattle.seal_record.specs.Records.{Made};
ghost use Rattle.sgx_rules.specs.declared.entries.Entry.{Entry};
ghost use Rattle.sgx_types.specs.Making.{Making};
ghost use Rattle.sgx_types.specs.Sealed.{Sealed};
ghost use Rattle.sgx_types.specs.declared.names.Frame.{Frame};

/// The end of the load of a page may be asked for where its own record is brought: the page is in its slot, so that no frame holds it.
pub fn own_records_can_come()
    ensures { (k : Making) (s : State) (past : List Entry) (records : List Made) (f : Frame) (rec : Sealed)
        → StandsWithAllRules k s past records → IsOwnRecord k.key past f.0 rec → CanBring s f.0 }
{}
