//! That driver and machine go on to agree. A law is the contract of a function without arguments.

ghost use Rattle.std.specs.Prelude.{◌≤◌, List, ◌∷◌};
ghost use Rattle.driver_tables.specs.inner.Agrees.{Agrees};
ghost use Rattle.driver_tables.specs.inner.Asked.{IsNextOf};
ghost use Rattle.driver_tables.specs.inner.Tells.{Tells};
ghost use Rattle.driver_laws.specs.inner.Agrees.{drivers};
ghost use Rattle.driver_tables.specs.declared.driver.Driver.{Driver};
ghost use Rattle.job_grammar.specs.Jobs.{JobView};
ghost use Rattle.sgx_machine.specs.inner.Parts.{Parts};
ghost use Rattle.sgx_types.specs.Making.{Making};
ghost use Rattle.sgx_rules.specs.declared.entries.Entry.{Entry};

/// Where driver and machine agree on some entries, they agree on one entry more of any actor and any kind, which is that actor's next by
/// the rules, as long as machine and tables show it.
pub fn agrees_goes_on()
    ensures { (made : Making) (j : JobView) (past : List Entry) (d d' : Driver) (m m' : Parts) (e : Entry) → Agrees made j past d m
        → IsNextOf made j past d m e d' m' → Agrees made j (e ∷ past) d' m' }
{}

/// Where driver and machine agree on some entries, tables and machine tell them, as a driver keeps its slots.
pub fn agreeing_tables_tell()
    ensures { (made : Making) (j : JobView) (past : List Entry) (d : Driver) (m : Parts) → Agrees made j past d m → j.marks.scan ≤ 64
        → Tells (drivers j) made j past d m }
{}
