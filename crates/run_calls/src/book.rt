//! Laws of the definitions. A law is the contract of a function without arguments.

ghost use Rattle.std.specs.Prelude.{ℕ, List, [], ◌∷◌};
ghost use Rattle.backing_store.specs.Calls.{Call};
ghost use Rattle.run_calls.specs.inner.Stores.{StoreMoves, TellsStore};
ghost use Rattle.driver_laws.specs.inner.Kinds.{CanMove};
ghost use Rattle.driver_laws.specs.inner.Loads.{LoadsAreTheirs, TheirRule};
ghost use Rattle.driver_laws.specs.inner.Sound.{IsSound};
ghost use Rattle.driver_tables.specs.inner.Tables.{IsNew};
ghost use Rattle.driver_tables.specs.declared.driver.Driver.{Driver};
ghost use Rattle.job_grammar.specs.Jobs.{JobView};
ghost use Rattle.history_rules.specs.Calls.{ComesWith, before};
ghost use Rattle.history_rules.specs.Given.{gift};
ghost use Rattle.history_rules.specs.Stored.{TellsOfStore};
ghost use Rattle.sgx_rules.specs.declared.entries.Entry.{Entry};

/// Entries, calls and tables that agree go on to with one entry more of any actor and any kind: where the entry comes with the last call,
/// and the tables keep of that call what they have to.
pub fn calls_go_on()
    ensures first { (key : List ℕ) (j : JobView) (d : Driver) → IsNew j d → TellsStore key [] [] d }
    ensures more { (key : List ℕ) (past : List Entry) (e : Entry) (calls : List Call) (d d' : Driver) → IsSound past → CanMove past e.event
        → LoadsAreTheirs past → TheirRule past e.actor e.event → ComesWith e.event calls
        → TellsOfStore key past (gift past (before e.event calls)) e.event calls → StoreMoves e calls d d'
        → TellsStore key past (before e.event calls) d → TellsStore key (e ∷ past) calls d' }
{}
