//! Entries that change no machine: of no instruction, and refusals to who is no processor.

ghost use Rattle.std.specs.Prelude.{ℕ, ◌≡◌, ◌≤◌, ◌∷◌, true, List, Some, None};
ghost use Rattle.sgx_rules.specs.declared.entries.Action.{Action};
ghost use Rattle.sgx_rules.specs.declared.entries.Entry.{Entry};
ghost use Rattle.sgx_rules.specs.declared.refusals.Refusal.{Refusal};
ghost use Rattle.sgx_types.specs.Cases.{first_of_row};
ghost use Rattle.sgx_types.specs.declared.names.Actor.{Actor};
ghost use Rattle.sgx_types.specs.Making.{Making};
ghost use Rattle.seal_record.specs.Records.{Made};
ghost use Rattle.machine_laws.specs.inner.Histories.{StandsWithAllRules};
ghost use Rattle.machine_laws.specs.inner.Notes.{IsNote};
ghost use Rattle.machine_laws.specs.inner.Shape.{FitsApart, ShapeWithRules};
ghost use Rattle.machine_laws.specs.inner.State.{row_outside};
ghost use Rattle.machine_laws.specs.inner.Steps.{IsNoProcessor, is_of_cpus, refused_by};
ghost use Rattle.sgx_machine.specs.inner.Parts.{state_of};

use crate::machine::Machine;
use sgx_rules::entries::{Entry, Event};

impl Machine {
    /// An entry of no instruction: a look at a page, a kick, or a page that could not be reloaded. The machine is what it was, and
    /// stands for the longer list of entries.
    pub fn note(&self, entry: &Entry)
        requires { IsNote entry.now.event }
        ensures shape { (making : Making) (past : List Entry) → ShapeWithRules making (state_of self.now) past
            → ShapeWithRules making (state_of self.now) (entry.now ∷ past) }
        ensures fits { (frames : ℕ) (past : List Entry) → FitsApart frames past → FitsApart frames (entry.now ∷ past) }
        ensures history { (making : Making) (past : List Entry) (records : List Made)
            → StandsWithAllRules making (state_of self.now) past records
            → StandsWithAllRules making (state_of self.now) (entry.now ∷ past) records }
    {
        // There are 16 processors at most, and the entry is of no instruction.
        prove!(self.cpus.len() <= 16);
        prove!(!matches!(entry.event, Event::Did { .. } | Event::Refused { .. }));
    }

    /// Who is no processor, a driver or a processor past the 16th, is inside no enclave. An instruction of processors that is refused to it
    /// for the first case of its row leaves the machine what it was, which stands for the longer list of entries.
    pub fn note_outsiders(&self)
        ensures inside { (p : ℕ) → 16 ≤ p → (state_of self.now).inside p ≡ None }
        ensures refused { (making : Making) (past : List Entry) (records : List Made) (actor : Actor) (action : Action) (why : Refusal)
            → is_of_cpus action ≡ true → IsNoProcessor actor → first_of_row (row_outside (state_of self.now) action) ≡ Some why
            → StandsWithAllRules making (state_of self.now) past records
            → StandsWithAllRules making (state_of self.now) (refused_by actor action why ∷ past) records }
    {
        // There are 16 processors at most.
        prove!(self.cpus.len() <= 16);
    }
}
