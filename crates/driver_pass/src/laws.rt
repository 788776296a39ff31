//! What a pass stands for, and what is due by it. A law is the contract of a function without arguments.

ghost use Rattle.std.specs.Prelude.{ℕ, ◌≡◌, ◌∷◌, [], List, Option, Some, slice_get};
ghost use Rattle.sgx_rules.specs.declared.entries.Entry.{Entry};
ghost use Rattle.sgx_types.specs.Making.{Making};
ghost use Rattle.sgx_types.specs.declared.names.Page.{Page};
ghost use Rattle.sgx_rules.specs.Rules.{Along, RefusalRule};
ghost use Rattle.job_grammar.specs.Jobs.{JobView};
ghost use Rattle.driver_list.specs.inner.Holds.{is_held as is_held_by};
ghost use Rattle.sgx_machine.specs.inner.Parts.{Parts, state_of};
ghost use Rattle.driver_rules.specs.Ages.{AgeRuleBy};
ghost use Rattle.driver_rules.specs.Holds.{is_held};
ghost use Rattle.driver_rules.specs.Passes.{free_count, keepers, pass, pass_after};
ghost use Rattle.driver_rules.specs.Spares.{due_with, Outs};
ghost use Rattle.driver_laws.specs.inner.Agrees.{Keeping};
ghost use Rattle.driver_laws.specs.inner.Kinds.{CanMove};
ghost use Rattle.driver_laws.specs.inner.Sound.{IsSound};
ghost use Rattle.driver_laws.specs.inner.Tracks.{OwnRule};
ghost use Rattle.driver_tables.specs.declared.driver.Driver.{Driver};
ghost use Rattle.driver_pass.specs.declared.stages.Form.{Form};
ghost use Rattle.driver_pass.specs.declared.stages.Stage.TheVariants as stages;
ghost use Rattle.driver_pass.specs.declared.stages.Taken.{Taken};
ghost use Rattle.driver_pass.specs.inner.Dues.{CanBeDue, due_in, HasAllSlots, ShowsOuts};
ghost use Rattle.driver_pass.specs.inner.Keeping.{keepers_by};
ghost use Rattle.driver_tables.specs.inner.Tells.{Tells};
ghost use Rattle.driver_pass.specs.inner.Noted.{decided, gone_by};
ghost use Rattle.driver_pass.specs.inner.Standing.{epoch_told, StandsAt, StandsFor, TellsEpoch};
ghost use Rattle.driver_pass.specs.inner.Viewed.{new_view, PassView};

/// Before the first entry the new pass stands for the pass of the rules. Behind an entry that keeps the rule Age, by whichever slots are
/// counted as out, a pass that went on with it stands for that of the longer trace, once it is settled with as many frames as are free
/// there whether the reclaimer works. Driver and machine stand for the entries before it.
pub fn passes_go_on()
    ensures first { (first : ℕ) (j : JobView) → StandsAt first j [] new_view }
    ensures goes { (k : Keeping) (made : Making) (j : JobView) (past : List Entry) (out : Outs) (d : Driver) (m : Parts) (v : PassView)
        (e : Entry) → Tells k made j past d m → AgeRuleBy j past out e → TellsEpoch made.first_epoch past e.event → OwnRule past e
        → CanMove past e.event → StandsAt made.first_epoch j past v
        → StandsFor made.first_epoch (e ∷ past) (gone_by d m e.actor e.event v) (pass_after j past e.actor e.event (pass j past)) }
    ensures settles { (first : ℕ) (j : JobView) (past : List Entry) (v : PassView) (free : ℕ) (e : Entry)
        → free ≡ free_count j.epc (e ∷ past) → StandsFor first (e ∷ past) v (pass_after j past e.actor e.event (pass j past))
        → StandsAt first j (e ∷ past) (decided j.marks free v) }
    ensures told { (made : Making) (past : List Entry) (e : Entry) → RefusalRule made past e → TellsEpoch made.first_epoch past e.event }
{}

/// Behind the second refusal of a page's tries, those who keep the page back are the processors that are inside its enclave since before
/// the epoch that the refusal told.
pub fn keepers_are_told()
    ensures { (k : Keeping) (made : Making) (j : JobView) (past : List Entry) (d : Driver) (m : Parts) (v : PassView) (next epoch : ℕ)
        (form : Form) (t : Taken) → Tells k made j past d m → StandsAt made.first_epoch j past v → v.stage ≡ stages.Tries next form
        → epoch_told form ≡ Some epoch → slice_get v.taken next ≡ Some t → keepers past t.page ≡ keepers_by m t.page.enclave epoch }
{}

/// What is due besides a pass can be asked of tables and machine, and is what the rules say, by whichever slots they count as out.
pub fn dues_are_told()
    ensures can { (k : Keeping) (made : Making) (j : JobView) (past : List Entry) (d : Driver) (m : Parts) (v : PassView)
        → Tells k made j past d m → StandsAt made.first_epoch j past v → CanBeDue d (state_of m) v.behind }
    ensures due { (k : Keeping) (made : Making) (j : JobView) (past : List Entry) (out : Outs) (d : Driver) (m : Parts) (v : PassView)
        → Tells k made j past d m → HasAllSlots k → ShowsOuts d.slots past out
        → ((g : Page) → is_held_by d.active.own g ≡ is_held j past g) → StandsAt made.first_epoch j past v
        → due_in d (state_of m) v.behind ≡ due_with j past out }
{}
