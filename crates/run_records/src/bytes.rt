//! That entries carry the machine's standing on. A law is the contract of a function without arguments.

ghost use Rattle.std.specs.Prelude.{ℕ, ◌≡◌, true, false, List, Option, IfSome};
ghost use Rattle.driver_list.specs.declared.page_states.PageState.{PageState};
ghost use Rattle.backing_store.specs.Calls.{Call};
ghost use Rattle.run_calls.specs.inner.Stores.{TellsStore};
ghost use Rattle.run_calls.specs.inner.Comes.{bus_of};
ghost use Rattle.driver_rules.specs.Dues.{Due};
ghost use Rattle.driver_rules.specs.Turns.{Loads, last_of};
ghost use Rattle.driver_tables.specs.inner.Agrees.{Agrees};
ghost use Rattle.driver_tables.specs.inner.Carried.{Carries};
ghost use Rattle.driver_tables.specs.declared.driver.Driver.{Driver};
ghost use Rattle.driver_faults.specs.inner.Finishing.{CanFinish, IsFinished};
ghost use Rattle.driver_faults.specs.inner.Resolving.{IsResolved};
ghost use Rattle.driver_faults.specs.declared.answers.FaultAnswer.{FaultAnswer};
ghost use Rattle.driver_faults.specs.declared.answers.FaultAnswer.TheVariants as answers;
ghost use Rattle.driver_faults.specs.declared.answers.Loaded.{Loaded};
ghost use Rattle.job_grammar.specs.Jobs.{JobView};
ghost use Rattle.machine_laws.specs.inner.Notes.{IsNote};
ghost use Rattle.machine_laws.specs.inner.Steps.{IsStep};
ghost use Rattle.sgx_machine.specs.inner.Parts.{Parts, state_of};
ghost use Rattle.driver_reclaim.specs.inner.Answers.{IsTurn};
ghost use Rattle.driver_reclaim.specs.inner.Going.{TurnGoes};
ghost use Rattle.driver_reclaim.specs.inner.Stored.{StoredSays};
ghost use Rattle.driver_reclaim.specs.declared.turns.PassTurn.{PassTurn};
ghost use Rattle.driver_pass.specs.inner.Viewed.{PassView};
ghost use Rattle.run_laws.specs.inner.Books.{CarriesBytes};
ghost use Rattle.run_laws.specs.inner.Loads.{OfAnswer, entry_in};
ghost use Rattle.due_notes.specs.inner.Plain.{is_plain};
ghost use Rattle.run_laws.specs.inner.Turns.{OfEntry};
ghost use Rattle.run_records.specs.inner.Records.{StaysWith, writes_out};
ghost use Rattle.sgx_rules.specs.declared.entries.Action.{Action};
ghost use Rattle.sgx_types.specs.declared.names.Actor.{Actor};
ghost use Rattle.sgx_rules.specs.declared.entries.BusWhy.{BusWhy};
ghost use Rattle.sgx_rules.specs.declared.entries.Entry.{Entry};
ghost use Rattle.sgx_types.specs.declared.names.Cpu.{Cpu};
ghost use Rattle.sgx_types.specs.declared.names.Page.{Page};
ghost use Rattle.sgx_types.specs.Making.{Making};
ghost use Rattle.driver_slots.specs.inner.Keeper.{Keeper};

/// An entry that the machine carries on, and that is no done write-out, makes no record, so the standing goes on with the records that
/// there were: an instruction, the start of a load or of a write-out, a block and a track, done or refused.
pub fn steps_carry_bytes()
    ensures { (made : Making) (j : JobView) (past : List Entry) (m m' : Parts) (e : Entry) (longer : List Call)
        → Carries (state_of m) e (state_of m') → writes_out e.event ≡ false → CarriesBytes made j past m e m' longer }
{}

/// An instruction of the builder or of a processor that moves no page out or back makes no record either, since it is no write-out.
pub fn instructions_carry_bytes()
    ensures { (made : Making) (j : JobView) (past : List Entry) (m m' : Parts) (actor : Actor) (action : Action) (e : Entry)
        (longer : List Call) → is_plain action ≡ true → IsStep (state_of m) actor action e (state_of m')
        → Carries (state_of m) e (state_of m') → CarriesBytes made j past m e m' longer }
{}

/// An entry of no instruction makes no record, and the machine stays as it was.
pub fn notes_carry_bytes()
    ensures { (made : Making) (j : JobView) (past : List Entry) (m : Parts) (e : Entry) (longer : List Call) → IsNote e.event
        → StaysWith (state_of m) e → CarriesBytes made j past m e m longer }
{}

/// The end of a write-out puts the record that the machine gave out, and the standing goes on with that one behind the others.
pub fn write_outs_carry_bytes()
    ensures { (made : Making) (j : JobView) (past : List Entry) (d d' : Driver) (m m' : Parts) (v : PassView)
        (told told' : Option (List Call)) (faults faults' : ℕ) (e : Entry)
        → StoredSays v (state_of m) d told faults e (state_of m') d' told' faults'
        → IfSome told' (CarriesBytes made j past m e m') }
{}

/// The end of a load looks at the record that the store gave for its start. Where that was not forged the standing goes on, whether the
/// load was done or refused.
pub fn ends_of_loads_carry_bytes()
    ensures { (made : Making) (j : JobView) (past : List Entry) (calls : List Call) (d d' : Driver) (m m' : Parts) (cpu : Cpu) (page : Page)
        (n : ℕ) (loaded : Loaded) (can : CanFinish cpu page d m) → Agrees made j past d m → made.key ≡ j.key
        → TellsStore j.key past calls d → last_of past cpu.0 ≡ Loads n page
        → IsFinished cpu page can.slot can.frame can.kept d (state_of m) loaded d' (state_of m')
        → CarriesBytes made j past m (entry_in loaded) m' calls }
{}

/// A turn of a pass that is what is due, whatever that be, makes no done write-out, so its entry carries the standing on.
pub fn turns_carry_bytes()
    ensures { (made : Making) (j : JobView) (past : List Entry) (m m' : Parts) (slots : Keeper) (due : Due) (turn : PassTurn)
        → IsTurn made j past slots due turn → TurnGoes (state_of m) turn (state_of m')
        → OfEntry turn (λ e. (longer : List Call) → CarriesBytes made j past m e m' longer) }
{}

/// The entry of a fault step carries the standing on: the start of a load; and why a page does not come back, where the machine stays with
/// that note.
pub fn answers_carry_bytes()
    ensures { (made : Making) (j : JobView) (past : List Entry) (d d' : Driver) (m m' : Parts) (cpu : Cpu) (page : Page) (state : PageState)
        (answer : FaultAnswer) (told told' : Option (List Call)) → IsResolved cpu page state d m told answer d' m' told'
        → ((why : BusWhy) → answer ≡ answers.Bus why → StaysWith (state_of m) (bus_of cpu page why))
        → OfAnswer cpu page answer (λ e. IfSome told' (CarriesBytes made j past m e m')) }
{}
