//! That the book goes on. A law is the contract of a function without arguments.

ghost use Rattle.std.specs.Prelude.{ℕ, ◌≡◌, ◌≤◌, ◌<◌, Bool, true, false, List, ◌∷◌, Option, length};
ghost use Rattle.backing_store.specs.Calls.{Call};
ghost use Rattle.driver_laws.specs.inner.Three.{TcsAreApart};
ghost use Rattle.driver_tables.specs.declared.driver.Driver.{Driver};
ghost use Rattle.job_grammar.specs.inner.Valid.{IsValid};
ghost use Rattle.job_grammar.specs.Jobs.{JobView};
ghost use Rattle.driver_laws.specs.inner.Counted.{CountMoves};
ghost use Rattle.driver_rules.specs.Scripts.{ScriptRule};
ghost use Rattle.driver_tables.specs.inner.Agrees.{Agrees};
ghost use Rattle.driver_tables.specs.inner.Asked.{IsNextOf};
ghost use Rattle.driver_tables.specs.inner.Carried.{Carries};
ghost use Rattle.driver_tables.specs.inner.Tables.{ShowsTables};
ghost use Rattle.machine_laws.specs.inner.Steps.{IsStep};
ghost use Rattle.sgx_machine.specs.inner.Parts.{Parts, state_of};
ghost use Rattle.driver_rules.specs.Places.{place};
ghost use Rattle.driver_rules.specs.Stops.{is_spent};
ghost use Rattle.driver_rules.specs.Turns.{Loads, cpu_due, fetches, last_of};
ghost use Rattle.driver_list.specs.inner.States.{state_of as page_state};
ghost use Rattle.run_calls.specs.inner.Comes.{bus_of};
ghost use Rattle.driver_faults.specs.inner.Due.{IsRight, IsRightEnd};
ghost use Rattle.driver_faults.specs.inner.Finishing.{CanFinish, IsFinished};
ghost use Rattle.driver_faults.specs.declared.answers.Loaded.{Loaded};
ghost use Rattle.driver_faults.specs.inner.Resolving.{IsResolved};
ghost use Rattle.driver_faults.specs.declared.answers.FaultAnswer.{FaultAnswer};
ghost use Rattle.driver_faults.specs.declared.answers.FaultAnswer.TheVariants as answers;
ghost use Rattle.run_laws.specs.inner.Loads.{GoesOnWith, OfAnswer, entry_in};
ghost use Rattle.sgx_rules.specs.declared.entries.BusWhy.{BusWhy};
ghost use Rattle.sgx_types.specs.declared.names.Cpu.{Cpu};
ghost use Rattle.sgx_types.specs.declared.names.Page.{Page};
ghost use Rattle.driver_reclaim.specs.inner.Answers.{IsTurn};
ghost use Rattle.driver_reclaim.specs.inner.Ended.{IsEndedOut};
ghost use Rattle.driver_reclaim.specs.inner.Going.{TurnGoes};
ghost use Rattle.driver_reclaim.specs.inner.Ready.{Ready};
ghost use Rattle.driver_reclaim.specs.inner.Stored.{StoredSays};
ghost use Rattle.driver_reclaim.specs.inner.Kept.{TurnKeeps};
ghost use Rattle.driver_reclaim.specs.inner.Shown.{ShowsAfter};
ghost use Rattle.driver_pass.specs.inner.Standing.{StandsAt};
ghost use Rattle.driver_pass.specs.inner.Noted.{instructed};
ghost use Rattle.driver_pass.specs.inner.Viewed.{is_amid, PassView};
ghost use Rattle.driver_rules.specs.Spares.{outs_kept};
ghost use Rattle.driver_rules.specs.inner.Reclaims.{going_due};
ghost use Rattle.driver_laws.specs.inner.Agrees.{drivers};
ghost use Rattle.driver_reclaim.specs.declared.turns.PassTurn.{PassTurn};
ghost use Rattle.run_laws.specs.inner.Turns.{OfEntry};
ghost use Rattle.due_notes.specs.inner.Noted.{HasSecsHere};
ghost use Rattle.due_notes.specs.inner.Plain.{is_plain, is_reclaimer};
ghost use Rattle.sgx_rules.specs.declared.entries.Action.{Action};
ghost use Rattle.sgx_types.specs.declared.names.Actor.{Actor};
ghost use Rattle.driver_slots.specs.inner.Keeper.{count_out};
ghost use Rattle.run_laws.specs.inner.Books.{IsMade, KeepsBook, with_own};
ghost use Rattle.sgx_types.specs.Making.{Making};
ghost use Rattle.sgx_rules.specs.declared.entries.Entry.{Entry};
ghost use Rattle.due_tables.specs.declared.turns.Turns.{Turns};
ghost use Rattle.due_tables.specs.inner.Holding.{KeepsHolds};
ghost use Rattle.due_tables.specs.inner.Shown.{ShowsTurns};

/// What the book keeps of some entries it keeps of one entry more, of any actor and any kind, which was made as that actor's next, once the
/// tables of what is due and the holds have taken it in.
pub fn the_book_goes_on()
    ensures { (made : Making) (j : JobView) (past : List Entry) (told told' : Option (List Call)) (d d' : Driver) (m m' : Parts)
        (t t' : Turns) (e : Entry) (own : List (List Page)) → TcsAreApart j → KeepsBook made j past told d m t
        → IsMade made j past told d m e told' d' m' → ShowsTurns j (e ∷ past) t' → KeepsHolds j own (e ∷ past)
        → KeepsBook made j (e ∷ past) told' (with_own d' own) m' t' }
{}

/// An instruction of the builder or of a processor that moves no page out or back, and that is its actor's next, is one with which driver
/// and machine go on to agree: by the machine's own clauses, where the tables show it.
pub fn instructions_are_next()
    ensures { (made : Making) (j : JobView) (past : List Entry) (d d' : Driver) (m m' : Parts) (v : PassView) (actor : Actor)
        (action : Action) (e : Entry) → is_reclaimer actor ≡ false → is_plain action ≡ true → IsValid j → Agrees made j past d m
        → StandsAt made.first_epoch j past v → is_amid v ≡ false → ScriptRule j past e → HasSecsHere past e.event
        → IsStep (state_of m) actor action e (state_of m') → Carries (state_of m) e (state_of m') → length m'.cpus ≡ length m.cpus
        → ShowsTables (drivers j) j d' (e ∷ past) → CountMoves past e.event (count_out d.slots) (count_out d'.slots)
        → IsNextOf made j past d m e d' m' }
{}

/// The entry of a turn of a pass is one with which driver and machine go on to agree, where the run was not stopped, and versions begin
/// above 0.
pub fn turns_of_a_pass_are_next()
    ensures { (made : Making) (j : JobView) (past : List Entry) (d d' : Driver) (m m' : Parts) (kicked : Bool) (turn : PassTurn)
        → 1 ≤ made.first_version → Agrees made j past d m → is_spent past ≡ false
        → IsTurn made j past d.slots (going_due j past (outs_kept j past) kicked) turn → TurnKeeps made.first_epoch j past turn
        → TurnGoes (state_of m) turn (state_of m') → length m'.cpus ≡ length m.cpus → ShowsAfter j past d turn d'
        → OfEntry turn (λ e. IsNextOf made j past d m e d' m') }
{}

/// The entry of a fault step that is due to a processor is one with which driver and machine go on to agree: the start of a load, done or
/// refused; or why its page does not come back, where the machine goes on with that note.
pub fn fault_steps_are_next()
    ensures { (made : Making) (j : JobView) (past : List Entry) (d d' : Driver) (m m' : Parts) (v : PassView) (cpu : Cpu)
        (page asked : Page) (answer : FaultAnswer) (told told' : Option (List Call)) → Agrees made j past d m
        → StandsAt made.first_epoch j past v → is_amid v ≡ false → is_spent past ≡ false → cpu.0 < length j.scripts
        → cpu_due j past cpu.0 ≡ fetches j.epc past page (place past page)
        → IsResolved cpu asked (page_state d.states asked) d m told answer d' m' told' → IsRight j past cpu page asked answer d'
        → length m'.cpus ≡ length m.cpus
        → ((why : BusWhy) → answer ≡ answers.Bus why → GoesOnWith made past (bus_of cpu asked why) m)
        → OfAnswer cpu asked answer (λ e. IsNextOf made j past d m e d' m') }
{}

/// The end of a load by the processor that has it to end is one with which driver and machine go on to agree.
pub fn ends_of_loads_are_next()
    ensures { (made : Making) (j : JobView) (past : List Entry) (d d' : Driver) (m m' : Parts) (v : PassView) (cpu : Cpu) (page : Page)
        (n : ℕ) (loaded : Loaded) (can : CanFinish cpu page d m) → Agrees made j past d m → StandsAt made.first_epoch j past v
        → is_amid v ≡ false → is_spent past ≡ false → cpu.0 < length j.scripts → last_of past cpu.0 ≡ Loads n page
        → IsFinished cpu page can.slot can.frame can.kept d (state_of m) loaded d' (state_of m')
        → IsRightEnd j past cpu page can.frame loaded d' → length m'.cpus ≡ length m.cpus
        → IsNextOf made j past d m (entry_in loaded) d' m' }
{}

/// The end of a write-out is one with which driver and machine go on to agree.
pub fn write_outs_are_next()
    ensures { (made : Making) (j : JobView) (past : List Entry) (d d' : Driver) (m m' : Parts) (v : PassView)
        (told told' : Option (List Call)) (faults faults' : ℕ) (e : Entry) → Ready made j past v d m → is_spent past ≡ false
        → StoredSays v (state_of m) d told faults e (state_of m') d' told' faults'
        → IsEndedOut made.first_epoch j past d e (instructed e.event v) d' → GoesOnWith made past e m' → length m'.cpus ≡ length m.cpus
        → IsNextOf made j past d m e d' m' }
{}
