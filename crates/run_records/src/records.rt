//! Laws on what each entry of a run tells of the record of its call, and that a run over an honest store stays honest. A law is the
//! contract of a function without arguments.

ghost use Rattle.std.specs.Prelude.{ℕ, ◌≡◌, ◌<◌, true, false, List, [], ◌∷◌, Option, Some, IfSome, length};
ghost use Rattle.driver_list.specs.inner.Places.{IsPlaced, total};
ghost use Rattle.driver_list.specs.inner.States.{state_of as page_state};
ghost use Rattle.backing_store.specs.Calls.{Call};
ghost use Rattle.run_calls.specs.inner.Stores.{StoreMoves};
ghost use Rattle.driver_rules.specs.Turns.{Loads, last_of};
ghost use Rattle.driver_tables.specs.inner.Carried.{Carries};
ghost use Rattle.driver_tables.specs.declared.driver.Driver.{Driver};
ghost use Rattle.driver_faults.specs.inner.Due.{IsRight};
ghost use Rattle.driver_faults.specs.inner.Finishing.{CanFinish, IsBack, IsFinished};
ghost use Rattle.driver_faults.specs.inner.Resolving.{IsResolved};
ghost use Rattle.driver_faults.specs.declared.answers.FaultAnswer.{FaultAnswer};
ghost use Rattle.driver_faults.specs.declared.answers.Loaded.{Loaded};
ghost use Rattle.job_grammar.specs.Jobs.{JobView};
ghost use Rattle.machine_laws.specs.inner.Columns.{HasColumns};
ghost use Rattle.machine_laws.specs.inner.Shape.{ShapeWithRules};
ghost use Rattle.machine_laws.specs.inner.State.{State};
ghost use Rattle.machine_laws.specs.inner.Steps.{IsStep};
ghost use Rattle.sgx_machine.specs.inner.Parts.{Parts, state_of};
ghost use Rattle.driver_pass.specs.inner.Viewed.{PassView};
ghost use Rattle.driver_reclaim.specs.inner.Asked.{look_told, told_by};
ghost use Rattle.driver_reclaim.specs.inner.Going.{TurnGoes};
ghost use Rattle.driver_reclaim.specs.inner.Ready.{CanStep, Ready};
ghost use Rattle.driver_reclaim.specs.inner.Rests.{IsWait};
ghost use Rattle.driver_reclaim.specs.inner.Stored.{KeepsArrays, StoredSays};
ghost use Rattle.driver_reclaim.specs.inner.Turning.{TurnSays};
ghost use Rattle.driver_reclaim.specs.declared.turns.PassTurn.{PassTurn};
ghost use Rattle.run_laws.specs.inner.Books.{AreTold, KeepsBook};
ghost use Rattle.run_laws.specs.inner.Honest.{IsHonestBook};
ghost use Rattle.run_laws.specs.inner.Loads.{OfAnswer, entry_in};
ghost use Rattle.due_notes.specs.inner.Plain.{is_plain};
ghost use Rattle.run_laws.specs.inner.Turns.{OfEntry};
ghost use Rattle.history_rules.specs.Honest.{IsHonest};
ghost use Rattle.run_records.specs.inner.Builds.{is_building};
ghost use Rattle.run_records.specs.inner.Honest.{IsNeverHonest, IsRefusedStart, StaysHonest};
ghost use Rattle.run_records.specs.inner.Silent.{HasNoEntry, MakesNoEntry, OfBus, OfSlot};
ghost use Rattle.sgx_types.specs.Making.{Making};
ghost use Rattle.sgx_rules.specs.declared.entries.Action.{Action};
ghost use Rattle.sgx_types.specs.declared.names.Actor.{Actor};
ghost use Rattle.sgx_rules.specs.declared.entries.Entry.{Entry};
ghost use Rattle.sgx_rules.specs.declared.entries.Event.TheVariants.{Kick};
ghost use Rattle.sgx_types.specs.declared.names.Cpu.{Cpu};
ghost use Rattle.sgx_types.specs.declared.names.Page.{Page};
ghost use Rattle.sgx_rules.specs.inner.Enclaves.{EnclavesAreFlat};
ghost use Rattle.script_rules.specs.Script.{action_of};
ghost use Rattle.due_tables.specs.declared.turns.Turns.{Turns};

/// Before the first entry flat memory has no enclave and no page, and none was made.
pub fn enclaves_are_flat_at_first()
    ensures { EnclavesAreFlat [] }
{}

/// Flat memory goes on to have each enclave and page as the entries made it, with any instruction of the machine but the end of a write-out
/// or of a load, done or refused, whatever the bytes of pages are: a create, an add or an init that is done is one that flat memory takes.
pub fn steps_keep_enclaves_flat()
    ensures { (s t : State) (past : List Entry) (actor : Actor) (action : Action) (e : Entry) → HasColumns s past
        → IsStep s actor action e t → EnclavesAreFlat past → EnclavesAreFlat (e ∷ past) }
{}

/// Flat memory goes on to have each enclave and page as the entries made it, with any entry that is no done create, add or init.
pub fn other_entries_keep_enclaves_flat()
    ensures { (past : List Entry) (e : Entry) → is_building e.event ≡ false → EnclavesAreFlat past → EnclavesAreFlat (e ∷ past) }
{}

/// Flat memory goes on to have each enclave and page as the entries made it, with the entry of a fault step, and with the bus behind the
/// start of a load that is refused.
pub fn fault_steps_keep_enclaves_flat()
    ensures { (past : List Entry) (cpu : Cpu) (page : Page) (d d' : Driver) (m m' : Parts) (told told' : Option (List Call))
        (answer : FaultAnswer) → IsResolved cpu page (page_state d.states page) d m told answer d' m' told' → EnclavesAreFlat past
        → OfAnswer cpu page answer (λ e. EnclavesAreFlat (e ∷ past)) × OfSlot cpu page answer (λ e bus. EnclavesAreFlat (bus ∷ e ∷ past)) }
{}

/// Flat memory goes on to have each enclave and page with the end of a load, and with the bus behind one that is refused.
pub fn ends_of_loads_keep_enclaves_flat()
    ensures { (past : List Entry) (d d' : Driver) (m m' : Parts) (cpu : Cpu) (page : Page) (loaded : Loaded) (can : CanFinish cpu page d m)
        → IsFinished cpu page can.slot can.frame can.kept d (state_of m) loaded d' (state_of m') → EnclavesAreFlat past
        → EnclavesAreFlat (entry_in loaded ∷ past) × OfBus cpu page loaded (λ e bus. EnclavesAreFlat (bus ∷ e ∷ past)) }
{}

/// Flat memory goes on to have each enclave and page with the entry of a turn of a pass.
pub fn turns_of_a_pass_keep_enclaves_flat()
    ensures { (past : List Entry) (v v' : PassView) (d d' : Driver) (m m' : Parts) (turn : PassTurn) → TurnSays v d m turn v' d' m'
        → EnclavesAreFlat past → OfEntry turn (λ e. EnclavesAreFlat (e ∷ past)) }
{}

/// Flat memory goes on to have each enclave and page with the end of a write-out.
pub fn write_outs_keep_enclaves_flat()
    ensures { (past : List Entry) (v : PassView) (d d' : Driver) (m m' : Parts) (told told' : Option (List Call)) (faults faults' : ℕ)
        (e : Entry) → StoredSays v (state_of m) d told faults e (state_of m') d' told' faults' → EnclavesAreFlat past
        → EnclavesAreFlat (e ∷ past) }
{}

/// An instruction of the builder or of a processor that moves no page out or back, done or refused, comes with no call, where the tables
/// keep their records and their lost pages.
pub fn instructions_tell_their_records()
    ensures { (j : JobView) (past : List Entry) (e : Entry) (action : Action) (told : Option (List Call)) (d d' : Driver)
        → action_of e.event ≡ Some action → is_plain action ≡ true → IfSome told (λ calls. StoreMoves e calls d d')
        → AreTold j past e told told d d' }
{}

/// A kick comes with no call.
pub fn kicks_tell_their_records()
    ensures { (j : JobView) (past : List Entry) (e : Entry) (cpu : Cpu) (told : Option (List Call)) (d : Driver) → e.event ≡ Kick cpu
        → AreTold j past e told told d d }
{}

/// The entry of a fault step comes with its call, and tells what is so of its record. The bus behind the start of a load that is refused
/// comes with no call of its own. Without an entry there is no call.
pub fn fault_steps_tell_their_records()
    ensures { (made : Making) (j : JobView) (past : List Entry) (told told' : Option (List Call)) (d d' : Driver) (m m' : Parts) (t : Turns)
        (cpu : Cpu) (page : Page) (answer : FaultAnswer) → KeepsBook made j past told d m t → cpu.0 < length d.kept
        → IsPlaced d.states.counts page → length d.states.states ≡ total d.states.counts
        → IsResolved cpu page (page_state d.states page) d m told answer d' m' told'
        → OfAnswer cpu page answer (λ e. AreTold j past e told told' d d')
        × OfSlot cpu page answer (λ e bus. AreTold j (e ∷ past) bus told' told' d' d') × (HasNoEntry answer → told' ≡ told) }
{}

/// The end of a load comes with no call. Done, it tells the tag of the record that the store gave for it, which has the page's header;
/// refused, it tells why that record is none of the page's own under its version. The bus behind a refusal comes with no call.
pub fn ends_of_loads_tell_their_records()
    ensures { (made : Making) (j : JobView) (past : List Entry) (told : Option (List Call)) (d d' : Driver) (m m' : Parts) (t : Turns)
        (cpu : Cpu) (page : Page) (n : ℕ) (loaded : Loaded) (can : CanFinish cpu page d m) → KeepsBook made j past told d m t
        → made.key ≡ j.key → last_of past cpu.0 ≡ Loads n page
        → IsFinished cpu page can.slot can.frame can.kept d (state_of m) loaded d' (state_of m')
        → AreTold j past (entry_in loaded) told told d d' × OfBus cpu page loaded (λ e bus. AreTold j (e ∷ past) bus told told d' d') }
{}

/// The entry of a turn of a pass comes with its call, and tells nothing of a record.
pub fn turns_of_a_pass_tell_their_records()
    ensures { (j : JobView) (past : List Entry) (told told' : Option (List Call)) (v v' : PassView) (d d' : Driver) (m m' : Parts)
        (turn : PassTurn) → d.states.counts ≡ d.active.counts → length d.states.states ≡ total d.states.counts → CanStep v d m
        → TurnSays v d m turn v' d' m' → (IsWait turn → d' ≡ d) → told' ≡ told_by (look_told turn) told
        → OfEntry turn (λ e. AreTold j past e told told' d d') }
{}

/// A turn of a pass with no entry of the reclaimer makes no call.
pub fn turns_without_an_entry_make_no_call()
    ensures { (told : Option (List Call)) (turn : PassTurn) → MakesNoEntry turn → told_by (look_told turn) told ≡ told }
{}

/// The end of a write-out comes with the put of its record, which has the page's header and the tag of its version.
pub fn write_outs_tell_their_records()
    ensures { (made : Making) (j : JobView) (past : List Entry) (told told' : Option (List Call)) (d d' : Driver) (m m' : Parts) (t : Turns)
        (v : PassView) (faults faults' : ℕ) (e : Entry) → KeepsBook made j past told d m t → made.key ≡ j.key → Ready made j past v d m
        → StoredSays v (state_of m) d told faults e (state_of m') d' told' faults' → AreTold j past e told told' d d' }
{}

/// Before the first entry and the first call a run is honest.
pub fn runs_begin_honest()
    ensures { (made : Making) (m : Parts) → ShapeWithRules made (state_of m) [] → IsHonestBook made [] m [] }
{}

/// Over an honest store a run stays honest with an instruction of the builder or of a processor that moves no page out or back.
pub fn instructions_stay_honest()
    ensures { (made : Making) (past : List Entry) (e : Entry) (action : Action) (told : Option (List Call)) (m m' : Parts)
        → action_of e.event ≡ Some action → is_plain action ≡ true → ShapeWithRules made (state_of m) past
        → Carries (state_of m) e (state_of m') → StaysHonest made past m e m' told }
{}

/// .. and with a kick.
pub fn kicks_stay_honest()
    ensures { (made : Making) (past : List Entry) (e : Entry) (cpu : Cpu) (told : Option (List Call)) (m : Parts) → e.event ≡ Kick cpu
        → StaysHonest made past m e m told }
{}

/// .. and with the entry of a turn of a pass.
pub fn turns_of_a_pass_stay_honest()
    ensures { (made : Making) (past : List Entry) (told : Option (List Call)) (v v' : PassView) (d d' : Driver) (m m' : Parts)
        (turn : PassTurn) → ShapeWithRules made (state_of m) past → TurnSays v d m turn v' d' m'
        → TurnGoes (state_of m) turn (state_of m') → OfEntry turn (λ e. StaysHonest made past m e m' told) }
{}

/// .. and with the entry of a fault step: no page is told as lost, and the start of a load finds the version that the entries put into
/// the page's slot.
pub fn fault_steps_stay_honest()
    ensures { (made : Making) (j : JobView) (past : List Entry) (told told' : Option (List Call)) (d d' : Driver) (m m' : Parts) (t : Turns)
        (cpu : Cpu) (page : Page) (answer : FaultAnswer) → KeepsBook made j past told d m t → cpu.0 < length d.kept
        → IsPlaced d.states.counts page → IsResolved cpu page (page_state d.states page) d m told answer d' m' told'
        → OfAnswer cpu page answer (λ e. StaysHonest made past m e m' told') }
{}

/// Over an honest store no start of a load is refused: its page's slot has a version.
pub fn honest_loads_start()
    ensures { (made : Making) (j : JobView) (past : List Entry) (told told' : Option (List Call)) (d d' : Driver) (m m' : Parts) (t : Turns)
        (cpu : Cpu) (page asked : Page) (answer : FaultAnswer) → KeepsBook made j past told d m t → cpu.0 < length d.kept
        → IsPlaced d.states.counts asked → IsResolved cpu asked (page_state d.states asked) d m told answer d' m' told'
        → IsRight j past cpu page asked answer d' → IsRefusedStart answer → IsNeverHonest told' }
{}

/// Over an honest store a run stays honest with the end of a load, which brings the page back: a version array page with the versions
/// with which it went out.
pub fn ends_of_loads_stay_honest()
    ensures back { (made : Making) (j : JobView) (past : List Entry) (told : Option (List Call)) (d d' : Driver) (m m' : Parts) (t : Turns)
        (cpu : Cpu) (page : Page) (n : ℕ) (loaded : Loaded) (can : CanFinish cpu page d m) → KeepsBook made j past told d m t
        → made.key ≡ j.key → last_of past cpu.0 ≡ Loads n page
        → IsFinished cpu page can.slot can.frame can.kept d (state_of m) loaded d' (state_of m')
        → IfSome told (λ calls. IsHonest calls → IsBack loaded) }
    ensures stays { (made : Making) (j : JobView) (past : List Entry) (told : Option (List Call)) (d d' : Driver) (m m' : Parts) (t : Turns)
        (cpu : Cpu) (page : Page) (n : ℕ) (loaded : Loaded) (can : CanFinish cpu page d m) → KeepsBook made j past told d m t
        → made.key ≡ j.key → last_of past cpu.0 ≡ Loads n page
        → IsFinished cpu page can.slot can.frame can.kept d (state_of m) loaded d' (state_of m')
        → StaysHonest made past m (entry_in loaded) m' told }
{}

/// .. and with the end of a write-out: the record that is put of a version array page has the versions with which it goes out.
pub fn write_outs_stay_honest()
    ensures { (made : Making) (j : JobView) (past : List Entry) (told told' : Option (List Call)) (d d' : Driver) (m m' : Parts) (t : Turns)
        (v : PassView) (faults faults' : ℕ) (e : Entry) → KeepsBook made j past told d m t
        → StoredSays v (state_of m) d told faults e (state_of m') d' told' faults' → KeepsArrays (state_of m) e (state_of m')
        → StaysHonest made past m e m' told' }
{}
