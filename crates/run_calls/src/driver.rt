//! Laws of the driver's calls. A law is the contract of a function without arguments.

ghost use Rattle.std.specs.Prelude.{ℕ, ◌≡◌, ◌<◌, List, Option, Some, length};
ghost use Rattle.driver_list.specs.inner.Places.{IsPlaced, total};
ghost use Rattle.driver_list.specs.inner.States.{state_of as page_state};
ghost use Rattle.backing_store.specs.Calls.{Call};
ghost use Rattle.run_calls.specs.inner.Stores.{TellsStore};
ghost use Rattle.run_calls.specs.inner.Comes.{AnswerComes, Comes, EndComes, Tells, TurnComes};
ghost use Rattle.driver_tables.specs.declared.driver.Driver.{Driver};
ghost use Rattle.driver_faults.specs.inner.Finishing.{CanFinish, IsFinished};
ghost use Rattle.driver_faults.specs.inner.Resolving.{IsResolved};
ghost use Rattle.driver_faults.specs.declared.answers.FaultAnswer.{FaultAnswer};
ghost use Rattle.driver_faults.specs.declared.answers.Loaded.{Loaded};
ghost use Rattle.machine_laws.specs.inner.State.{State};
ghost use Rattle.sgx_machine.specs.inner.Parts.{Parts, state_of};
ghost use Rattle.job_grammar.specs.Jobs.{JobView};
ghost use Rattle.driver_pass.specs.inner.Viewed.{PassView};
ghost use Rattle.driver_reclaim.specs.inner.Asked.{look_told, told_by};
ghost use Rattle.driver_reclaim.specs.inner.Ready.{CanStep, Ready};
ghost use Rattle.driver_reclaim.specs.inner.Rests.{IsWait};
ghost use Rattle.driver_reclaim.specs.inner.Stored.{StoredSays};
ghost use Rattle.driver_reclaim.specs.inner.Turning.{TurnSays};
ghost use Rattle.driver_reclaim.specs.declared.turns.PassTurn.{PassTurn};
ghost use Rattle.sgx_types.specs.Making.{Making};
ghost use Rattle.sgx_rules.specs.declared.entries.Entry.{Entry};
ghost use Rattle.sgx_types.specs.declared.names.Cpu.{Cpu};
ghost use Rattle.sgx_types.specs.declared.names.Page.{Page};

/// The entry of a fault step comes with the call that was made of the store, and the step that makes no entry makes no call. The page is
/// the one that is asked for. Where the start of its load was refused, the bus behind it makes no call of its own.
pub fn fault_steps_tell_their_calls()
    ensures { (key : List ℕ) (past : List Entry) (calls : List Call) (d d' : Driver) (m m' : Parts) (cpu : Cpu) (page : Page)
        (answer : FaultAnswer) (told : Option (List Call)) → TellsStore key past calls d → cpu.0 < length d.kept
        → IsPlaced d.states.counts page → length d.states.states ≡ total d.states.counts
        → IsResolved cpu page (page_state d.states page) d m (Some calls) answer d' m' told
        → Tells told (λ calls'. AnswerComes cpu page answer calls calls' d d') }
{}

/// The end of a load makes no call. Behind it no record is kept for the processor.
pub fn ends_of_loads_make_no_call()
    ensures { (calls : List Call) (d d' : Driver) (m : Parts) (s t : State) (cpu : Cpu) (page : Page) (loaded : Loaded)
        (can : CanFinish cpu page d m) → length d.states.states ≡ total d.states.counts
        → IsFinished cpu page can.slot can.frame can.kept d s loaded d' t → EndComes cpu page loaded calls d d' }
{}

/// The entry of a turn of the reclaimer comes with the call that was made of the store: a look asks for place where it takes its page, or
/// would have taken it. Kicks, and a turn that waits, make no call.
pub fn turns_of_a_pass_tell_their_calls()
    ensures { (calls : List Call) (v v' : PassView) (d d' : Driver) (m m' : Parts) (turn : PassTurn) (told : Option (List Call))
        → d.states.counts ≡ d.active.counts → length d.states.states ≡ total d.states.counts → CanStep v d m
        → TurnSays v d m turn v' d' m' → (IsWait turn → d' ≡ d) → told ≡ told_by (look_told turn) (Some calls)
        → Tells told (λ longer. TurnComes turn calls longer d d') }
{}

/// The end of a write-out comes with the put of its record, whether that failed or not.
pub fn write_outs_tell_their_puts()
    ensures { (made : Making) (j : JobView) (past : List Entry) (calls : List Call) (v : PassView) (d d' : Driver) (m m' : Parts)
        (faults faults' : ℕ) (e : Entry) (told : Option (List Call)) → Ready made j past v d m
        → StoredSays v (state_of m) d (Some calls) faults e (state_of m') d' told faults'
        → Tells told (λ longer. Comes e calls longer d d') }
{}
