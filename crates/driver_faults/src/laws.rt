//! What the answers of a fault step are by the rules, and when its load can be ended. A law is the contract of a function without
//! arguments.

ghost use Rattle.std.specs.Prelude.{ℕ, ◌≡◌, ◌<◌, false, List, Option, Some, length};
ghost use Rattle.driver_list.specs.inner.Places.{IsPlaced};
ghost use Rattle.driver_list.specs.inner.States.{state_of as page_state};
ghost use Rattle.driver_rules.specs.Turns.{Loads, last_of};
ghost use Rattle.driver_tables.specs.declared.driver.Driver.{Driver};
ghost use Rattle.driver_faults.specs.inner.Due.{IsRight, IsRightEnd};
ghost use Rattle.driver_faults.specs.inner.Finishing.{CanFinish, FindsVersion, IsBack, IsFinished};
ghost use Rattle.driver_faults.specs.inner.Resolving.{CanResolve, IsResolved, asked_in};
ghost use Rattle.driver_faults.specs.declared.answers.FaultAnswer.{FaultAnswer};
ghost use Rattle.driver_faults.specs.declared.answers.Loaded.{Loaded};
ghost use Rattle.backing_store.specs.Calls.{Call};
ghost use Rattle.history_rules.specs.Given.{gift};
ghost use Rattle.history_rules.specs.inner.Honest.{GiftsAreLast};
ghost use Rattle.history_rules.specs.Stored.{StoreCalls};
ghost use Rattle.driver_tables.specs.inner.Agrees.{Agrees};
ghost use Rattle.driver_rules.specs.inner.Reclaims.{is_refused};
ghost use Rattle.machine_laws.specs.inner.State.{State};
ghost use Rattle.machine_laws.specs.inner.Steps.{IsReloaded};
ghost use Rattle.seal_record.specs.Cipher.{tag};
ghost use Rattle.sgx_types.specs.Sealed.{Sealed};
ghost use Rattle.sgx_types.specs.declared.names.Actor.{Actor};
ghost use Rattle.sgx_types.specs.declared.names.Frame.{Frame};
ghost use Rattle.job_grammar.specs.Jobs.{JobView};
ghost use Rattle.sgx_machine.specs.inner.Parts.{Parts, state_of};
ghost use Rattle.sgx_types.specs.Making.{Making};
ghost use Rattle.sgx_rules.specs.declared.entries.Entry.{Entry};
ghost use Rattle.sgx_types.specs.declared.names.Cpu.{Cpu};
ghost use Rattle.sgx_types.specs.declared.names.Page.{Page};
ghost use Rattle.sgx_rules.specs.inner.Enclaves.{EnclavesAreFlat};

/// What a fault step answers is right, for whatever entries tables and machine stand for: it is what is due, its entry can move its page,
/// and the tables show that entry too, where the processor has no load to end.
pub fn answers_are_right()
    ensures { (made : Making) (j : JobView) (past : List Entry) (d d' : Driver) (m m' : Parts) (cpu : Cpu) (page : Page)
        (told told' : Option (List Call)) (answer : FaultAnswer) → Agrees made j past d m → IsPlaced d.states.counts page
        → cpu.0 < length d.kept → IsResolved cpu (asked_in d page) (page_state d.states (asked_in d page)) d m told answer d' m' told'
        → IsRight j past cpu page (asked_in d page) answer d' }
{}

/// Where tables and machine stand for the same entries, a fault step for a page that has its place can be made.
pub fn pages_can_be_asked()
    ensures { (made : Making) (j : JobView) (past : List Entry) (d : Driver) (m : Parts) (page : Page) → Agrees made j past d m
        → IsPlaced d.states.counts page → CanResolve d page }
{}

/// What ends the load that a processor has still to end is right, for whatever entries tables and machine stand for: its entry is the end
/// that is due, and can move its page, and the tables show it too; behind a refusal the bus is due, and the tables show that as well.
pub fn ends_are_right()
    ensures { (made : Making) (j : JobView) (past : List Entry) (d d' : Driver) (m : Parts) (t : State) (cpu : Cpu) (page : Page) (n : ℕ)
        (loaded : Loaded) (can : CanFinish cpu page d m) → Agrees made j past d m → last_of past cpu.0 ≡ Loads n page
        → IsFinished cpu page can.slot can.frame can.kept d (state_of m) loaded d' t → IsRightEnd j past cpu page can.frame loaded d' }
{}

/// A load that ends by a record with the page's header, and with the tag of it under the version that its start found, is not refused,
/// whatever the record's cipher is. Nothing is supposed of other records.
pub fn own_records_come_back()
    ensures { (s t : State) (a : Actor) (f : Frame) (rec : Sealed) (e : Entry) (is : IsReloaded s a f rec e t)
        → rec.header ≡ is.coming.header → rec.tag ≡ tag s.key is.coming.start.version rec.header rec.cipher → is_refused e.event ≡ false }
{}

/// Where the store failed nothing and gave each page's last record put, a load is never refused: it ends with the page back. The calls are
/// those of the entries, the kept record is the one that was given for the load, and its start found the version of the page's last
/// write-out, which a version array page that a forged record brought back need not have. Nothing is supposed of forged records.
pub fn honest_loads_are_back()
    ensures { (made : Making) (j : JobView) (past : List Entry) (calls : List Call) (d d' : Driver) (m : Parts) (t : State) (cpu : Cpu)
        (page : Page) (loaded : Loaded) (can : CanFinish cpu page d m) → Agrees made j past d m → StoreCalls made.key past calls
        → GiftsAreLast past calls → FindsVersion past can.frame.0 can.slot → EnclavesAreFlat past
        → gift past calls can.frame.0 ≡ Some can.kept
        → IsFinished cpu page can.slot can.frame can.kept d (state_of m) loaded d' t → IsBack loaded }
{}

/// Where tables and machine stand for the same entries, a processor that has still to end a load can end it.
pub fn loads_can_be_ended()
    ensures { (made : Making) (j : JobView) (past : List Entry) (d : Driver) (m : Parts) (cpu : Cpu) (page : Page) (n : ℕ)
        → Agrees made j past d m → last_of past cpu.0 ≡ Loads n page → cpu.0 < length d.kept → CanFinish cpu page d m }
{}
