//! The reclaimer, one turn at a time.
//!
//! 1. Look at the head of the list, one page a turn. A held page, and else a young one, goes to the tail. For any other the store makes
//!    room, so that putting its record later asks for no memory, and the page is taken off the list.
//! 2. Block each taken page. From then on no processor takes a translation of it.
//! 3. Try each, in order. A try is refused while a processor inside may hold a translation from before the block.
//! 4. Track the page's enclave, once. Who enters behind the track holds no such translation, so only who was inside before it counts.
//! 5. Try again. All of them may have left by themselves.
//! 6. Kick exactly those who keep the page back. They are asked for behind the track: before it, one who entered meanwhile would be
//!    missed.
//! 7. The third try waits until all of them have left. It starts the write-out, and the page's bytes are sealed outside the lock.
//! 8. The end of the write-out gives the record, and then it is put. A record that was put before could be of a page that stays.
//!
//! Behind a page that has gone out its SECS may be due, or a version array page. It comes before the next step of the pass, and goes out
//! at once: no processor holds a translation of it, so it needs no block and no track.

ghost use Rattle.std.specs.Prelude.{◌≡◌, None, IfOk, OnErr};
ghost use Rattle.std.specs.Result.{IsOkAnd};
ghost use Rattle.io_edges.specs.inner.Faults.{HasCause};
ghost use Rattle.sgx_rules.specs.declared.entries.Action.TheVariants as actions;
ghost use Rattle.sgx_rules.specs.declared.entries.Entry.{Entry};
ghost use Rattle.driver_list.specs.inner.Places.{IsPlaced};
ghost use Rattle.sgx_machine.specs.inner.Parts.{state_of};
ghost use Rattle.machine_laws.specs.inner.State.{State};
ghost use Rattle.driver_tables.specs.inner.Carried.{Carries};
ghost use Rattle.driver_pass.specs.inner.Noted.{instructed};
ghost use Rattle.driver_reclaim.specs.inner.Answers.{by_reclaimer};
ghost use Rattle.driver_reclaim.specs.inner.Asked.{NoRoomIn, look_of, look_told, places_by, told_by};
ghost use Rattle.driver_reclaim.specs.inner.Going.{TurnGoes};
ghost use Rattle.driver_reclaim.specs.inner.Ready.{CanStep, HasFreeSlots};
ghost use Rattle.driver_reclaim.specs.inner.Rests.{IsWait};
ghost use Rattle.driver_reclaim.specs.inner.Tried.{StartsAside};
ghost use Rattle.driver_reclaim.specs.declared.turns.PassTurn.TheVariants as turns;
ghost use Rattle.driver_reclaim.specs.inner.Turning.{FormSays, IsAsideTurn, IsDueLook, IsKickTurn, IsMadeTurn, IsResting, IsScanned};
ghost use Rattle.driver_reclaim.specs.inner.Turning.{IsThirdTurn, IsTryTurn, StageSays, TurnSays, turn_of};
ghost use Rattle.sgx_rules.specs.declared.entries.Event.TheVariants.{Age};

use crate::looks::{room, seen};
use crate::seats::{keepers, number_of_keepers};
use crate::tries::{start_aside, try_out};
use crate::turns::PassTurn;
use backing_store::backing::Backing;
use driver_pass::dues::due;
use driver_pass::pass::Pass;
use driver_pass::stages::{Aside, Form, Stage, Taken};
use driver_rules::waits::Why;
use driver_tables::driver::Driver;
use driver_tables::steps::step as instruct;
use sgx_machine::machine::Machine;
use sgx_rules::entries::{Action, Entry, Event, Look};
use sgx_rules::refusals::Refusal;
use sgx_types::names::{Actor, Memory, Page};
use std::alloc::Global;

/// One turn of the reclaimer, which is what it does next where no write-out of it is open: a look, a block, a try, a track or kicks, or the
/// reason why nothing changes. That this is what is due is a law, `turns_are_right`.
pub fn step<S: Backing>(
    alloc: Global,
    pass: &mut Pass,
    driver: &mut Driver,
    machine: &mut Machine,
    store: &mut S,
) -> Result<PassTurn, Memory>
    requires can { CanStep pass.old driver.old machine.old }
    ensures says { IfOk result (λ turn. TurnSays pass.old driver.old machine.old turn pass.new driver.new machine.new) }
    ensures told { IfOk result (λ turn. S.told store.new ≡ told_by (look_told turn) (S.told store.old)) }
    ensures places { IfOk result (λ turn. S.spare store.new ≡ places_by (look_told turn) (S.spare store.old)) }
    ensures plans { S.plans store.new ≡ S.plans store.old }
    ensures cause { HasCause (S.faults store.old) (S.faults store.new) (IsOkAnd result (λ turn. NoRoomIn (look_told turn))) }
    ensures memory { OnErr result ((driver.new ≡ driver.old) × (store.new ≡ store.old)) }
    ensures machine { OnErr result (machine.new ≡ machine.old) }
    ensures refused { OnErr result (pass.new ≡ pass.old) }
    ensures waits { IfOk result (λ turn. IsWait turn → (driver.new ≡ driver.old) × (pass.new ≡ pass.old)) }
    ensures rests { IfOk result (λ turn. IsWait turn → store.new ≡ store.old) }
    ensures goes { IfOk result (λ turn. TurnGoes (state_of machine.old) turn (state_of machine.new)) }
{
    match pass.aside() {
        Aside::ToGo(one) => return Ok(go_aside(alloc, pass, driver, machine, one)),
        Aside::Going(_) => unreachable!(),
        Aside::None => {}
    }
    match due(driver, machine, pass.behind()) {
        Some(page) => look_aside(alloc, pass, driver, machine, store, page),
        None => go_on(alloc, pass, driver, machine, store),
    }
}

// ---- beside the passes

// The page that was taken goes out.
fn go_aside(
    alloc: Global,
    pass: &mut Pass,
    driver: &Driver,
    machine: &mut Machine,
    one: Taken,
) -> PassTurn
    requires can { StartsAside driver.now one }
    ensures turn { IsAsideTurn one pass.old driver.now (state_of machine.old) result pass.new (state_of machine.new) }
    ensures asks { look_told result ≡ None }
    ensures waits { IsWait result → ⊥ }
    ensures goes { TurnGoes (state_of machine.old) result (state_of machine.new) }
{
    let entry = start_aside(alloc, driver, machine, one);
    made(pass, entry)
}

// The look at a page that is due.
fn look_aside<S: Backing>(
    alloc: Global,
    pass: &mut Pass,
    driver: &mut Driver,
    machine: &Machine,
    store: &mut S,
    page: Page,
) -> Result<PassTurn, Memory>
    requires placed { IsPlaced driver.old.states.counts page }
    ensures turn { IfOk result (λ turn. IsDueLook page pass.old driver.old turn pass.new driver.new) }
    ensures told { IfOk result (λ turn. S.told store.new ≡ told_by (look_told turn) (S.told store.old)) }
    ensures places { IfOk result (λ turn. S.spare store.new ≡ places_by (look_told turn) (S.spare store.old)) }
    ensures plans { S.plans store.new ≡ S.plans store.old }
    ensures cause { HasCause (S.faults store.old) (S.faults store.new) (IsOkAnd result (λ turn. NoRoomIn (look_told turn))) }
    ensures memory { OnErr result ((driver.new ≡ driver.old) × (store.new ≡ store.old)) }
    ensures refused { OnErr result (pass.new ≡ pass.old) }
    ensures waits { IfOk result (λ turn. IsWait turn → ⊥) }
    ensures goes { IfOk result (λ turn. TurnGoes (state_of machine.now) turn (state_of machine.now)) }
{
    let look = room(alloc, store, page)?;
    pass.look(driver, page, look);
    driver.look_aside(page, look);
    Ok(tell_look(machine, page, look))
}

fn tell_look(machine: &Machine, page: Page, look: Look) -> PassTurn
    ensures told { result ≡ turns.One (by_reclaimer (Age page look)) }
    ensures goes { TurnGoes (state_of machine.now) result (state_of machine.now) }
{
    let entry = Entry {
        actor: Actor::Reclaimer,
        event: Event::Age { page, look },
    };
    machine.note(&entry);
    PassTurn::One(entry)
}

// ---- a pass

// What the pass gives.
fn go_on<S: Backing>(
    alloc: Global,
    pass: &mut Pass,
    driver: &mut Driver,
    machine: &mut Machine,
    store: &mut S,
) -> Result<PassTurn, Memory>
    requires can { CanStep pass.old driver.old machine.old }
    ensures says { IfOk result (λ turn. StageSays pass.old.stage pass.old driver.old machine.old turn pass.new driver.new machine.new) }
    ensures told { IfOk result (λ turn. S.told store.new ≡ told_by (look_told turn) (S.told store.old)) }
    ensures places { IfOk result (λ turn. S.spare store.new ≡ places_by (look_told turn) (S.spare store.old)) }
    ensures plans { S.plans store.new ≡ S.plans store.old }
    ensures cause { HasCause (S.faults store.old) (S.faults store.new) (IsOkAnd result (λ turn. NoRoomIn (look_told turn))) }
    ensures memory { OnErr result ((driver.new ≡ driver.old) × (store.new ≡ store.old)) }
    ensures machine { OnErr result (machine.new ≡ machine.old) }
    ensures refused { OnErr result (pass.new ≡ pass.old) }
    ensures waits { IfOk result (λ turn. IsWait turn → (driver.new ≡ driver.old) × (pass.new ≡ pass.old)) }
    ensures rests { IfOk result (λ turn. IsWait turn → store.new ≡ store.old) }
    ensures goes { IfOk result (λ turn. TurnGoes (state_of machine.old) turn (state_of machine.new)) }
{
    match pass.stage() {
        Stage::Idle { works: false } => {
            let free = machine.free_count();
            Ok(PassTurn::Again(Why::Enough { free }))
        }
        Stage::Idle { works: true } => {
            if driver.all_held() {
                return Ok(PassTurn::Again(Why::AllHeld));
            }
            scan(alloc, pass, driver, machine, store)
        }
        Stage::Scan { .. } => scan(alloc, pass, driver, machine, store),
        Stage::Block { next } => match pass.page(next) {
            Some(one) => Ok(block(alloc, pass, machine, one)),
            None => Ok(PassTurn::Again(Why::AllHeld)),
        },
        Stage::Tries { next, form } => match pass.page(next) {
            Some(one) => Ok(try_form(alloc, pass, form, one, driver, machine)),
            None => Ok(PassTurn::Again(Why::AllHeld)),
        },
    }
}

// One look at the head of the list.
fn scan<S: Backing>(
    alloc: Global,
    pass: &mut Pass,
    driver: &mut Driver,
    machine: &Machine,
    store: &mut S,
) -> Result<PassTurn, Memory>
    requires counts { driver.old.states.counts ≡ driver.old.active.counts }
    ensures scanned { IfOk result (λ turn. IsScanned pass.old driver.old turn pass.new driver.new) }
    ensures told { IfOk result (λ turn. S.told store.new ≡ told_by (look_told turn) (S.told store.old)) }
    ensures places { IfOk result (λ turn. S.spare store.new ≡ places_by (look_told turn) (S.spare store.old)) }
    ensures plans { S.plans store.new ≡ S.plans store.old }
    ensures cause { HasCause (S.faults store.old) (S.faults store.new) (IsOkAnd result (λ turn. NoRoomIn (look_told turn))) }
    ensures memory { OnErr result ((driver.new ≡ driver.old) × (store.new ≡ store.old)) }
    ensures refused { OnErr result (pass.new ≡ pass.old) }
    ensures waits { IfOk result (λ turn. IsWait turn → (driver.new ≡ driver.old) × (pass.new ≡ pass.old)) }
    ensures rests { IfOk result (λ turn. IsWait turn → store.new ≡ store.old) }
    ensures goes { IfOk result (λ turn. TurnGoes (state_of machine.now) turn (state_of machine.now)) }
{
    let Some(page) = driver.active.head() else {
        return Ok(PassTurn::Again(Why::AllHeld));
    };
    let look = seen(alloc, driver, store, page)?;
    pass.look(driver, page, look);
    driver.look(page, look);
    Ok(tell_look(machine, page, look))
}

// The block of a page.
fn block(alloc: Global, pass: &mut Pass, machine: &mut Machine, one: Taken) -> PassTurn
    ensures turn { IsMadeTurn (actions.Block one.frame) pass.old (state_of machine.old) result pass.new (state_of machine.new) }
    ensures asks { look_told result ≡ None }
    ensures waits { IsWait result → ⊥ }
    ensures goes { TurnGoes (state_of machine.old) result (state_of machine.new) }
{
    let entry = instruct(
        alloc,
        machine,
        Actor::Reclaimer,
        Action::Block { frame: one.frame },
    );
    made(pass, entry)
}

// A turn within the tries of a page.
fn try_form(
    alloc: Global,
    pass: &mut Pass,
    form: Form,
    one: Taken,
    driver: &mut Driver,
    machine: &mut Machine,
) -> PassTurn
    requires slots { HasFreeSlots driver.old }
    requires rests { IsResting form }
    ensures form { FormSays form one pass.old driver.old machine.old result pass.new driver.new machine.new }
    ensures asks { look_told result ≡ None }
    ensures waits { IsWait result → (driver.new ≡ driver.old) × (pass.new ≡ pass.old) }
    ensures goes { TurnGoes (state_of machine.old) result (state_of machine.new) }
{
    match form {
        Form::First | Form::Second => try_page(alloc, pass, one, driver, machine),
        Form::Track => track(alloc, pass, one, machine),
        Form::Kick {
            epoch,
            is_made: false,
        } => kick(pass, machine, one, epoch),
        Form::Kick {
            epoch,
            is_made: true,
        } => third(alloc, pass, epoch, one, driver, machine),
        Form::Third { epoch } => third(alloc, pass, epoch, one, driver, machine),
        Form::Kicks { .. } | Form::Sealing => unreachable!(),
    }
}

// The track between the first two tries of a page.
fn track(alloc: Global, pass: &mut Pass, one: Taken, machine: &mut Machine) -> PassTurn
    ensures turn { IsMadeTurn (actions.Track one.page.enclave) pass.old (state_of machine.old) result pass.new (state_of machine.new) }
    ensures asks { look_told result ≡ None }
    ensures waits { IsWait result → ⊥ }
    ensures goes { TurnGoes (state_of machine.old) result (state_of machine.new) }
{
    let enclave = one.page.enclave;
    let entry = instruct(alloc, machine, Actor::Reclaimer, Action::Track { enclave });
    made(pass, entry)
}

// The kicks of those who keep a page back.
fn kick(pass: &mut Pass, machine: &Machine, one: Taken, epoch: u64) -> PassTurn
    ensures turn { IsKickTurn one.page.enclave epoch pass.old machine.now result pass.new }
    ensures asks { look_told result ≡ None }
    ensures waits { IsWait result → ⊥ }
    ensures goes { TurnGoes (state_of machine.now) result (state_of machine.now) }
{
    let enclave = one.page.enclave;
    pass.kick_all(number_of_keepers(machine, enclave, epoch));
    PassTurn::Kicks(keepers(machine, enclave, epoch))
}

// The last try, which waits for those who keep the page back.
fn third(
    alloc: Global,
    pass: &mut Pass,
    epoch: u64,
    one: Taken,
    driver: &mut Driver,
    machine: &mut Machine,
) -> PassTurn
    requires slots { HasFreeSlots driver.old }
    ensures turn { IsThirdTurn epoch one pass.old driver.old machine.old result pass.new driver.new machine.new }
    ensures asks { look_told result ≡ None }
    ensures waits { IsWait result → (driver.new ≡ driver.old) × (pass.new ≡ pass.old) }
    ensures goes { TurnGoes (state_of machine.old) result (state_of machine.new) }
{
    let enclave = one.page.enclave;
    let count = number_of_keepers(machine, enclave, epoch);
    if count > 0 {
        return PassTurn::Again(Why::Older { enclave, count });
    }
    try_page(alloc, pass, one, driver, machine)
}

// A try to write a page out.
fn try_page(
    alloc: Global,
    pass: &mut Pass,
    one: Taken,
    driver: &mut Driver,
    machine: &mut Machine,
) -> PassTurn
    requires slots { HasFreeSlots driver.old }
    ensures tried { IsTryTurn one pass.old driver.old (state_of machine.old) result pass.new driver.new (state_of machine.new) }
    ensures asks { look_told result ≡ None }
    ensures waits { IsWait result → (driver.new ≡ driver.old) × (pass.new ≡ pass.old) }
    ensures goes { TurnGoes (state_of machine.old) result (state_of machine.new) }
{
    let Some(entry) = try_out(alloc, driver, machine, one.frame) else {
        return PassTurn::Again(Why::NoSlot);
    };
    made(pass, entry)
}

// ---- an instruction

// The pass goes on with an instruction.
fn made(pass: &mut Pass, entry: Entry) -> PassTurn
    requires calm { look_of entry.event ≡ None }
    ensures turn { result ≡ turn_of entry entry.event }
    ensures pass { pass.new ≡ instructed entry.event pass.old }
    ensures asks { look_told result ≡ None }
    ensures waits { IsWait result → ⊥ }
    ensures goes { (s t : State) → Carries s entry t → TurnGoes s result t }
{
    pass.instruct(entry.event);
    turn_of(entry)
}

// A turn by its entry: it started a write-out, or an epoch or a version was used up, or else the pass goes on.
fn turn_of(entry: Entry) -> PassTurn
    requires calm { look_of entry.event ≡ None }
    ensures turn { result ≡ turn_of entry entry.event }
    ensures asks { look_told result ≡ None }
    ensures waits { IsWait result → ⊥ }
    ensures goes { (s t : State) → Carries s entry t → TurnGoes s result t }
{
    match entry.event {
        Event::Did {
            action: Action::EwbStart { .. },
            ..
        } => PassTurn::Seal(entry),
        Event::Refused {
            why: Refusal::NotTracked { .. } | Refusal::SlotOccupied { .. },
            ..
        } => PassTurn::One(entry),
        Event::Refused { .. } => PassTurn::Spent(entry),
        _ => PassTurn::One(entry),
    }
}
