//! The turns of the reclaimer.

ghost use Rattle.std.specs.Prelude.{◌≡◌, ◌+◌, ◌≤◌, ◌∷◌, [], true, false, IfOk, OnErr, is_some, length, vec_len};
ghost use Rattle.std.specs.Prelude.{vec_capacity};
ghost use Rattle.driver_rules.specs.inner.Reclaims.{all_finished};
ghost use Rattle.driver_rules.specs.Stops.{is_spent};
ghost use Rattle.driver_pass.specs.inner.Viewed.{is_kicked, is_sealing};
ghost use Rattle.run_course.specs.inner.Courses.{Grows, IsSame, KeepsCourse, past_of};
ghost use Rattle.run_course.specs.inner.Kicking.{CanKick, CanKickOne, HasKicked};
ghost use Rattle.run_course.specs.inner.Passing.{CanFollow, CanTakeOwn, EndsNone, IsFollowed, IsSealOf, IsWaiting, is_building};
ghost use Rattle.run_course.specs.inner.Passing.{is_left};
ghost use Rattle.run_course.specs.inner.Turns.{CanTurn, EndsOut, IsReclaimerTurn, IsSealed};
ghost use Rattle.sgx_types.specs.declared.names.Actor.TheVariants as actors;

use crate::building::ROOM;
use crate::course::Course;
use crate::turn::Turn;
use backing_store::backing::Backing;
use cached_translations::processor::Mode;
use driver_pass::pass::Pass;
use driver_reclaim::passes::step;
use driver_reclaim::stores::{fill_in, stored};
use driver_reclaim::turns::PassTurn;
use due_tables::dues::{BuilderDue, CpuDue};
use seal_record::seal::{SealWork, SealedWork};
use sgx_rules::entries::{Entry, Event};
use sgx_types::names::{Actor, Cpu, Memory};
use std::alloc::Global;

impl Course {
    /// A turn of the reclaimer.
    pub fn reclaim_turn<S: Backing>(&mut self, alloc: Global, store: &mut S) -> Result<Turn, Memory>
        requires { KeepsCourse self.old (S.told store.old) (S.spare store.old) }
        ensures turn { IfOk result (λ turn. IsReclaimerTurn self.old turn self.new (S.told store.new) (S.spare store.new)) }
        ensures keeps { KeepsCourse self.new (S.told store.new) (S.spare store.new) }
        ensures memory { OnErr result (IsSame self.old self.new × (store.new ≡ store.old)) }
        ensures plans { S.plans store.new ≡ S.plans store.old }
        ensures rests { IfOk result (λ turn. IsWaiting turn → store.new ≡ store.old) }
        ensures again { is_sealing self.old.pass ≡ true → IsSame self.old self.new × (store.new ≡ store.old) }
        ensures tells { is_some (S.told store.new) ≡ is_some (S.told store.old) }
    {
        if self.turns.is_spent {
            return Ok(Turn::Stopped);
        }
        if is_sealing(&self.pass) {
            let room = Box::new(alloc, SealWork::new(alloc)?)?;
            return Ok(self.sealing_with(room));
        }
        if self.all_finished() {
            return Ok(Turn::Finished);
        }
        self.pass_turn(alloc, store)
    }

    // The work of the started write-out, in this room.
    fn sealing_with(&self, mut room: Box<SealWork>) -> Turn
        requires can { CanTurn self.now }
        requires sealing { is_sealing self.now.pass ≡ true }
        ensures { IsSealOf self.now result }
    {
        fill_in(&self.pass, &self.machine, &mut room);
        Turn::Seal(room)
    }

    // Whether nothing is left to the builder and to any processor.
    fn all_finished(&self) -> bool
        requires can { CanTurn self.now }
        requires going { is_spent (past_of self.now) ≡ false }
        ensures { result ≡ all_finished self.now.job (past_of self.now) }
    {
        let due = self
            .turns
            .builder_due(&self.job, &self.driver, &self.machine);
        if is_building(due) {
            return false;
        }
        for number in 0..self.driver.cpus {
            let due = self
                .turns
                .cpu_due(&self.job, &self.driver, &self.machine, Cpu(number));
            if is_left(due) {
                return false;
            }
        }
        true
    }

    // One turn of the pass.
    fn pass_turn<S: Backing>(&mut self, alloc: Global, store: &mut S) -> Result<Turn, Memory>
        requires keeps { KeepsCourse self.old (S.told store.old) (S.spare store.old) }
        requires going { is_spent (past_of self.old) ≡ false }
        requires idle { is_sealing self.old.pass ≡ false }
        requires some { all_finished self.old.job (past_of self.old) ≡ false }
        ensures turn { IfOk result (λ turn. IsReclaimerTurn self.old turn self.new (S.told store.new) (S.spare store.new)) }
        ensures keeps { KeepsCourse self.new (S.told store.new) (S.spare store.new) }
        ensures memory { OnErr result (IsSame self.old self.new × (store.new ≡ store.old)) }
        ensures plans { S.plans store.new ≡ S.plans store.old }
        ensures rests { IfOk result (λ turn. IsWaiting turn → store.new ≡ store.old) }
        ensures tells { is_some (S.told store.new) ≡ is_some (S.told store.old) }
    {
        self.make_room(alloc)?;
        self.step_pass(alloc, store)
    }

    // Room for the entries of a turn, and for the work of a page that goes out.
    fn make_room(&mut self, alloc: Global) -> Result<(), Memory>
        ensures same { IsSame self.old self.new }
        ensures entries { IfOk result (λ _. vec_len self.new.entries + 64 ≤ vec_capacity self.new.entries) }
        ensures room { IfOk result (λ _. is_some self.new.room ≡ true) }
    {
        self.entries.reserve(ROOM)?;
        if self.room.is_none() {
            self.room = Some(Box::new(alloc, SealWork::new(alloc)?)?);
        }
        Ok(())
    }

    // .. with room for what it makes.
    fn step_pass<S: Backing>(&mut self, alloc: Global, store: &mut S) -> Result<Turn, Memory>
        requires keeps { KeepsCourse self.old (S.told store.old) (S.spare store.old) }
        requires going { is_spent (past_of self.old) ≡ false }
        requires idle { is_sealing self.old.pass ≡ false }
        requires some { all_finished self.old.job (past_of self.old) ≡ false }
        requires entries { vec_len self.old.entries + 64 ≤ vec_capacity self.old.entries }
        requires room { is_some self.old.room ≡ true }
        ensures turn { IfOk result (λ turn. IsReclaimerTurn self.old turn self.new (S.told store.new) (S.spare store.new)) }
        ensures keeps { KeepsCourse self.new (S.told store.new) (S.spare store.new) }
        ensures memory { OnErr result (IsSame self.old self.new × (store.new ≡ store.old)) }
        ensures plans { S.plans store.new ≡ S.plans store.old }
        ensures rests { IfOk result (λ turn. IsWaiting turn → store.new ≡ store.old) }
        ensures tells { is_some (S.told store.new) ≡ is_some (S.told store.old) }
    {
        let turn = step(
            alloc,
            &mut self.pass,
            &mut self.driver,
            &mut self.machine,
            store,
        )?;
        Ok(self.follow(turn))
    }

    // What a turn of the pass made is taken in.
    fn follow(&mut self, turn: PassTurn) -> Turn
        requires { CanFollow self.old turn }
        ensures { (can : CanFollow self.old turn) → IsFollowed self.old turn result self.new can.longer can.spare }
    {
        match turn {
            PassTurn::One(entry) | PassTurn::Spent(entry) => {
                self.take_own(entry);
                Turn::Did { entries: 1 }
            }
            PassTurn::Kicks(bits) => Turn::Did {
                entries: self.kick(bits),
            },
            PassTurn::Seal(entry) => {
                self.take_own(entry);
                self.seal()
            }
            PassTurn::Again(why) => Turn::Again(why),
        }
    }

    // Takes an entry of the reclaimer in.
    fn take_own(&mut self, entry: Entry)
        requires { CanTakeOwn self.old entry }
        ensures grows { (can : CanTakeOwn self.old entry) → Grows self.old actors.Reclaimer 1 self.new can.longer can.spare }
        ensures past { past_of self.new ≡ entry ∷ past_of self.old }
        ensures sealing { is_sealing self.new.pass ≡ is_sealing self.old.pass }
        ensures kicks { is_kicked self.new.pass ≡ is_kicked self.old.pass }
        ensures room { self.new.room ≡ self.old.room }
    {
        self.take_in(Mode::Outside, &entry);
    }

    // The work of the started write-out, in the room that there is for it.
    fn seal(&mut self) -> Turn
        requires can { CanTurn self.old }
        requires sealing { is_sealing self.old.pass ≡ true }
        requires room { is_some self.old.room ≡ true }
        ensures seals { IsSealOf self.old result }
        ensures others { self.new ≡ record self.old { room = self.new.room } }
    {
        match self.room.take() {
            Some(room) => self.sealing_with(room),
            None => unreachable!(),
        }
    }

    // Kicks each of these processors, the lowest first. How many they are.
    fn kick(&mut self, bits: u16) -> u32
        requires { CanKick self.old bits }
        ensures kicked { (can : CanKick self.old bits) → HasKicked self.old can.cpus can.told self.new }
        ensures count { (can : CanKick self.old bits) → result ≡ length can.cpus }
    {
        let mut kicked = 0;
        for number in 0..16u8 {
            let keeps_back = (bits >> number) % 2 == 1;
            kicked += self.kick_if(keeps_back, number);
        }
        kicked
    }

    // Kicks a processor, if it is to be kicked. How many were.
    fn kick_if(&mut self, keeps_back: bool, number: u8) -> u32
        requires { keeps_back ≡ true → CanKickOne self.old number }
        ensures one { keeps_back ≡ true → (can : CanKickOne self.old number)
            → HasKicked self.old (number ∷ []) can.told self.new × (result ≡ 1) }
        ensures none { keeps_back ≡ false → (self.new ≡ self.old) × (result ≡ 0) }
    {
        if keeps_back {
            self.kick_one(number);
            return 1;
        }
        0
    }

    // Kicks a processor.
    fn kick_one(&mut self, number: u8)
        requires { CanKickOne self.old number }
        ensures { (can : CanKickOne self.old number) → HasKicked self.old (number ∷ []) can.told self.new }
    {
        let entry = Entry {
            actor: Actor::Reclaimer,
            event: Event::Kick { cpu: Cpu(number) },
        };
        self.machine.note(&entry);
        self.record_entry(Mode::Outside, &entry);
    }

    /// Ends the started write-out. Where there is none, nothing changes.
    pub fn commit_sealed<S: Backing>(&mut self, store: &mut S, work: SealedWork) -> Turn
        requires { KeepsCourse self.old (S.told store.old) (S.spare store.old) }
        ensures turn { IsSealed self.old result self.new (S.told store.new) (S.spare store.new) }
        ensures keeps { KeepsCourse self.new (S.told store.new) (S.spare store.new) }
        ensures none { EndsNone result → store.new ≡ store.old }
        ensures plans { S.plans store.new ≡ S.plans store.old }
        ensures tells { is_some (S.told store.new) ≡ is_some (S.told store.old) }
    {
        if self.turns.is_spent {
            return Turn::Stopped;
        }
        if !is_sealing(&self.pass) {
            return Turn::Did { entries: 0 };
        }
        self.end_write_out(store, work);
        Turn::Did { entries: 1 }
    }

    // Ends the started write-out.
    fn end_write_out<S: Backing>(&mut self, store: &mut S, work: SealedWork)
        requires keeps { KeepsCourse self.old (S.told store.old) (S.spare store.old) }
        requires going { is_spent (past_of self.old) ≡ false }
        requires sealing { is_sealing self.old.pass ≡ true }
        ensures grows { Grows self.old actors.Reclaimer 1 self.new (S.told store.new) (S.spare store.new) }
        ensures ends { EndsOut (past_of self.new) }
        ensures kicks { is_kicked self.new.pass ≡ false }
        ensures plans { S.plans store.new ≡ S.plans store.old }
        ensures tells { is_some (S.told store.new) ≡ is_some (S.told store.old) }
    {
        let entry = stored(
            &mut self.pass,
            &mut self.driver,
            &mut self.machine,
            store,
            work,
        );
        self.take_own(entry);
    }
}

// Whether something is left to the builder.
fn is_building(due: BuilderDue) -> bool
    ensures { result ≡ is_building due }
{
    !matches!(due, BuilderDue::Finished)
}

// Whether something is left to a processor.
fn is_left(due: CpuDue) -> bool
    ensures { result ≡ is_left due }
{
    !matches!(due, CpuDue::Finished)
}

// Whether a write-out has started.
fn is_sealing(pass: &Pass) -> bool
    ensures { result ≡ is_sealing pass.now }
{
    pass.sealing().is_some()
}
