//! Instructions that move no page out or back, and the turns of the builder.

ghost use Rattle.std.specs.Prelude.{◌≡◌, IfOk, OnErr, false};
ghost use Rattle.driver_rules.specs.inner.Stops.{started};
ghost use Rattle.run_course.specs.declared.turn.Turn.TheVariants as turns;
ghost use Rattle.run_course.specs.inner.Courses.{Grows, IsSame, past_of};
ghost use Rattle.run_course.specs.inner.Turns.{CanInstruct, CanTurn, IsBuilderTurn};

use crate::course::Course;
use crate::turn::Turn;
use due_notes::notes::note_tables;
use due_tables::dues::BuilderDue;
use due_tables::holding::mode_of;
use sgx_rules::entries::Action;
use sgx_types::names::{Actor, Memory};
use std::alloc::Global;

// A turn makes an entry for each processor at most, and each open start has room for two.
pub(crate) const ROOM: usize = 64;

impl Course {
    /// A turn of the builder.
    pub fn build_turn(&mut self, alloc: Global) -> Result<Turn, Memory>
        requires { CanTurn self.old }
        ensures turn { IfOk result (λ turn. (can : CanTurn self.old) → IsBuilderTurn self.old turn self.new can.told can.spare) }
        ensures memory { OnErr result (IsSame self.old self.new) }
    {
        let due = self
            .turns
            .builder_due(&self.job, &self.driver, &self.machine);
        match &due {
            BuilderDue::Stopped => Ok(Turn::Stopped),
            BuilderDue::Finished => Ok(Turn::Finished),
            BuilderDue::Waits(why) => Ok(Turn::Again(*why)),
            BuilderDue::Makes(action) => self.instruct(alloc, Actor::Builder, action),
        }
    }

    /// An instruction that is due to the builder or to a processor. It stands in line, so that what it makes is handed on once less.
    #[inline(always)]
    pub(crate) fn instruct(
        &mut self,
        alloc: Global,
        actor: Actor,
        action: &Action,
    ) -> Result<Turn, Memory>
        requires { CanInstruct self.old actor action.now }
        ensures turn { IfOk result (λ turn. turn ≡ turns.Did 1) }
        ensures more { IfOk result (λ turn. (can : CanInstruct self.old actor action.now)
            → Grows self.old actor 1 self.new can.told can.spare) }
        ensures quiet { IfOk result (λ turn. CanInstruct self.old actor action.now → started (past_of self.new) actor ≡ false) }
        ensures memory { OnErr result (IsSame self.old self.new) }
    {
        self.entries.reserve(ROOM)?;
        let before = mode_of(&self.machine, actor);
        let entry = self.machine.apply(alloc, actor, action)?;
        let first = self.driver.first_slot(0);
        note_tables(&self.turns, &mut self.driver, first, before, &entry);
        self.take_in(before, &entry);
        Ok(Turn::Did { entries: 1 })
    }
}
