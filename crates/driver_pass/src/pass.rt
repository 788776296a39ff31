//! How far the reclaimer is, and how it goes on with an entry.

ghost use Rattle.std.specs.Prelude.{◌≡◌, IfOk, slice_get};
ghost use Rattle.std.specs.Option.{option_map};
ghost use Rattle.driver_list.specs.inner.Places.{IsPlaced};
ghost use Rattle.driver_pass.specs.inner.Noted.{all_kicked, decided, gone_by, IsSeen, instructed, kicked, kicked_on, looked, looked_on};
ghost use Rattle.driver_pass.specs.inner.Noted.{passed_on};
ghost use Rattle.driver_pass.specs.inner.Viewed.{new_view, number_of, sealing_in, taken_at};

use crate::keepers::find_keepers;
use crate::looks::{aside_looked, behind_looked, taken_by};
use crate::moves::{
    after_instruction, after_kick, after_look, aside_instructed, behind_instructed,
};
use crate::stages::{Aside, Behind, Form, Stage, Taken};
use driver_rules::marks::works_with;
use driver_tables::driver::Driver;
use driver_tables::moves::is_own_page;
use job_grammar::jobs::Marks;
use sgx_machine::machine::Machine;
use sgx_rules::entries::{Entry, Event, Look};
use sgx_types::names::{Actor, Cpu, Memory, Page};
use std::alloc::Global;
use std::marker::Model;

// A pass takes no more pages than it looks at, and a job lets it look at no more than 64.
const MOST: usize = 64;

// A machine has no more processors.
const CPUS: usize = 16;

/// How far the reclaimer is: in a pass, and beside it with a SECS or version array page. Only `new` takes memory, and each other call takes
/// constant time.
#[derive(Drop)]
pub struct Pass {
    // The pages that the pass took, in their order.
    taken: Vec<Taken>,
    // Within the kicks of a page, those who are kicked.
    kicks: Vec<Cpu>,
    stage: Stage,
    aside: Aside,
    behind: Behind,
}

impl Model for Pass {
    ghost use Rattle.driver_pass.specs.inner.Viewed.{PassView};

    ghost Value = { PassView };

    ghost use Rattle.driver_pass.specs.inner.Rooms.{PassHasRoom, view_of};

    ghost view = { view_of };

    ghost invariant = { PassHasRoom };
}

impl Pass {
    /// Before the first entry. The error says that memory was refused.
    pub fn new(alloc: Global) -> Result<Pass, Memory>
        ensures { IfOk result (λ pass. pass ≡ new_view) }
    {
        Ok(Pass {
            taken: Vec::with_capacity(alloc, MOST)?,
            kicks: Vec::with_capacity(alloc, CPUS)?,
            stage: Stage::Idle { works: false },
            aside: Aside::None,
            behind: Behind::Nothing,
        })
    }

    /// How far the pass is.
    pub fn stage(&self) -> Stage
        ensures { result ≡ self.now.stage }
    {
        self.stage
    }

    /// The page that goes out beside the passes.
    pub fn aside(&self) -> Aside
        ensures { result ≡ self.now.aside }
    {
        self.aside
    }

    /// What the last entry tells of the page that is due.
    pub fn behind(&self) -> Behind
        ensures { result ≡ self.now.behind }
    {
        self.behind
    }

    /// A page that the pass took, by its place, None where there is none.
    pub fn page(&self, place: usize) -> Option<Taken>
        ensures { result ≡ taken_at self.now place }
    {
        self.taken.get(place).copied()
    }

    /// The page whose write-out has started, and has not ended. None where none has.
    pub fn sealing(&self) -> Option<Taken>
        ensures { result ≡ sealing_in self.now }
    {
        if let Aside::Going(one) = self.aside {
            return Some(one);
        }
        let Stage::Tries {
            next,
            form: Form::Sealing,
        } = self.stage
        else {
            return None;
        };
        self.taken.get(next).copied()
    }

    /// Within the kicks of a page, the processor of a place, None where there is none.
    pub fn kick_at(&self, place: usize) -> Option<Cpu>
        ensures { option_map number_of result ≡ slice_get self.now.kicks place }
    {
        self.kicks.get(place).copied()
    }

    // ---- an entry of the reclaimer

    /// Goes on with a look at a page. The driver is as it stands before it.
    pub fn look(&mut self, driver: &Driver, page: Page, look: Look)
        requires placed { IsPlaced driver.now.states.counts page }
        ensures { self.new ≡ looked driver.now page look self.old }
    {
        if let Aside::None = self.aside
            && is_own_page(page)
        {
            self.look_on(driver, page, look);
        }
        self.aside = aside_looked(driver, page, look);
        self.behind = behind_looked(page, look);
    }

    /// Goes on with an instruction, done or refused.
    pub fn instruct(&mut self, event: Event)
        ensures { self.new ≡ instructed event self.old }
    {
        if let Aside::None = self.aside {
            self.stage = after_instruction(self.stage, self.taken.len(), event);
        }
        self.aside = aside_instructed(self.aside, event);
        self.behind = behind_instructed(event);
    }

    /// Goes on with a kick. The first one of a page tells whom the others are of.
    pub fn kick(&mut self, machine: &Machine)
        ensures { self.new ≡ kicked machine.now self.old }
    {
        if let Aside::None = self.aside {
            self.kick_on(machine);
        }
        self.behind = Behind::Nothing;
    }

    /// Goes on with all kicks of a page, so many, of which none was made yet.
    pub fn kick_all(&mut self, count: u32)
        ensures { self.new ≡ all_kicked count self.old }
    {
        if let Stage::Tries {
            next,
            form: Form::Kick { epoch, .. },
        } = self.stage
        {
            let form = if count > 0 {
                Form::Third { epoch }
            } else {
                Form::Kick {
                    epoch,
                    is_made: true,
                }
            };
            self.stage = Stage::Tries { next, form };
        }
        if count > 0 {
            self.behind = Behind::Nothing;
        }
    }

    // ---- any entry

    /// Goes on with an entry of any actor. Driver and machine are as they stand before it. Behind it, it has to be settled whether the
    /// reclaimer works.
    pub fn note(&mut self, driver: &Driver, machine: &Machine, entry: &Entry)
        requires seen { IsSeen driver.now entry.now.actor entry.now.event }
        ensures { self.new ≡ gone_by driver.now machine.now entry.now.actor entry.now.event self.old }
    {
        if let Actor::Reclaimer = entry.actor {
            match entry.event {
                Event::Age { page, look } => self.look(driver, page, look),
                Event::Kick { .. } => self.kick(machine),
                Event::Did { .. } | Event::Refused { .. } | Event::Bus { .. } => {
                    self.instruct(entry.event);
                }
            }
        }
    }

    /// Settles whether the reclaimer works, where it is between two passes, by the job's marks and by how many frames are free.
    pub fn settle(&mut self, marks: Marks, free: u32)
        ensures { self.new ≡ decided marks free self.old }
    {
        if let Stage::Idle { works } = self.stage {
            let works = works_with(marks, free, works);
            self.stage = Stage::Idle { works };
        }
    }

    // ---- moves of a pass

    // A look, which is a pass' first between two passes.
    fn look_on(&mut self, driver: &Driver, page: Page, look: Look)
        requires placed { IsPlaced driver.now.states.counts page }
        ensures { self.new ≡ passed_on driver.now page look self.old }
    {
        match self.stage {
            Stage::Idle { .. } => {
                self.taken.clear();
                let left = driver.marks.scan.min(driver.active.len());
                self.look_with(driver, left, page, look);
            }
            Stage::Scan { left } => self.look_with(driver, left, page, look),
            _ => {}
        }
    }

    // One look, with so many left. A job's scan is short, so that there is room for each page that it takes.
    fn look_with(&mut self, driver: &Driver, left: u32, page: Page, look: Look)
        requires placed { IsPlaced driver.now.states.counts page }
        ensures { self.new ≡ looked_on driver.now left page look self.old }
    {
        if let Some(one) = taken_by(driver, page, look)
            && self.taken.len() < MOST
        {
            self.taken.push_reserved(one);
        }
        self.stage = after_look(left.saturating_sub(1), self.taken.len());
    }

    // A kick within the tries of a page.
    fn kick_on(&mut self, machine: &Machine)
        ensures { self.new ≡ kicked_on machine.now self.old }
    {
        let Stage::Tries { next, form } = self.stage else {
            return;
        };
        let Some(one) = self.taken.get(next).copied() else {
            return;
        };
        let (epoch, place) = match form {
            Form::Kick { epoch, .. } => {
                find_keepers(machine, one.page.enclave, epoch, &mut self.kicks);
                (epoch, 0)
            }
            Form::Kicks { epoch, next } => (epoch, next),
            _ => return,
        };
        let form = after_kick(epoch, place, self.kicks.len());
        self.stage = Stage::Tries { next, form };
    }
}
