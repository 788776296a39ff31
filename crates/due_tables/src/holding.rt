//! The holds behind an entry.

ghost use Rattle.std.specs.Prelude.{◌≡◌, ◌<◌, ◌∷◌, length, map, IfSome};
ghost use Rattle.driver_list.specs.inner.Active.{without_holds};
ghost use Rattle.driver_list.specs.inner.Holds.{holder_of};
ghost use Rattle.script_rules.specs.inner.Cursor.{IsCursor};
ghost use Rattle.script_rules.specs.Script.{action_of};
ghost use Rattle.due_tables.specs.inner.Asked.{here_seen, op_at};
ghost use Rattle.due_tables.specs.inner.Holding.{CanHold, FitsAll, FitsEntry, FitsHold, FitsNext, FitsOwn, KeepsHolds};
ghost use Rattle.due_tables.specs.inner.Holding.{access_inside_of, array_held, aside_held, brought, if_here};
ghost use Rattle.due_tables.specs.inner.Holding.{enter_needs, held_after, held_of, holding, holding_all, loads_held};
ghost use Rattle.due_tables.specs.inner.Holding.{measured_next, mode_of};
ghost use Rattle.due_tables.specs.inner.Holding.{needed_of, one_held, own_after, own_held, page_inside_of, replies};
ghost use Rattle.due_tables.specs.inner.Holding.{resume_needs};
ghost use Rattle.due_tables.specs.inner.Noting.{IsAmong};
ghost use Rattle.due_tables.specs.inner.TcsTurns.{rows, tcs_at};

use crate::asking::op_at;
use crate::cpu_turns::{CpuTurn, Interruption};
use crate::operations::access_page;
use crate::turns::Turns;
use cached_translations::processor::Mode;
use driver_list::active::Active;
use driver_list::page_states::PageStates;
use job_grammar::jobs::{Job, Op};
use script_rules::replies::is_reply;
use script_rules::steps::BuildStep;
use sgx_machine::machine::Machine;
use sgx_rules::entries::{Action, Cause, Entry, Event};
use sgx_types::names::{Actor, Cpu, Page, SECS_NUMBER};

/// The pages that a processor begins to hold by an entry, at most three.
#[derive(Clone, Copy)]
pub(crate) struct HeldPages {
    pub first: Option<Page>,
    pub second: Option<Page>,
    pub third: Option<Page>,
}

/// The TCS page and the state save page that a processor outside needs.
#[derive(Clone, Copy)]
pub(crate) struct Needed {
    pub tcs: Page,
    pub save: Option<Page>,
}

const NO_PAGES: HeldPages = HeldPages {
    first: None,
    second: None,
    third: None,
};

impl Turns {
    /// The holds behind an entry, before the entry is noted here. `before` is how the entry's processor stood before it, and counts for
    /// nothing where the entry is another actor's. The holds of a processor end with its reply; else it begins to hold the page whose
    /// translation it takes, the page for which it left, a page that it brings back with those that it needs before it, and the TCS
    /// page and the state save page by which it resumes. The builder holds the page that it measures next.
    /// Before a SECS or a version array page, which is brought back for a page that it needs, those are the ones that are here by
    /// `states`; no SECS is held.
    #[inline(always)]
    pub fn hold(
        &self,
        job: &Job,
        states: &PageStates,
        active: &mut Active,
        before: Mode,
        entry: &Entry,
    )
        requires { CanHold job.now states.now active.old before self.now entry.now }
        ensures holds { (can : CanHold job.now states.now active.old before self.now entry.now)
            → KeepsHolds job.now active.new.own (entry.now ∷ can.past) }
        ensures others { active.new ≡ record active.old { own = active.new.own } }
    {
        self.hold_by(job, states, active, before, entry);
    }

    // Each actor has its own holds; the reclaimer has none.
    fn hold_by(
        &self,
        job: &Job,
        states: &PageStates,
        active: &mut Active,
        before: Mode,
        entry: &Entry,
    )
        requires { FitsEntry job.now states.now self.now before entry.now.actor entry.now.event active.old }
        ensures { active.new ≡ held_after job.now states.now self.now before entry.now.actor entry.now.event active.old }
    {
        match entry.actor {
            Actor::Builder => self.hold_next(job, active),
            Actor::Cpu(cpu) => self.hold_own(job, states, active, cpu, before, &entry.event),
            Actor::Reclaimer => {}
        }
    }

    // The holds of a processor end with each reply, and else some begin.
    fn hold_own(
        &self,
        job: &Job,
        states: &PageStates,
        active: &mut Active,
        cpu: Cpu,
        before: Mode,
        event: &Event,
    )
        requires { FitsOwn job.now states.now self.now before cpu.0 event.now active.old }
        ensures { active.new ≡ own_after (replies self.now cpu.0 event.now) active.old cpu.0
            (own_held job.now states.now self.now cpu.0 before event.now) }
    {
        let turn = self.cpus.get(cpu);
        if is_reply(turn.interruption.is_some(), event) {
            active.drop_holds(Actor::Cpu(cpu));
            return;
        }
        let held = self.held_by(job, states, cpu, turn, before, event);
        hold_all(active, cpu, held);
    }

    // Behind an entry of the builder it holds the page that it measures next.
    fn hold_next(&self, job: &Job, active: &mut Active)
        requires { FitsNext job.now self.now active.old }
        ensures { active.new ≡ holding (without_holds active.old 16) 16 (measured_next job.now self.now) }
    {
        let next = self.measured_next(job);
        active.drop_holds(Actor::Builder);
        hold_page(active, Actor::Builder, next);
    }

    // The page that the builder measures behind its next step.
    fn measured_next(&self, job: &Job) -> Option<Page>
        requires { IsCursor job.now self.now.cursor }
        ensures { result ≡ measured_next job.now self.now }
    {
        let mut cursor = self.cursor;
        cursor.next(job)?;
        match cursor.next(job) {
            Some(
                BuildStep::Extend {
                    enclave,
                    number,
                    ..
                },
            ) => Some(Page { enclave, number }),
            _ => None,
        }
    }

    // What a processor, which stood so before it, begins to hold by an entry.
    fn held_by(
        &self,
        job: &Job,
        states: &PageStates,
        cpu: Cpu,
        turn: CpuTurn,
        before: Mode,
        event: &Event,
    ) -> HeldPages
        requires { map length self.now.tcs ≡ rows states.now.counts }
        ensures { result ≡ held_of (here_seen states.now self.now) (tcs_at self.now.tcs) before turn.interruption
            (op_at job.now cpu.0 turn.replied) (action_of event.now) }
    {
        let Some(action) = action_of(event) else {
            return NO_PAGES;
        };
        let op = op_at(job, cpu, turn.replied);
        self.held_of(states, turn.interruption, op, before, &action)
    }

    fn held_of(
        &self,
        states: &PageStates,
        interruption: Option<Interruption>,
        op: Option<Op>,
        before: Mode,
        action: &Action,
    ) -> HeldPages
        requires { map length self.now.tcs ≡ rows states.now.counts }
        ensures { result ≡ held_of (here_seen states.now self.now) (tcs_at self.now.tcs) before interruption op (Some action.now) }
    {
        match *action {
            Action::Fill { number, .. } => one_held(page_inside(before, number)),
            Action::Aex {
                cause: Cause::Fault,
            } => one_held(access_inside(before, op)),
            Action::EldStart { page, .. } => {
                self.brought(states, self.needed(interruption, op), page)
            }
            Action::Resume { enclave, tcs, .. } => {
                let needed = self.resume_needs(enclave, tcs);
                HeldPages {
                    first: Some(needed.tcs),
                    second: needed.save,
                    third: None,
                }
            }
            _ => NO_PAGES,
        }
    }

    // A page that it brings back, with those that it needs before it.
    fn brought(&self, states: &PageStates, needed: Option<Needed>, page: Page) -> HeldPages
        requires { map length self.now.tcs ≡ rows states.now.counts }
        ensures { result ≡ brought (here_seen states.now self.now) needed page }
    {
        if page.enclave != 0 && page.number != SECS_NUMBER {
            loads_held(needed, page)
        } else {
            self.aside_held(states, needed, page)
        }
    }

    // .. which is a SECS or a version array page, with those that are here. No SECS is held.
    fn aside_held(&self, states: &PageStates, needed: Option<Needed>, page: Page) -> HeldPages
        requires { map length self.now.tcs ≡ rows states.now.counts }
        ensures { result ≡ aside_held (here_seen states.now self.now) needed page }
    {
        let third = array_held(page);
        if let Some(needed) = needed {
            if self.is_here(states, needed.tcs) {
                return HeldPages {
                    first: Some(needed.tcs),
                    second: self.if_here(states, needed.save),
                    third,
                };
            }
        }
        HeldPages {
            first: None,
            second: None,
            third,
        }
    }

    // Whether a page is here.
    fn is_here(&self, states: &PageStates, page: Page) -> bool
        requires { map length self.now.tcs ≡ rows states.now.counts }
        ensures { result ≡ here_seen states.now self.now page }
    {
        self.frame_by(states, page).is_some()
    }

    // A page where it is here.
    fn if_here(&self, states: &PageStates, page: Option<Page>) -> Option<Page>
        requires { map length self.now.tcs ≡ rows states.now.counts }
        ensures { result ≡ if_here (here_seen states.now self.now) page }
    {
        match page {
            Some(page) => {
                if self.is_here(states, page) {
                    Some(page)
                } else {
                    None
                }
            }
            None => None,
        }
    }

    // The TCS page and the state save page that a processor outside needs.
    fn needed(&self, interruption: Option<Interruption>, op: Option<Op>) -> Option<Needed>
        ensures { result ≡ needed_of (tcs_at self.now.tcs) interruption op }
    {
        if let Some(i) = interruption {
            return Some(self.resume_needs(i.enclave, i.tcs));
        }
        match op {
            Some(Op::Enter { enclave, tcs }) => Some(self.enter_needs(enclave, tcs)),
            Some(Op::Resume { enclave, tcs }) => Some(self.resume_needs(enclave, tcs)),
            _ => None,
        }
    }

    fn enter_needs(&self, enclave: u16, tcs: u32) -> Needed
        ensures { result ≡ enter_needs (tcs_at self.now.tcs) enclave tcs }
    {
        let tcs = Page {
            enclave,
            number: tcs,
        };
        Needed {
            tcs,
            save: self.next_save(tcs),
        }
    }

    fn resume_needs(&self, enclave: u16, tcs: u32) -> Needed
        ensures { result ≡ resume_needs (tcs_at self.now.tcs) enclave tcs }
    {
        let tcs = Page {
            enclave,
            number: tcs,
        };
        Needed {
            tcs,
            save: self.last_save(tcs),
        }
    }
}

/// How an actor stands before its entry, outside where it is no processor.
pub fn mode_of(machine: &Machine, actor: Actor) -> Mode
    requires { IsAmong (length machine.now.cpus) actor }
    ensures { result ≡ mode_of machine.now actor }
{
    match actor {
        Actor::Cpu(cpu) => machine.mode(cpu),
        Actor::Builder | Actor::Reclaimer => Mode::Outside,
    }
}

// Holds a page, if there is one.
fn hold_page(active: &mut Active, who: Actor, page: Option<Page>)
    requires holder { holder_of who < 17 }
    requires fits { IfSome page (FitsHold active.old (holder_of who)) }
    ensures { active.new ≡ holding active.old (holder_of who) page }
{
    if let Some(page) = page {
        active.hold(who, page);
    }
}

// Holds these pages for a processor.
fn hold_all(active: &mut Active, cpu: Cpu, held: HeldPages)
    requires holder { cpu.0 < 16 }
    requires fits { FitsAll active.old cpu.0 held }
    ensures { active.new ≡ holding_all active.old cpu.0 held }
{
    hold_page(active, Actor::Cpu(cpu), held.first);
    hold_page(active, Actor::Cpu(cpu), held.second);
    hold_page(active, Actor::Cpu(cpu), held.third);
}

/// The instruction of an entry, done or refused.
pub fn action_of(event: &Event) -> Option<Action>
    ensures { result ≡ action_of event.now }
{
    match *event {
        Event::Did { action, .. } | Event::Refused { action, .. } => Some(action),
        _ => None,
    }
}

fn one_held(page: Option<Page>) -> HeldPages
    ensures { result ≡ one_held page }
{
    HeldPages {
        first: page,
        second: None,
        third: None,
    }
}

// The page of a number in the enclave that the processor is inside.
fn page_inside(before: Mode, number: u32) -> Option<Page>
    ensures { result ≡ page_inside_of before number }
{
    match before {
        Mode::Outside => None,
        Mode::Inside { enclave, .. } => Some(Page { enclave, number }),
    }
}

// The page of its access.
fn access_inside(before: Mode, op: Option<Op>) -> Option<Page>
    ensures { result ≡ access_inside_of before op }
{
    match (before, op) {
        (Mode::Inside { enclave, .. }, Some(op)) => access_page(enclave, op),
        _ => None,
    }
}

// A version array page that it brings back.
fn array_held(page: Page) -> Option<Page>
    ensures { result ≡ array_held page }
{
    if page.enclave == 0 { Some(page) } else { None }
}

// A TCS or REG page that it brings back, with those that it needs before it.
fn loads_held(needed: Option<Needed>, page: Page) -> HeldPages
    ensures { result ≡ loads_held needed page }
{
    let Some(needed) = needed else {
        return HeldPages {
            first: None,
            second: None,
            third: Some(page),
        };
    };
    HeldPages {
        first: Some(needed.tcs),
        second: if page == needed.tcs {
            None
        } else {
            needed.save
        },
        third: Some(page),
    }
}
