//! What an entry does to the tables.

ghost use Rattle.std.specs.Prelude.{ℕ, ◌≡◌, ◌<◌, ◌^◌, length, IfSome};
ghost use Rattle.sgx_types.specs.declared.names.Page.{Page};
ghost use Rattle.script_rules.specs.inner.Cursor.{IsCursor};
ghost use Rattle.due_tables.specs.inner.CpuTurns.{turn_at};
ghost use Rattle.due_tables.specs.inner.Noting.{AreFew, IsAmong, IsBuilt, IsNoted, IsStepped, inits_after, page_left};
ghost use Rattle.due_tables.specs.inner.Noting.{saves_after, with_kick};
ghost use Rattle.due_tables.specs.inner.Noting.{with_own};
ghost use Rattle.due_tables.specs.inner.TcsTurns.{tcs_at};

use crate::cpu_turns::{CpuTurn, CpuTurns};
use crate::replies::{spends, turn_after};
use crate::tcs_turns::TcsTurns;
use crate::turns::Turns;
use cached_translations::processor::Mode;
use job_grammar::jobs::Job;
use script_rules::cursor::BuildCursor;
use sgx_rules::entries::{Action, Entry, Event};
use sgx_types::names::{Actor, Page};

impl Turns {
    /// Takes an entry of any actor into the tables. `before` is how the entry's processor stood before it, and counts for nothing where
    /// the entry is another actor's. That the tables go on to show what the entries say is a law, `noted_tables_show_their_entries`.
    #[inline(always)]
    pub fn note(&mut self, job: &Job, before: Mode, entry: &Entry)
        requires cursor { IsCursor job.now self.old.cursor }
        requires cpu { IsAmong (length self.old.cpus) entry.now.actor }
        requires few { AreFew self.old }
        ensures { IsNoted job.now self.old before entry.now self.new }
    {
        match (entry.actor, &entry.event) {
            // Most entries are accesses that are done. They are replies and no more.
            (
                Actor::Cpu(cpu),
                Event::Did {
                    action: Action::Load { .. } | Action::Store { .. } | Action::Xadd { .. },
                    ..
                },
            ) => {
                self.cpus.reply(cpu);
                self.last = Some(entry.actor);
            }
            _ => self.note_each(job, before, entry),
        }
    }

    // Notes an entry in each table.
    fn note_each(&mut self, job: &Job, before: Mode, entry: &Entry)
        requires cursor { IsCursor job.now self.old.cursor }
        requires cpu { IsAmong (length self.old.cpus) entry.now.actor }
        requires few { AreFew self.old }
        ensures { IsNoted job.now self.old before entry.now self.new }
    {
        note_saves(&mut self.tcs, &entry.event, left_by(entry.actor, before));
        note_own(&mut self.cpus, entry.actor, &entry.event, before);
        note_kick(&mut self.cpus, &entry.event);
        note_init(&mut self.inits, &entry.event);
        note_step(&mut self.cursor, job, entry.actor);
        self.last = Some(entry.actor);
        self.is_spent = spends(&entry.event) || self.is_spent;
        self.has_loss = matches!(entry.event, Event::Bus { .. }) || self.has_loss;
    }
}

// Which enclaves are initialised behind an event.
fn note_init(inits: &mut [bool; 9], event: &Event)
    requires { length inits.old ≡ 9 }
    ensures { inits.new ≡ inits_after event.now inits.old }
{
    if let Event::Did {
        action: Action::Init { enclave, .. },
        ..
    } = *event
    {
        if usize::from(enclave) < inits.len() {
            inits[usize::from(enclave)] = true;
        }
    }
}

// The TCS page by which the processor of an entry is inside before it.
fn left_by(actor: Actor, before: Mode) -> Option<Page>
    ensures { result ≡ page_left actor before }
{
    match (actor, before) {
        (Actor::Cpu(_), Mode::Inside { enclave, tcs, .. }) => Some(Page {
            enclave,
            number: tcs,
        }),
        _ => None,
    }
}

// An asynchronous exit takes a state save page of the TCS page by which the processor was inside, and a resumption gives one back.
fn note_saves(tcs: &mut TcsTurns, event: &Event, left: Option<Page>)
    requires { (g : Page) → IfSome (tcs_at tcs.old g) (λ turn. turn.saved < 2 ^ 63) }
    ensures { tcs.new ≡ saves_after event.now left tcs.old }
{
    let Event::Did { action, .. } = event else {
        return;
    };
    match action {
        Action::Aex { .. } => {
            if let Some(page) = left {
                tcs.save(page);
            }
        }
        Action::Resume {
            enclave,
            tcs: number,
            ..
        } => tcs.restore(Page {
            enclave: *enclave,
            number: *number,
        }),
        _ => {}
    }
}

// A kick is pending until its processor exits.
fn note_kick(cpus: &mut CpuTurns, event: &Event)
    ensures { cpus.new ≡ with_kick event.now cpus.old }
{
    if let Event::Kick { cpu } = *event {
        if usize::from(cpu.0) < cpus.len() {
            let turn = cpus.get(cpu);
            cpus.set(
                cpu,
                CpuTurn {
                    is_kicked: true,
                    ..turn
                },
            );
        }
    }
}

// What the entry says of its own processor.
fn note_own(cpus: &mut CpuTurns, actor: Actor, event: &Event, before: Mode)
    requires cpu { IsAmong (length cpus.old) actor }
    requires few { (p : ℕ) → (turn_at cpus.old p).replied < 2 ^ 63 }
    ensures { cpus.new ≡ with_own actor event.now before cpus.old }
{
    if let Actor::Cpu(cpu) = actor {
        let turn = turn_after(cpus.get(cpu), event, before);
        cpus.set(cpu, turn);
    }
}

// The steps that are left behind an entry. An entry of the builder is a step's.
fn note_step(cursor: &mut BuildCursor, job: &Job, actor: Actor)
    requires { IsCursor job.now cursor.old }
    ensures { IsBuilt job.now actor cursor.old cursor.new }
{
    match actor {
        Actor::Builder => *cursor = next_step(*cursor, job),
        Actor::Cpu(_) | Actor::Reclaimer => {}
    }
}

// One step fewer. Where none is left it stays so.
fn next_step(cursor: BuildCursor, job: &Job) -> BuildCursor
    requires { IsCursor job.now cursor }
    ensures { IsStepped job.now cursor result }
{
    let mut next = cursor;
    match next.next(job) {
        Some(_) => next,
        None => cursor,
    }
}
