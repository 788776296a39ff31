//! A machine is asked for an entry.

ghost use Rattle.std.specs.Prelude.{◌≡◌, ◌&&◌, not, true, false, MatchOption, IfOk, None, Some, length};
ghost use Rattle.sgx_rules.specs.declared.entries.Action.TheVariants as actions;
ghost use Rattle.sgx_rules.specs.Table.{is_loading};
ghost use Rattle.audit_machine.specs.inner.Asked.{IsDoneBack, is_processor};
ghost use Rattle.audit_machine.specs.inner.Kept.{IsKeptUnder, Records, kept_of, records_of, without_record};
ghost use Rattle.machine_laws.specs.inner.Steps.{is_of_cpus};
ghost use Rattle.sgx_machine.specs.inner.Parts.{state_of};
ghost use Rattle.script_rules.specs.Script.{action_of};
ghost use Rattle.audit_check.specs.inner.Asks.{CanCheck, IsAnswered, Loads};
ghost use Rattle.audit_check.specs.inner.Tests.{IsActor, is_commit, is_one_too_many, is_outsiders, load_of, page_moved, tells_page};

use audit_machine::asking::ask as ask_plain;
use audit_machine::coming::{bring, turn_away};
use audit_machine::leaving::{Out, ask_out};
use audit_machine::old_records::OldRecords;
use audit_machine::outside::ask_outside;
use history_rules::rules::Rule;
use seal_record::unseal::UnsealedWork;
use sgx_machine::machine::Machine;
use sgx_machine::starts::Start;
use sgx_rules::entries::{Action, Answer, Entry, Event};
use sgx_types::names::{Actor, Frame, Memory, Page};
use std::alloc::Global;

/// Asks a machine for an entry of a trace, and keeps or drops the record of the page that it moves. None where the entry keeps each of the
/// processor's rules; then machine and records stand for the longer list. Else the rule that it breaks first; nothing is said of machine
/// and records then. Constant time, but for the SHA-256 of a page that goes out and of an enclave's measurement. Memory is refused too
/// where a trace makes more version array pages than there are numbers for, 2^32.
pub fn ask(
    alloc: Global,
    machine: &mut Machine,
    records: &mut OldRecords,
    entry: &Entry,
) -> Result<Option<Rule>, Memory>
    requires actor { IsActor (length machine.old.cpus) entry.now.actor }
    requires can { CanCheck machine.old (records_of records.old) }
    ensures answer { IfOk result (λ broken. (can : CanCheck machine.old (records_of records.old))
        → IsAnswered can.j can.cpus can.past machine.old entry.now machine.new (records_of records.new) broken) }
    ensures cpus { length machine.new.cpus ≡ length machine.old.cpus }
{
    let Some(action) = action_of(&entry.event) else {
        machine.note(entry);
        return Ok(None);
    };
    ask_action(alloc, machine, records, entry, &action)
}

// Asks for an entry of an instruction.
fn ask_action(
    alloc: Global,
    machine: &mut Machine,
    records: &mut OldRecords,
    entry: &Entry,
    action: &Action,
) -> Result<Option<Rule>, Memory>
    requires own { action_of entry.now.event ≡ Some action.now }
    requires actor { IsActor (length machine.old.cpus) entry.now.actor }
    requires can { CanCheck machine.old (records_of records.old) }
    ensures answer { IfOk result (λ broken. (can : CanCheck machine.old (records_of records.old))
        → IsAnswered can.j can.cpus can.past machine.old entry.now machine.new (records_of records.new) broken) }
    ensures cpus { length machine.new.cpus ≡ length machine.old.cpus }
{
    match *action {
        Action::Ewb { frame } => ask_leaving(alloc, machine, records, entry, frame),
        Action::Eld { frame } => ask_coming(alloc, machine, records, entry, frame),
        _ => ask_row(alloc, machine, entry, action),
    }
}

// Asks for an entry of an instruction that is not the end of a write-out or of a load.
fn ask_row(
    alloc: Global,
    machine: &mut Machine,
    entry: &Entry,
    action: &Action,
) -> Result<Option<Rule>, Memory>
    requires own { action_of entry.now.event ≡ Some action.now }
    requires row { is_commit action.now ≡ false }
    requires actor { IsActor (length machine.old.cpus) entry.now.actor }
    ensures answer { IfOk result (λ broken. (kept : Records) (can : CanCheck machine.old kept)
        → IsAnswered can.j can.cpus can.past machine.old entry.now machine.new kept broken) }
    ensures cpus { length machine.new.cpus ≡ length machine.old.cpus }
{
    if is_outsiders(machine.cpus(), entry.actor, action) {
        return Ok(ask_outside(machine, entry, action));
    }
    if is_one_too_many(machine.arrays_made(), action) {
        return Err(Memory);
    }
    ask_plain(alloc, machine, entry, action)
}

// Asks for an entry of the end of a write-out.
fn ask_leaving(
    alloc: Global,
    machine: &mut Machine,
    records: &mut OldRecords,
    entry: &Entry,
    frame: Frame,
) -> Result<Option<Rule>, Memory>
    requires own { action_of entry.now.event ≡ Some (actions.Ewb frame) }
    requires can { CanCheck machine.old (records_of records.old) }
    ensures answer { IfOk result (λ broken. (can : CanCheck machine.old (records_of records.old))
        → IsAnswered can.j can.cpus can.past machine.old entry.now machine.new (records_of records.new) broken) }
    ensures cpus { length machine.new.cpus ≡ length machine.old.cpus }
{
    match ask_out(alloc, machine, entry, frame)? {
        Out::Broken(rule) => Ok(Some(rule)),
        Out::Gone(work) => {
            if let Some(page) = page_moved(&entry.event) {
                records.keep(page, work)?;
            }
            Ok(None)
        }
    }
}

// Asks for an entry of the end of a load. No page comes back, and none is turned away, for which the frame does not wait.
fn ask_coming(
    alloc: Global,
    machine: &mut Machine,
    records: &mut OldRecords,
    entry: &Entry,
    frame: Frame,
) -> Result<Option<Rule>, Memory>
    requires own { action_of entry.now.event ≡ Some (actions.Eld frame) }
    requires can { CanCheck machine.old (records_of records.old) }
    ensures answer { IfOk result (λ broken. (can : CanCheck machine.old (records_of records.old))
        → IsAnswered can.j can.cpus can.past machine.old entry.now machine.new (records_of records.new) broken) }
    ensures cpus { length machine.new.cpus ≡ length machine.old.cpus }
{
    if !machine.is_coming(frame) {
        return Ok(Some(Rule::Refusal));
    }
    let Some((page, version)) = load_of(machine.open_start(frame)) else {
        return Ok(Some(Rule::Refusal));
    };
    match &entry.event {
        Event::Refused { why, .. } => turn_away(alloc, machine, entry.actor, frame, why),
        _ => Ok(bring_back(machine, records, entry, frame, page, version)),
    }
}

// Asks for an entry of a load that was done: what comes back is the page that the frame waits for, with the record with which it went out
// last.
fn bring_back(
    machine: &mut Machine,
    records: &mut OldRecords,
    entry: &Entry,
    frame: Frame,
    page: Page,
    version: u64,
) -> Option<Rule>
    requires done { IsDoneBack entry.now.event frame }
    requires coming { is_loading ((state_of machine.old).content frame.0) ≡ true }
    requires loads { Loads (state_of machine.old) frame.0 page version }
    requires can { CanCheck machine.old (records_of records.old) }
    ensures answer { (can : CanCheck machine.old (records_of records.old))
        → IsAnswered can.j can.cpus can.past machine.old entry.now machine.new (records_of records.new) result }
    ensures cpus { length machine.new.cpus ≡ length machine.old.cpus }
{
    if !tells_page(&entry.event, page) {
        return Some(Rule::Refusal);
    }
    let Some(work) = take_under(records, page, version) else {
        return Some(Rule::Fresh);
    };
    bring(machine, entry, frame, work)
}

// Takes the record out that is kept for a page, if one is, and it was made under this version.
fn take_under(records: &mut OldRecords, page: Page, version: u64) -> Option<UnsealedWork>
    ensures taken { MatchOption result (IsKeptUnder version (records_of records.old page) → ⊥)
        (λ work. (work.version ≡ version) × (records_of records.old page ≡ Some (kept_of work))) }
    ensures gone { records_of records.new ≡ without_record (records_of records.old) page }
{
    let work = records.take(page)?;
    if work.version == version {
        Some(work)
    } else {
        None
    }
}

// The instruction of an entry, done or refused.
fn action_of(event: &Event) -> Option<Action>
    ensures { result ≡ action_of event.now }
{
    match *event {
        Event::Did { action, .. } | Event::Refused { action, .. } => Some(action),
        _ => None,
    }
}

// An instruction of processors by who is none of them.
fn is_outsiders(cpus: u8, actor: Actor, action: &Action) -> bool
    ensures { result ≡ is_outsiders cpus actor action.now }
{
    is_of_cpus(action) && !is_processor(cpus, actor)
}

fn is_processor(cpus: u8, actor: Actor) -> bool
    ensures { result ≡ is_processor cpus actor }
{
    match actor {
        Actor::Cpu(cpu) => cpu.0 < cpus,
        _ => false,
    }
}

// An instruction of processors alone.
fn is_of_cpus(action: &Action) -> bool
    ensures { result ≡ is_of_cpus action.now }
{
    matches!(
        action,
        Action::Enter { .. }
            | Action::Resume { .. }
            | Action::Exit
            | Action::Aex { .. }
            | Action::Fill { .. }
            | Action::Load { .. }
            | Action::Store { .. }
            | Action::Xadd { .. }
            | Action::Set { .. }
            | Action::Plus { .. }
            | Action::Pf { .. }
            | Action::OutLoad { .. }
            | Action::OutStore { .. }
    )
}

// One version array page more than can be numbered.
fn is_one_too_many(made: u64, action: &Action) -> bool
    ensures { result ≡ is_one_too_many made action.now }
{
    matches!(action, Action::Epa { .. }) && !(made < 1 << 32)
}

// The page that an event tells of as moved.
fn page_moved(event: &Event) -> Option<Page>
    ensures { result ≡ page_moved event.now }
{
    match *event {
        Event::Did {
            answer: Answer::Moved { page, .. },
            ..
        } => Some(page),
        _ => None,
    }
}

// Whether an event tells of this page as moved.
fn tells_page(event: &Event, page: Page) -> bool
    ensures { result ≡ tells_page event.now page }
{
    match *event {
        Event::Did {
            answer: Answer::Moved { page: moved, .. },
            ..
        } => moved == page,
        _ => false,
    }
}

// The page that a start loads, and the version that it found.
fn load_of(start: Option<Start>) -> Option<(Page, u64)>
    ensures { result ≡ load_of start }
{
    let start = start?;
    let page = start.loads?;
    Some((page, start.version))
}
