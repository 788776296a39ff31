//! One instruction, by its row.

ghost use Rattle.machine_laws.specs.inner.State.{making_of};
ghost use Rattle.std.specs.Prelude.{◌≡◌, IfOk, OnErr, length, List, ◌∷◌};
ghost use Rattle.sgx_rules.specs.declared.entries.Entry.{Entry};
ghost use Rattle.sgx_machine.specs.inner.Parts.{state_of};
ghost use Rattle.sgx_rules.specs.inner.Rules.{LoadsAwayRule};
ghost use Rattle.sgx_types.specs.Making.{Making};
ghost use Rattle.machine_laws.specs.inner.Shape.{ShapeWithRules, FitsApart};
ghost use Rattle.seal_record.specs.Records.{Made};
ghost use Rattle.machine_laws.specs.inner.Columns.{HasAllVersions};
ghost use Rattle.machine_laws.specs.inner.Histories.{StandsWithAllRules};
ghost use Rattle.machine_laws.specs.inner.Steps.{IsStep, CanApply, CanMove, MayNeedMemory, did_by, refused_by};

use crate::machine::Machine;
use sgx_rules::entries::{Action, Answer, Entry, Event};
use sgx_rules::refusals::Refusal;
use sgx_types::names::{Actor, Memory, Page};
use std::alloc::Global;

impl Machine {
    /// One instruction but the commits of EWB and ELDU: its entry says whether it was done, with its answer, or refused,
    /// with the first case of its row in this project's instruction table that holds. A refusal changes nothing. Memory
    /// may be refused to `epa` and `create` alone. Fewer than 2^32 version array pages are made.
    pub fn apply(&mut self, alloc: Global, actor: Actor, action: &Action) -> Result<Entry, Memory>
        requires can_apply { CanApply (length self.old.cpus) actor action.now }
        requires can_move { CanMove (state_of self.old) action.now }
        ensures step { IfOk result (λ e. IsStep (state_of self.old) actor action.now e (state_of self.new)) }
        ensures shape { IfOk result (λ e. (making : Making) (past : List Entry) → ShapeWithRules making (state_of self.old) past
            → ShapeWithRules making (state_of self.new) (e ∷ past)) }
        ensures fits { IfOk result (λ e. (making : Making) (past : List Entry) → ShapeWithRules making (state_of self.old) past
            → LoadsAwayRule past e →
            FitsApart making.frames past → FitsApart making.frames (e ∷ past)) }
        // The slots of version array pages have the versions that the entries say, whatever records were brought.
        ensures arrays { IfOk result (λ e. (making : Making) (past : List Entry) → ShapeWithRules making (state_of self.old) past →
            HasAllVersions (state_of self.old) past → HasAllVersions (state_of self.new) (e ∷ past)) }
        ensures history { IfOk result (λ e. (making : Making) (past : List Entry) (records : List Made) →
            StandsWithAllRules making (state_of self.old) past records → StandsWithAllRules making (state_of self.new) (e ∷ past) records) }
        ensures memory { OnErr result (MayNeedMemory action.now) }
        ensures refused { OnErr result (self.new ≡ self.old) }
        ensures making { making_of (state_of self.new) ≡ making_of (state_of self.old) }
        ensures cpus { length self.new.cpus ≡ length self.old.cpus }
    {
        // There are 16 processors at most, before the instruction and after it.
        prove!(self.cpus.len() <= 16);
        let entry = self.row(alloc, actor, action)?;
        prove!(self.cpus.len() <= 16);
        Ok(entry)
    }

    /// The instruction by its row. The rows stand out of line: a call then sets up the locals of one row, and not of each.
    fn row(&mut self, alloc: Global, actor: Actor, action: &Action) -> Result<Entry, Memory>
        requires can_apply { CanApply (length self.old.cpus) actor action.now }
        requires can_move { CanMove (state_of self.old) action.now }
        ensures step { IfOk result (λ e. IsStep (state_of self.old) actor action.now e (state_of self.new)) }
        ensures memory { OnErr result (MayNeedMemory action.now) }
        ensures refused { OnErr result (self.new ≡ self.old) }
        ensures cpus { length self.new.cpus ≡ length self.old.cpus }
    {
        let entry = match (actor, action) {
            (_, Action::Epa { frame }) => self.epa(alloc, actor, *frame)?,
            (
                _,
                Action::Create {
                    enclave,
                    frame,
                    base,
                    size,
                },
            ) => { self.create(alloc, actor, *enclave, *frame, *base, *size)? }
            (
                _,
                Action::Add {
                    enclave,
                    number,
                    frame,
                    kind,
                    perm,
                    init,
                },
            ) => {
                self.add(
                    actor,
                    Page {
                        enclave: *enclave,
                        number: *number,
                    },
                    *frame,
                    *kind,
                    *perm,
                    *init,
                )
            }
            (_, Action::Extend { frame, chunk }) => self.extend(actor, *frame, *chunk),
            (_, Action::Init { enclave, expect }) => self.init(actor, *enclave, *expect),
            (_, Action::Block { frame }) => self.block(actor, *frame),
            (_, Action::Track { enclave }) => self.track(actor, *enclave),
            (_, Action::EwbStart { frame, slot }) => self.ewb_start(actor, *frame, *slot),
            (_, Action::EldStart { frame, page, slot }) => self.eld_start(
                actor, *frame, *page, *slot,
            ),
            (
                Actor::Cpu(cpu),
                Action::Enter {
                    enclave,
                    tcs,
                    tcs_frame,
                    ssa_frame,
                },
            ) => { self.enter(cpu, *enclave, *tcs, *tcs_frame, *ssa_frame) }
            (
                Actor::Cpu(cpu),
                Action::Resume {
                    enclave,
                    tcs,
                    tcs_frame,
                    ssa_frame,
                },
            ) => { self.resume(cpu, *enclave, *tcs, *tcs_frame, *ssa_frame) }
            (Actor::Cpu(cpu), Action::Exit) => self.exit(cpu),
            (Actor::Cpu(cpu), Action::Aex { cause }) => self.aex(cpu, *cause),
            (Actor::Cpu(cpu), Action::Fill { number, frame }) => self.fill(cpu, *number, *frame),
            (Actor::Cpu(cpu), Action::Load { off }) => self.load(cpu, *off),
            (Actor::Cpu(cpu), Action::Store { off, value }) => self.store(cpu, *off, *value),
            (Actor::Cpu(cpu), Action::Xadd { off, value }) => self.xadd(cpu, *off, *value),
            (Actor::Cpu(cpu), Action::Set { value }) => self.set(cpu, *value),
            (Actor::Cpu(cpu), Action::Plus { value }) => self.plus(cpu, *value),
            (Actor::Cpu(cpu), Action::Pf { op, off }) => self.pf(cpu, *op, *off),
            (Actor::Cpu(cpu), Action::OutLoad { enclave, off }) => self.outload(
                cpu, *enclave, *off,
            ),
            (
                Actor::Cpu(cpu),
                Action::OutStore {
                    enclave,
                    off,
                    value,
                },
            ) => { self.outstore(cpu, *enclave, *off, *value) }
            _ => unreachable!(),
        };
        Ok(entry)
    }
}

pub(crate) fn done(actor: Actor, action: Action, answer: Answer) -> Entry
    ensures { result ≡ did_by actor action answer }
{
    Entry {
        actor,
        event: Event::Did { action, answer },
    }
}

pub(crate) fn refused(actor: Actor, action: Action, refusal: Refusal) -> Entry
    ensures { result ≡ refused_by actor action refusal }
{
    Entry {
        actor,
        event: Event::Refused {
            action,
            why: refusal,
        },
    }
}
