//! The rows that make version array pages and build enclaves.

ghost use Rattle.std.specs.Prelude.{◌≡◌, ◌<◌, ◌^◌, true, None, Some, IfOk, OnOk, OnErr, is_some, length};
ghost use Rattle.sgx_types.specs.Cases.{first_of_row, when, ◌otherwise◌, allowed};
ghost use Rattle.sgx_rules.specs.Table.{epa_row};
ghost use Rattle.sgx_rules.specs.declared.refusals.Refusal.TheVariants as why;
ghost use Rattle.epcm_entry.specs.inner.Sights.{sight_in};
ghost use Rattle.sgx_rules.specs.declared.entries.Action.TheVariants as actions;
ghost use Rattle.sgx_machine.specs.inner.Parts.{state_of};
ghost use Rattle.machine_laws.specs.inner.Stands.{IsSound};
ghost use Rattle.machine_laws.specs.inner.State.{sight, after_epa};
ghost use Rattle.machine_laws.specs.inner.Steps.{CanMove, IsStep};

use crate::apply::{done, refused};
use crate::machine::Machine;
use enclave_build::add::eadd;
use enclave_build::build_refusal::BuildRefusal;
use enclave_build::create::ecreate;
use enclave_build::init::einit;
use epcm_entry::epc::Epc;
use sgx_rules::entries::{Action, Answer, Entry};
use sgx_rules::refusals::Refusal;
use sgx_types::lawful::PageInit;
use sgx_types::names::{Actor, Frame, Kind, Memory, Page, Perm};
use std::alloc::Global;

impl Machine {
    /// A free frame becomes a version array page (Intel SDM volume 3D, EPA).
    #[inline(never)]
    pub(crate) fn epa(&mut self, alloc: Global, actor: Actor, frame: Frame) -> Result<Entry, Memory>
        requires { CanMove (state_of self.old) (actions.Epa frame) }
        ensures step { IfOk result (λ e. IsStep (state_of self.old) actor (actions.Epa frame) e (state_of self.new)) }
        ensures refused { OnErr result (self.new ≡ self.old) }
        ensures cpus { length self.new.cpus ≡ length self.old.cpus }
    {
        let action = Action::Epa { frame };
        if let Some(refusal) = self.epa_refusal(frame) {
            return Ok(refused(actor, action, refusal));
        }
        let number = self.set_va(alloc, frame)?;
        Ok(done(actor, action, Answer::Va(number)))
    }

    /// The first case that holds of the row of `epa`.
    fn epa_refusal(&self, frame: Frame) -> Option<Refusal>
        ensures row { result ≡ first_of_row (epa_row (sight (state_of self.now) frame.0)) }
        ensures sound { IsSound (state_of self.now) }
    {
        if frame.0 >= self.frames() {
            return Some(Refusal::BadRange);
        }
        let entry = self.epc.entry(frame);
        if entry.is_busy() {
            return Some(Refusal::Conflict);
        }
        if entry.is_valid() {
            return Some(Refusal::FrameBusy);
        }
        None
    }

    /// Makes a free frame a version array page, with 512 empty slots. Answers its number.
    fn set_va(&mut self, alloc: Global, frame: Frame) -> Result<u32, Memory>
        requires row { first_of_row (epa_row (sight (state_of self.old) frame.0)) ≡ None }
        requires few { (state_of self.old).vas_made < 2 ^ 32 }
        ensures number { IfOk result (λ number. number ≡ (state_of self.old).vas_made) }
        ensures done { OnOk result (state_of self.new ≡ after_epa (state_of self.old) frame.0) }
        ensures refused { OnErr result (self.new ≡ self.old) }
        ensures cpus { length self.new.cpus ≡ length self.old.cpus }
    {
        let made = self.va.made();
        self.va.epa(alloc, frame)?;
        // Its number, by how many were made before it. It is of no enclave.
        let number = made as u32;
        let page = Page { enclave: 0, number };
        self.epc.set(frame, page, Kind::Va, Perm::NONE);
        Ok(number)
    }

    /// A free frame becomes the SECS of a new enclave, whose measurement begins (ECREATE).
    #[inline(never)]
    pub(crate) fn create(
        &mut self,
        alloc: Global,
        actor: Actor,
        enclave: u16,
        frame: Frame,
        base: u64,
        size: u64,
    ) -> Result<Entry, Memory>
        ensures step { IfOk result (λ e. IsStep (state_of self.old) actor (actions.Create enclave frame base size) e (state_of self.new)) }
        ensures refused { OnErr result (self.new ≡ self.old) }
        ensures cpus { length self.new.cpus ≡ length self.old.cpus }
    {
        let action = Action::Create {
            enclave,
            frame,
            base,
            size,
        };
        let exists = self.is_created(enclave);
        match ecreate(alloc, &mut self.epc, exists, frame, enclave, base, size) {
            Ok((secs, measure)) => {
                self.secs.insert(secs);
                self.measures[usize::from(enclave)] = Some(measure);
                Ok(done(actor, action, Answer::Plain))
            }
            Err(BuildRefusal::Refused(refusal)) => Ok(refused(actor, action, refusal)),
            Err(BuildRefusal::Memory) => Err(Memory),
        }
    }

    fn is_created(&self, enclave: u16) -> bool
        ensures { result ≡ is_some ((state_of self.now).enclaves enclave) }
    {
        self.secs.get(enclave).is_some()
    }

    /// A free frame becomes a page of an enclave that is not initialised (EADD).
    #[inline(never)]
    pub(crate) fn add(
        &mut self,
        actor: Actor,
        page: Page,
        frame: Frame,
        kind: Kind,
        perm: Perm,
        init: PageInit,
    ) -> Entry
        ensures step { IsStep (state_of self.old) actor (actions.Add page.enclave page.number frame kind perm init) result
            (state_of self.new) }
        ensures cpus { length self.new.cpus ≡ length self.old.cpus }
    {
        let action = Action::Add {
            enclave: page.enclave,
            number: page.number,
            frame,
            kind,
            perm,
            init,
        };
        let Some(secs) = self.secs.get_mut(page.enclave) else {
            return refused(actor, action, absent(&self.epc, frame));
        };
        let measure = self.measures[usize::from(page.enclave)].as_mut().unwrap();
        match eadd(
            &mut self.epc,
            secs,
            measure,
            page.number,
            frame,
            kind,
            perm,
            init,
        ) {
            Ok(()) => done(actor, action, Answer::Plain),
            Err(refusal) => refused(actor, action, refusal),
        }
    }

    /// An enclave is initialised, and answers its measurement (EINIT).
    #[inline(never)]
    pub(crate) fn init(&mut self, actor: Actor, enclave: u16, expect: Option<[u8; 32]>) -> Entry
        ensures step { IsStep (state_of self.old) actor (actions.Init enclave expect) result (state_of self.new) }
        ensures cpus { length self.new.cpus ≡ length self.old.cpus }
    {
        let action = Action::Init { enclave, expect };
        let Some(secs) = self.secs.get_mut(enclave) else {
            return refused(actor, action, Refusal::Absent);
        };
        let measure = self.measures[usize::from(enclave)].as_ref().unwrap();
        match einit(&self.epc, secs, measure, expect) {
            Ok(digest) => done(actor, action, Answer::Hash(digest)),
            Err(refusal) => refused(actor, action, refusal),
        }
    }
}

// The first case of the row of `add` that holds where the enclave was not created.
fn absent(epc: &Epc, frame: Frame) -> Refusal
    ensures { Some result ≡ first_of_row (when (sight_in epc.now frame.0).is_beyond why.BadRange otherwise when true why.Absent otherwise
        allowed) }
{
    if frame.0 < epc.frames() {
        Refusal::Absent
    } else {
        Refusal::BadRange
    }
}
