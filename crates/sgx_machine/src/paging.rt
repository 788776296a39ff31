//! The rows of block, track and the starts of write-outs and loads.

ghost use Rattle.std.specs.Prelude.{◌≡◌, length};
ghost use Rattle.sgx_rules.specs.declared.entries.Action.TheVariants as actions;
ghost use Rattle.sgx_machine.specs.inner.Parts.{state_of};
ghost use Rattle.machine_laws.specs.inner.State.{slot_of_found};
ghost use Rattle.machine_laws.specs.inner.Steps.{IsStep};
ghost use Rattle.sgx_rules.specs.Starts.{slot_in};

use crate::apply::{done, refused};
use crate::machine::Machine;
use crate::starts::Start;
use epcm_entry::entry_view::EntryView;
use evict_reload::block::eblock;
use evict_reload::reload::eld_start;
use evict_reload::track::etrack;
use evict_reload::write_out::ewb_start;
use sgx_rules::entries::{Action, Answer, Entry};
use sgx_types::names::{Actor, Frame, Kind, Page, SlotAt, VaSlot};

// The order of these is what keeps a translation of a page from outliving it: after the block no new one is taken, the
// track tells the processors that entered before it from those that enter later, and the start waits for the former.
impl Machine {
    /// The page in a frame is blocked at its enclave's epoch (EBLOCK).
    #[inline(never)]
    pub(crate) fn block(&mut self, actor: Actor, frame: Frame) -> Entry
        ensures step { IsStep (state_of self.old) actor (actions.Block frame) result (state_of self.new) }
        ensures cpus { length self.new.cpus ≡ length self.old.cpus }
    {
        let action = Action::Block { frame };
        match eblock(&mut self.epc, &self.tracks, frame) {
            Ok(()) => done(actor, action, Answer::Plain),
            Err(refusal) => refused(actor, action, refusal),
        }
    }

    /// An enclave's next epoch begins (ETRACK).
    #[inline(never)]
    pub(crate) fn track(&mut self, actor: Actor, enclave: u16) -> Entry
        ensures step { IsStep (state_of self.old) actor (actions.Track enclave) result (state_of self.new) }
        ensures cpus { length self.new.cpus ≡ length self.old.cpus }
    {
        let action = Action::Track { enclave };
        match etrack(&self.epc, &mut self.tracks, &self.secs, enclave) {
            Ok(_epoch) => done(actor, action, Answer::Plain),
            Err(refusal) => refused(actor, action, refusal),
        }
    }

    /// The blocked page in a frame starts to go out, under the next version (EWB).
    #[inline(never)]
    pub(crate) fn ewb_start(&mut self, actor: Actor, frame: Frame, slot: SlotAt) -> Entry
        ensures step { IsStep (state_of self.old) actor (actions.EwbStart frame slot) result (state_of self.new) }
        ensures cpus { length self.new.cpus ≡ length self.old.cpus }
    {
        let action = Action::EwbStart { frame, slot };
        let found = self.found(slot);
        match ewb_start(
            &mut self.epc,
            &self.secs,
            &self.tracks,
            &mut self.va,
            &mut self.versions,
            frame,
            slot,
        ) {
            Ok(version) => {
                self.starts[frame.0 as usize] = Some(Start {
                    at: slot,
                    slot: found,
                    version,
                    loads: None,
                });
                done(actor, action, Answer::Version(version))
            }
            Err(refusal) => refused(actor, action, refusal),
        }
    }

    /// A free frame starts to load the page whose version is in a slot (ELDU).
    #[inline(never)]
    pub(crate) fn eld_start(
        &mut self,
        actor: Actor,
        frame: Frame,
        page: Page,
        slot: SlotAt,
    ) -> Entry
        ensures step { IsStep (state_of self.old) actor (actions.EldStart frame page slot) result (state_of self.new) }
        ensures cpus { length self.new.cpus ≡ length self.old.cpus }
    {
        let action = Action::EldStart { frame, page, slot };
        let found = self.found(slot);
        match eld_start(
            &mut self.epc,
            &mut self.secs,
            &mut self.va,
            frame,
            page,
            slot,
        ) {
            Ok(version) => {
                self.starts[frame.0 as usize] = Some(Start {
                    at: slot,
                    slot: found,
                    version,
                    loads: Some(page),
                });
                done(actor, action, Answer::Version(version))
            }
            Err(refusal) => refused(actor, action, refusal),
        }
    }

    // The slot of an index in the version array page that a frame holds; where it holds none, the first one of the first.
    fn found(&self, at: SlotAt) -> VaSlot
        ensures { result ≡ slot_of_found (slot_in ((state_of self.now).content at.frame.0) at.index) }
    {
        if at.frame.0 < self.frames() {
            if let EntryView::Valid {
                page,
                kind: Kind::Va,
                ..
            } = self.epc.entry(at.frame)
            {
                return VaSlot {
                    va: page.number,
                    index: at.index,
                };
            }
        }
        VaSlot { va: 0, index: 0 }
    }
}
