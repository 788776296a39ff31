//! The row that measures a chunk of a page.

ghost use Rattle.std.specs.Prelude.{◌≡◌, length};
ghost use Rattle.sgx_rules.specs.declared.entries.Action.TheVariants as actions;
ghost use Rattle.epcm_entry.specs.inner.Sights.{held};
ghost use Rattle.sgx_rules.specs.Frames.{page_of};
ghost use Rattle.sgx_machine.specs.inner.Parts.{state_of};
ghost use Rattle.machine_laws.specs.inner.Steps.{IsStep};

use crate::apply::{done, refused};
use crate::machine::Machine;
use enclave_build::extend::{eextend, extend_refusal};
use epcm_entry::entry_view::EntryView;
use sgx_rules::entries::{Action, Answer, Entry};
use sgx_types::names::{Actor, Frame, Kind, Page};

impl Machine {
    /// A chunk of 256 bytes of a page is added to the measurement of its enclave, which is not initialised (EEXTEND).
    #[inline(never)]
    pub(crate) fn extend(&mut self, actor: Actor, frame: Frame, chunk: u8) -> Entry
        ensures step { IsStep (state_of self.old) actor (actions.Extend frame chunk) result (state_of self.new) }
        ensures cpus { length self.new.cpus ≡ length self.old.cpus }
    {
        let action = Action::Extend { frame, chunk };
        // Where the frame holds no such page, the row has a case before it comes to the enclave.
        let Some(page) = self.page_in(frame) else {
            let refusal = extend_refusal(&self.epc, false, frame, chunk).unwrap();
            return refused(actor, action, refusal);
        };
        let secs = self.secs.get(page.enclave).unwrap();
        let measure = self.measures[usize::from(page.enclave)].as_mut().unwrap();
        match eextend(&self.epc, secs, measure, frame, chunk) {
            Ok(()) => done(actor, action, Answer::Plain),
            Err(refusal) => refused(actor, action, refusal),
        }
    }

    /// The TCS or REG page in a frame.
    fn page_in(&self, frame: Frame) -> Option<Page>
        ensures { result ≡ page_of ((state_of self.now).content frame.0) }
    {
        if frame.0 >= self.frames() {
            return None;
        }
        page_in(self.epc.entry(frame))
    }
}

// The TCS or REG page that an entry names.
fn page_in(entry: EntryView) -> Option<Page>
    ensures { result ≡ page_of (held entry) }
{
    match entry {
        EntryView::Valid {
            page,
            kind: Kind::Tcs | Kind::Reg,
            ..
        } => Some(page),
        _ => None,
    }
}
