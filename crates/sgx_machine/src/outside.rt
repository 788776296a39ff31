//! What the rows of processors' instructions say to who is inside no enclave.

ghost use Rattle.std.specs.Prelude.{◌≡◌};
ghost use Rattle.entry_exit.specs.inner.Entry.{row_of};
ghost use Rattle.machine_laws.specs.inner.State.{enter_sight, from_outside, row_outside};
ghost use Rattle.sgx_machine.specs.inner.Parts.{state_of};
ghost use Rattle.sgx_rules.specs.Sights.{seat_of};
ghost use Rattle.sgx_types.specs.Cases.{first_of_row};

use crate::entry::absent;
use crate::machine::Machine;
use cached_translations::processor::Mode;
use entry_exit::way_in::WayIn;
use sgx_rules::entries::Action;
use sgx_rules::refusals::Refusal;
use sgx_types::names::Frame;

impl Machine {
    /// The first case that refuses an instruction of processors to who is inside no enclave, as a driver is. None where no case holds, and
    /// for an instruction that is not processors' alone.
    pub fn refusal_outside(&self, action: &Action) -> Option<Refusal>
        ensures { result ≡ first_of_row (row_outside (state_of self.now) action.now) }
    {
        match *action {
            Action::Enter {
                enclave,
                tcs,
                tcs_frame,
                ssa_frame,
            } => self.entry_refusal(WayIn::Enter, enclave, tcs, tcs_frame, ssa_frame),
            Action::Resume {
                enclave,
                tcs,
                tcs_frame,
                ssa_frame,
            } => self.entry_refusal(WayIn::Resume, enclave, tcs, tcs_frame, ssa_frame),
            Action::Exit
            | Action::Aex { .. }
            | Action::Fill { .. }
            | Action::Load { .. }
            | Action::Store { .. }
            | Action::Xadd { .. }
            | Action::Set { .. }
            | Action::Plus { .. }
            | Action::Pf { .. } => Some(Refusal::WrongMode),
            _ => None,
        }
    }

    // The first case that holds of the row of a way into an enclave, as it is seen from outside.
    fn entry_refusal(
        &self,
        way: WayIn,
        enclave: u16,
        tcs: u32,
        tcs_frame: Frame,
        ssa_frame: Frame,
    ) -> Option<Refusal>
        ensures { result ≡ first_of_row (row_of way enclave tcs (enter_sight (from_outside (state_of self.now)) 0
            (seat_of enclave tcs tcs_frame.0 ssa_frame.0))) }
    {
        let Some(secs) = self.secs.get(enclave) else {
            return Some(absent(&self.epc, Mode::Outside, tcs_frame, ssa_frame));
        };
        way.refusal(&self.epc, secs, Mode::Outside, tcs, tcs_frame, ssa_frame)
    }
}
