//! The cases of a row that an enclave's SECS gives.

ghost use Rattle.std.specs.Prelude.{◌≡◌, length};
ghost use Rattle.sgx_types.specs.Cases.{first_of_row};
ghost use Rattle.epcm_entry.specs.inner.Sights.{held_in};
ghost use Rattle.secs_state.specs.inner.Resident.{IsCountedIn};
ghost use Rattle.enclave_build.specs.inner.Build.{secs_row, secs_sight};

use epcm_entry::entry_view::EntryView;
use epcm_entry::epc::Epc;
use secs_state::secs::Secs;
use sgx_rules::refusals::Refusal;

#[tactic(auto, using(crate::proofs::SecsLaws::secs_within))]
/// Absent where no frame holds the SECS of an enclave, Conflict while it is on its way out.
pub fn secs_refusal(epc: &Epc, secs: &Secs) -> Option<Refusal>
    requires { IsCountedIn (length epc.now) (held_in epc.now) secs.now.enclave secs.now }
    ensures { result ≡ first_of_row (secs_row (secs_sight epc.now secs.now.enclave)) }
{
    let Some(frame) = secs.frame() else {
        return Some(Refusal::Absent);
    };
    if matches!(epc.entry(frame), EntryView::Valid { sealing: true, .. }) {
        return Some(Refusal::Conflict);
    }
    None
}
