//! ETRACK: an enclave's next epoch begins.

ghost use Rattle.std.specs.Prelude.{◌≡◌, ◌+◌, IfOk, OnOk, OnErr};
ghost use Rattle.sgx_types.specs.Cases.{first_of_row};
ghost use Rattle.sgx_rules.specs.Table.{track_row};
ghost use Rattle.sgx_rules.specs.inner.Table.{refusal_in};
ghost use Rattle.track_epoch.specs.inner.Tracks.{track_of};
ghost use Rattle.evict_reload.specs.inner.Sights.{AreCountedIn, track_sight};
ghost use Rattle.evict_reload.specs.inner.Effects.{epoch_tracked, with_tracked};

use crate::secs::secs_refusal;
use epcm_entry::epc::Epc;
use secs_state::table::SecsTable;
use sgx_rules::refusals::Refusal;
use track_epoch::tracks::Tracks;

/// ETRACK (Intel SDM volume 3D): an enclave's next epoch begins, which is the answer.
///
/// Refused, in this order, as Absent where the enclave was not created or no frame holds its SECS; Conflict while that is on its way
/// out; PrevTrk while a processor inside it has an older
/// epoch, with the number of these; and EpochSpent at the last epoch.
#[tactic(auto, using(crate::proofs::TrackLaws::kept_on_refusal))]
pub fn etrack(
    epc: &Epc,
    tracks: &mut Tracks,
    secs: &SecsTable,
    enclave: u16,
) -> Result<u64, Refusal>
    requires { AreCountedIn epc.now secs.now }
    ensures row { refusal_in result ≡ first_of_row (track_row (track_sight epc.now secs.now tracks.old enclave)) }
    ensures answer { IfOk result (λ epoch. epoch ≡ epoch_tracked (track_of tracks.old enclave) + 1) }
    ensures done { OnOk result (tracks.new ≡ with_tracked tracks.old enclave) }
    ensures refused { OnErr result (tracks.new ≡ tracks.old) }
{
    let Some(state) = secs.get(enclave) else {
        return Err(Refusal::Absent);
    };
    if let Some(refusal) = secs_refusal(epc, state, enclave) {
        return Err(refusal);
    }
    tracks.get_mut(enclave).track()
}
