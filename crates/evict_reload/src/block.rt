//! EBLOCK: no new translation of a page is made.

ghost use Rattle.std.specs.Prelude.{◌≡◌, OnOk, OnErr};
ghost use Rattle.sgx_types.specs.Cases.{first_of_row};
ghost use Rattle.sgx_rules.specs.Table.{block_row};
ghost use Rattle.sgx_rules.specs.inner.Table.{refusal_in};
ghost use Rattle.epcm_entry.specs.inner.Sights.{sight_in};
ghost use Rattle.evict_reload.specs.inner.Sights.{IsNumbered};
ghost use Rattle.evict_reload.specs.inner.Effects.{with_blocked};

use epcm_entry::entry_view::EntryView;
use epcm_entry::epc::Epc;
use sgx_rules::refusals::Refusal;
use sgx_types::names::Frame;
use track_epoch::tracks::Tracks;

/// EBLOCK (Intel SDM volume 3D): the TCS or REG page in a frame is blocked, so that no new translation of it is taken. The
/// entry notes the epoch of the page's enclave, from 1 to 8.
///
/// Refused, in this order, as BadRange where the frame is past the EPC's end; Conflict where it is busy; PgInvld where it is
/// free; PgIsSecs where it holds a SECS; NotBlockable where it holds a version array page; and BlkState where the page is
/// blocked.
pub fn eblock(epc: &mut Epc, tracks: &Tracks, frame: Frame) -> Result<(), Refusal>
    requires { IsNumbered (sight_in epc.old frame.0).content }
    ensures row { refusal_in result ≡ first_of_row (block_row (sight_in epc.old frame.0)) }
    ensures done { OnOk result (epc.new ≡ with_blocked epc.old tracks.now frame.0) }
    ensures refused { OnErr result (epc.new ≡ epc.old) }
{
    if let Some(refusal) = block_refusal(epc, frame) {
        return Err(refusal);
    }
    let EntryView::Valid { page, .. } = epc.entry(frame) else {
        unreachable!();
    };
    epc.block(frame, tracks.get(page.enclave).epoch());
    Ok(())
}

// The first case of the row that holds.
fn block_refusal(epc: &Epc, frame: Frame) -> Option<Refusal>
    ensures { result ≡ first_of_row (block_row (sight_in epc.now frame.0)) }
{
    if frame.0 >= epc.frames() {
        return Some(Refusal::BadRange);
    }
    let entry = epc.entry(frame);
    if entry.is_busy() {
        return Some(Refusal::Conflict);
    }
    if entry.is_free() {
        return Some(Refusal::PgInvld);
    }
    if entry.is_secs() {
        return Some(Refusal::PgIsSecs);
    }
    if entry.is_va() {
        return Some(Refusal::NotBlockable);
    }
    if entry.is_blocked() {
        return Some(Refusal::BlkState);
    }
    None
}
