//! ECREATE: an enclave begins.

ghost use Rattle.std.specs.Prelude.{◌≡◌, None, OnOk, OnErr, IfOk};
ghost use Rattle.sgx_types.specs.Lawful.{is_enclave};
ghost use Rattle.sgx_types.specs.Cases.{first_of_row};
ghost use Rattle.sgx_rules.specs.Table.{create_row};
ghost use Rattle.epcm_entry.specs.inner.Sights.{sight_in};
ghost use Rattle.secs_state.specs.inner.Secs.{created, with_frame};
ghost use Rattle.measure_log.specs.Blocks.{ecreate_block};
ghost use Rattle.measure_log.specs.inner.Measure.{HoldsLog};
ghost use Rattle.enclave_build.specs.inner.Build.{refusal_in_build, with_secs};

use crate::build_refusal::BuildRefusal;
use epcm_entry::epc::Epc;
use measure_log::measure::Measure;
use secs_state::secs::Secs;
use sgx_rules::refusals::Refusal;
use sgx_types::lawful::{is_enclave, is_lawful};
use sgx_types::names::{Frame, Kind, Page, Perm, SECS_NUMBER};
use std::alloc::Global;

/// ECREATE (Intel SDM volume 3D): a free frame becomes the SECS of enclave `enclave`, numbered from 1 to 8, over `size`
/// bytes from `base` on, and the enclave's measurement begins. `exists` tells whether it was created before.
///
/// Refused, in this order, as BadRange where the frame is past the EPC's end, the number is not from 1 to 8, or the range
/// is not lawful; PageExists; Conflict where the frame is busy; and FrameBusy where it holds a page. Want of memory
/// changes nothing either.
pub fn ecreate(
    alloc: Global,
    epc: &mut Epc,
    exists: bool,
    frame: Frame,
    enclave: u16,
    base: u64,
    size: u64,
) -> Result<(Secs, Measure), BuildRefusal>
    ensures row { refusal_in_build result
        ≡ first_of_row (create_row enclave base size exists (sight_in epc.old frame.0)) }
    ensures done { OnOk result (epc.new ≡ with_secs epc.old frame.0 enclave) }
    ensures secs { IfOk result (λ made. made.0 ≡ with_frame (created enclave base size) (Some frame)) }
    ensures log { IfOk result (λ made. HoldsLog made.1 (ecreate_block size)) }
    ensures refused { OnErr result (epc.new ≡ epc.old) }
{
    if let Some(refusal) = create_refusal(epc, exists, frame, enclave, base, size) {
        return Err(BuildRefusal::Refused(refusal));
    }
    let mut secs = Secs::new(alloc, enclave, base, size)?;
    let page = Page {
        enclave,
        number: SECS_NUMBER,
    };
    epc.set(frame, page, Kind::Secs, Perm::NONE);
    secs.set_frame(Some(frame));
    Ok((secs, Measure::create(size)))
}

// The first case of the row that holds.
fn create_refusal(
    epc: &Epc,
    exists: bool,
    frame: Frame,
    enclave: u16,
    base: u64,
    size: u64,
) -> Option<Refusal>
    ensures { result ≡ first_of_row (create_row enclave base size exists (sight_in epc.now frame.0)) }
{
    if frame.0 >= epc.frames() || !is_enclave(enclave) || !is_lawful(base, size) {
        return Some(Refusal::BadRange);
    }
    if exists {
        return Some(Refusal::PageExists);
    }
    let entry = epc.entry(frame);
    if entry.is_busy() {
        return Some(Refusal::Conflict);
    }
    if entry.is_valid() {
        return Some(Refusal::FrameBusy);
    }
    None
}
