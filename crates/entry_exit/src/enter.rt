//! EENTER and ERESUME: a processor comes inside.

ghost use Rattle.std.specs.Prelude.{◌≡◌, ◌<◌, true, false, length, IfOk, OnOk, OnErr};
ghost use Rattle.sgx_types.specs.Cases.{first_of_row};
ghost use Rattle.sgx_rules.specs.Table.{enter_row, resume_row};
ghost use Rattle.sgx_rules.specs.inner.Table.{refusal_in};
ghost use Rattle.epcm_entry.specs.inner.Epc.{word_at};
ghost use Rattle.epcm_entry.specs.inner.Sights.{sight_in};
ghost use Rattle.secs_state.specs.inner.Secs.{with_busy};
ghost use Rattle.cached_translations.specs.inner.Modes.{is_inside};
ghost use Rattle.track_epoch.specs.inner.Tracking.{entered};
ghost use Rattle.entry_exit.specs.inner.Entry.{IsAddedIn, enter_sight, fields_at, with_entered, with_resumed};

use crate::tcs::{fields, set_cssa};
use crate::way_in::{WayIn, seat};
use cached_translations::processor::Processor;
use epcm_entry::epc::Epc;
use secs_state::secs::Secs;
use sgx_rules::refusals::Refusal;
use sgx_types::names::{Frame, PROCESSORS};
use track_epoch::track::Track;

/// EENTER (Intel SDM volume 3D): a processor enters the enclave of `secs` by its TCS page `tcs` in a frame, with the frame
/// of the state save page that CSSA names. The TCS page is busy, the track counts the processor, and the accumulator is
/// CSSA, which is the answer.
///
/// Refused, in this order, as WrongMode inside; BadRange where a frame is past the EPC's end; NotInit; Conflict where the
/// TCS frame is busy; Absent where it does not hold the page; BadKind where that is no TCS; Blocked; TcsBusy where a
/// processor is inside by it; NoFrame where CSSA is NSSA; and by the state save frame as Conflict where it is busy; Absent
/// where it does not hold page OSSA + CSSA; BadKind where that is no REG page; Blocked; and NoPerm without R and W.
pub fn eenter(
    epc: &Epc,
    secs: &mut Secs,
    track: &mut Track,
    cpu: &mut Processor,
    tcs: u32,
    tcs_frame: Frame,
    ssa_frame: Frame,
) -> Result<u32, Refusal>
    requires room { is_inside cpu.old.mode ≡ false → length track.old.noted < PROCESSORS }
    requires added { is_inside cpu.old.mode ≡ false → IsAddedIn (sight_in epc.now tcs_frame.0).content secs.old }
    ensures row { refusal_in result
        ≡ first_of_row (enter_row secs.old.enclave tcs (enter_sight epc.now secs.old cpu.old.mode tcs tcs_frame.0 ssa_frame.0)) }
    ensures answer { IfOk result (λ cssa. cssa ≡ (fields_at epc.now tcs_frame.0).cssa) }
    ensures secs { OnOk result (secs.new ≡ with_busy secs.old tcs true) }
    ensures track { OnOk result (track.new ≡ entered track.old) }
    ensures cpu { OnOk result (cpu.new
        ≡ with_entered secs.old.enclave tcs tcs_frame ssa_frame track.old.epoch (fields_at epc.now tcs_frame.0).cssa) }
    ensures refused { OnErr result ((secs.new ≡ secs.old) × (track.new ≡ track.old) × (cpu.new ≡ cpu.old)) }
{
    if let Some(refusal) = WayIn::Enter.refusal(epc, secs, cpu.mode, tcs, tcs_frame, ssa_frame) {
        return Err(refusal);
    }
    let cssa = fields(epc, tcs_frame).cssa;
    seat(secs, track, cpu, tcs, tcs_frame, ssa_frame, u64::from(cssa));
    Ok(cssa)
}

/// ERESUME (Intel SDM volume 3D): a processor enters as by EENTER, with the frame of the state save page that was used
/// last. The accumulator is the first word of that frame, which is the answer, and CSSA is one less.
///
/// Refused as EENTER, with NoSaved where CSSA is 0 in place of NoFrame, and page OSSA + CSSA - 1 in place of OSSA + CSSA.
pub fn eresume(
    epc: &mut Epc,
    secs: &mut Secs,
    track: &mut Track,
    cpu: &mut Processor,
    tcs: u32,
    tcs_frame: Frame,
    ssa_frame: Frame,
) -> Result<u64, Refusal>
    requires room { is_inside cpu.old.mode ≡ false → length track.old.noted < PROCESSORS }
    requires added { is_inside cpu.old.mode ≡ false → IsAddedIn (sight_in epc.old tcs_frame.0).content secs.old }
    ensures row { refusal_in result
        ≡ first_of_row (resume_row secs.old.enclave tcs (enter_sight epc.old secs.old cpu.old.mode tcs tcs_frame.0 ssa_frame.0)) }
    ensures answer { IfOk result (λ saved. saved ≡ word_at epc.old ssa_frame.0 0) }
    ensures epc { OnOk result (epc.new ≡ with_resumed epc.old tcs_frame.0) }
    ensures secs { OnOk result (secs.new ≡ with_busy secs.old tcs true) }
    ensures track { OnOk result (track.new ≡ entered track.old) }
    ensures cpu { OnOk result (cpu.new
        ≡ with_entered secs.old.enclave tcs tcs_frame ssa_frame track.old.epoch (word_at epc.old ssa_frame.0 0)) }
    ensures refused { OnErr result ((epc.new ≡ epc.old) × (secs.new ≡ secs.old) × (track.new ≡ track.old) × (cpu.new ≡ cpu.old)) }
{
    if let Some(refusal) = WayIn::Resume.refusal(epc, secs, cpu.mode, tcs, tcs_frame, ssa_frame) {
        return Err(refusal);
    }
    let saved = epc.word(ssa_frame, 0);
    let cssa = fields(epc, tcs_frame).cssa;
    set_cssa(epc, tcs_frame, cssa - 1);
    seat(secs, track, cpu, tcs, tcs_frame, ssa_frame, saved);
    Ok(saved)
}
