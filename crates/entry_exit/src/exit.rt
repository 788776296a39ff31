//! EEXIT and the asynchronous exit: a processor leaves its enclave.

ghost use Rattle.std.specs.Prelude.{◌≡◌, ◌<◌, true, false, length, Contains, IsSome, OnOk, OnErr};
ghost use Rattle.sgx_types.specs.Cases.{first_of_row};
ghost use Rattle.sgx_rules.specs.Table.{inside_row};
ghost use Rattle.sgx_rules.specs.inner.Table.{refusal_in};
ghost use Rattle.secs_state.specs.inner.Secs.{added_at, with_busy};
ghost use Rattle.cached_translations.specs.inner.Modes.{is_inside};
ghost use Rattle.track_epoch.specs.inner.Tracking.{left};
ghost use Rattle.entry_exit.specs.inner.Entry.{IsItsEnclave, HasItsTcs, CountsIt, HasItsFrames, outside, with_tcs_left};
ghost use Rattle.entry_exit.specs.inner.Entry.{with_left, with_saved};
ghost use Rattle.entry_exit.specs.inner.Entry.{with_its_saved};

use crate::tcs::{fields, set_cssa};
use cached_translations::processor::{Mode, Processor};
use epcm_entry::epc::Epc;
use secs_state::secs::Secs;
use sgx_rules::refusals::Refusal;
use sgx_types::names::Frame;
use track_epoch::track::Track;

/// EEXIT (Intel SDM volume 3D): a processor leaves its enclave, of which `secs` and `track` are. No processor is inside by
/// its TCS page any more, and it holds no translation. Nothing is saved.
///
/// Refused as WrongMode outside.
pub fn eexit(secs: &mut Secs, track: &mut Track, cpu: &mut Processor) -> Result<(), Refusal>
    requires enclave { IsItsEnclave cpu.old.mode secs.old }
    requires tcs { HasItsTcs cpu.old.mode secs.old }
    requires counted { CountsIt cpu.old.mode track.old }
    ensures row { refusal_in result ≡ first_of_row (inside_row (is_inside cpu.old.mode)) }
    ensures secs { OnOk result (secs.new ≡ with_tcs_left secs.old cpu.old.mode) }
    ensures track { OnOk result (track.new ≡ with_left track.old cpu.old.mode) }
    ensures cpu { OnOk result (cpu.new ≡ outside cpu.old) }
    ensures refused { OnErr result ((secs.new ≡ secs.old) × (track.new ≡ track.old) × (cpu.new ≡ cpu.old)) }
{
    let Mode::Inside { tcs, epoch, .. } = cpu.mode else {
        return Err(Refusal::WrongMode);
    };
    unseat(secs, track, cpu, tcs, epoch);
    Ok(())
}

/// An asynchronous exit (Intel SDM volume 3D, "Asynchronous Enclave Exits") of a processor inside: the accumulator goes
/// into the first word of its state save frame, CSSA is one more, and it leaves as by EEXIT. What else the manual saves
/// there is left out, which is this project's own. It looks at no EPCM entry and is never refused.
pub fn aex(epc: &mut Epc, secs: &mut Secs, track: &mut Track, cpu: &mut Processor)
    requires inside { is_inside cpu.old.mode ≡ true }
    requires enclave { IsItsEnclave cpu.old.mode secs.old }
    requires tcs { HasItsTcs cpu.old.mode secs.old }
    requires counted { CountsIt cpu.old.mode track.old }
    requires frames { HasItsFrames cpu.old.mode (length epc.old) }
    ensures epc { epc.new ≡ with_its_saved epc.old cpu.old.mode cpu.old.acc }
    ensures secs { secs.new ≡ with_tcs_left secs.old cpu.old.mode }
    ensures track { track.new ≡ with_left track.old cpu.old.mode }
    ensures cpu { cpu.new ≡ outside cpu.old }
{
    let Mode::Inside {
        tcs,
        tcs_frame,
        ssa_frame,
        epoch,
        ..
    } = cpu.mode
    else {
        unreachable!();
    };
    // The state is saved while the two pages cannot leave, for the processor is still counted.
    save(epc, tcs_frame, ssa_frame, cpu.acc);
    unseat(secs, track, cpu, tcs, epoch);
}

// The accumulator goes into the state save frame, and CSSA counts mod 2^32.
fn save(epc: &mut Epc, tcs_frame: Frame, ssa_frame: Frame, acc: u64)
    requires tcs { tcs_frame.0 < length epc.old }
    requires ssa { ssa_frame.0 < length epc.old }
    ensures { epc.new ≡ with_saved epc.old tcs_frame.0 ssa_frame.0 acc }
{
    let cssa = fields(epc, tcs_frame).cssa;
    epc.set_word(ssa_frame, 0, acc);
    set_cssa(epc, tcs_frame, cssa.wrapping_add(1));
}

// Takes a processor out of its enclave, which it entered by a TCS page at an epoch.
fn unseat(secs: &mut Secs, track: &mut Track, cpu: &mut Processor, tcs: u32, epoch: u64)
    requires added { IsSome (added_at secs.old tcs) }
    requires counted { Contains track.old.noted epoch }
    ensures secs { secs.new ≡ with_busy secs.old tcs false }
    ensures track { track.new ≡ left track.old epoch }
    ensures cpu { cpu.new ≡ outside cpu.old }
{
    // The translations go before the track forgets the processor: once it is not counted, its enclave's pages may leave.
    cpu.mode = Mode::Outside;
    cpu.cache.clear();
    secs.free_tcs(tcs);
    track.leave(epoch);
}
