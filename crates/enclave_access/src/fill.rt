//! The fill of a translation: the one place where an access looks at the EPCM.

ghost use Rattle.std.specs.Prelude.{◌≡◌, None, OnOk, OnErr};
ghost use Rattle.sgx_types.specs.Cases.{first_of_row};
ghost use Rattle.sgx_rules.specs.Table.{fill_row, perm_in};
ghost use Rattle.sgx_rules.specs.inner.Table.{refusal_in};
ghost use Rattle.epcm_entry.specs.inner.Sights.{sight_in};
ghost use Rattle.cached_translations.specs.inner.Modes.{enclave_inside};
ghost use Rattle.enclave_access.specs.inner.Access.{with_filled};

use cached_translations::cache::Translation;
use cached_translations::processor::{Mode, Processor};
use epcm_entry::epc::Epc;
use sgx_rules::refusals::Refusal;
use sgx_types::names::Frame;

/// A processor inside takes the translation of page `number` of its enclave to a frame, with the frame's permissions
/// (Intel SDM volume 3D, access control for enclave pages; that it is an instruction is this project's own). A page whose
/// translation is held changes nothing, and no memory is taken.
///
/// Refused, in this order, as WrongMode outside; BadRange where the frame is past the EPC's end; Conflict where it is busy;
/// Absent where it does not hold the page; Blocked; and BadKind where that is no REG page.
pub fn fill(epc: &Epc, cpu: &mut Processor, number: u32, frame: Frame) -> Result<(), Refusal>
    ensures row { refusal_in result ≡ first_of_row (fill_row number (enclave_inside cpu.old.mode) (sight_in epc.now frame.0)) }
    ensures done { OnOk result (cpu.new ≡ with_filled cpu.old number frame (perm_in (sight_in epc.now frame.0).content)) }
    ensures refused { OnErr result (cpu.new ≡ cpu.old) }
{
    if let Some(refusal) = fill_refusal(epc, cpu.mode, number, frame) {
        return Err(refusal);
    }
    if let Some(perm) = epc.entry(frame).perm() {
        cpu.cache.fill(Translation {
            number,
            frame,
            perm,
        });
    }
    Ok(())
}

// The first case that holds of the row of `fill`.
fn fill_refusal(epc: &Epc, mode: Mode, number: u32, frame: Frame) -> Option<Refusal>
    ensures { result ≡ first_of_row (fill_row number (enclave_inside mode) (sight_in epc.now frame.0)) }
{
    let Some(enclave) = mode.enclave() else {
        return Some(Refusal::WrongMode);
    };
    if frame.0 >= epc.frames() {
        return Some(Refusal::BadRange);
    }
    let entry = epc.entry(frame);
    if entry.is_busy() {
        return Some(Refusal::Conflict);
    }
    if !entry.holds(enclave, u64::from(number)) {
        return Some(Refusal::Absent);
    }
    if entry.is_blocked() {
        return Some(Refusal::Blocked);
    }
    if !entry.is_reg() {
        return Some(Refusal::BadKind);
    }
    None
}
