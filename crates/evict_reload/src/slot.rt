//! The cases of a row that a slot gives.

ghost use Rattle.std.specs.Prelude.{◌≡◌, ◌<◌, length};
ghost use Rattle.sgx_rules.specs.Table.{is_out_of_range};
ghost use Rattle.epcm_entry.specs.inner.Sights.{sight_in};
ghost use Rattle.evict_reload.specs.inner.Sights.{AreVaPages, slot_sight};

use epcm_entry::epc::Epc;
use sgx_types::names::{Frame, SlotAt};
use version_array::va_table::VaTable;

// The greatest index of a slot in its page.
const LAST_SLOT: u16 = 511;

/// Whether a frame, or a slot's frame or index, is past its end.
pub fn is_out_of_range(epc: &Epc, va: &VaTable, frame: Frame, slot: SlotAt) -> bool
    ensures { result ≡ is_out_of_range (sight_in epc.now frame.0) (slot_sight epc.now va.now.pages slot) }
{
    let frames = epc.frames();
    frame.0 >= frames || slot.frame.0 >= frames || slot.index > LAST_SLOT
}

/// Whether a slot is busy: a start that has not ended uses it, or its page is on its way out. Where the slot's frame holds no version
/// array page, it is not.
#[tactic(auto, using(crate::proofs::SlotLaws::is_slot, crate::proofs::SlotLaws::idle_without_page))]
pub fn is_slot_busy(epc: &Epc, va: &VaTable, slot: SlotAt) -> bool
    requires pages { AreVaPages epc.now va.now.pages }
    requires frame { slot.frame.0 < length epc.now }
    requires index { slot.index < 512 }
    ensures { result ≡ (slot_sight epc.now va.now.pages slot).is_busy }
{
    let entry = epc.entry(slot.frame);
    entry.is_va() && (va.busy(slot) || entry.is_busy())
}
