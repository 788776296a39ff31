//! EWB by a start and a commit: a page goes out.

ghost use Rattle.std.specs.Prelude.{◌≡◌, ◌≢◌, ◌+◌, ◌<◌, ◌&&◌, length, true, Some, IfOk, OnOk, OnErr};
ghost use Rattle.sgx_types.specs.Cases.{first_of_row};
ghost use Rattle.sgx_rules.specs.Table.{ewbstart_row};
ghost use Rattle.sgx_rules.specs.inner.Table.{refusal_in};
ghost use Rattle.epcm_entry.specs.inner.Epc.{entry_at, with_sealing, cleared};
ghost use Rattle.epcm_entry.specs.inner.Sights.{sight_in};
ghost use Rattle.version_array.specs.inner.Slots.{IsSlot, with_busy};
ghost use Rattle.version_array.specs.inner.Versions.{is_spent_at};
ghost use Rattle.evict_reload.specs.inner.Sights.{AreCountedIn, AreVaPages, HaveEnclaves, IsNumbered, children_in, children_row};
ghost use Rattle.evict_reload.specs.inner.Sights.{slot_sight};
ghost use Rattle.evict_reload.specs.inner.Sights.{drain_sight, is_array, stay_row, track_row_from, use_sight};
ghost use Rattle.epcm_entry.specs.inner.Sights.{held};
ghost use Rattle.sgx_rules.specs.Table.{is_va};
ghost use Rattle.version_array.specs.inner.Slots.{has_page, is_any_busy};
ghost use Rattle.evict_reload.specs.inner.Effects.{SameBeside, emptied, page_of, with_out};

use crate::child::page_goes;
use crate::slot::{is_out_of_range, is_slot_busy};
use epcm_entry::entry_view::EntryView;
use epcm_entry::epc::Epc;
use seal_record::seal::SealedWork;
use secs_state::secs::Secs;
use secs_state::table::SecsTable;
use sgx_rules::refusals::Refusal;
use sgx_types::names::{Frame, Kind, Page, SlotAt};
use track_epoch::track::Track;
use track_epoch::tracks::Tracks;
use version_array::va_table::VaTable;
use version_array::versions::Versions;

/// The start of EWB (Intel SDM volume 3D): what a frame holds is sealing, a TCS or REG page that is blocked, a SECS without resident
/// pages or a version array page, a slot of a version array page is busy,
/// and the next version is drawn, which is the answer. What is written into the slot, and that the frame comes free, is
/// left to the commit.
///
/// Refused, in this order, as BadRange where a frame is past the EPC's end or there is no such slot; Conflict where the frame
/// or the slot is busy, or the frame holds a version array page with a busy slot; PgInvld where the frame is free; BadKind where the
/// slot's frame holds no version array page, or is the frame itself; for a SECS ChildPresent, with the number of frames that hold or
/// load pages of its enclave; for a TCS or REG page PageNotBlocked; NotTracked where the enclave's epoch is not above the block's, or a
/// processor inside has one at or below it, with the epoch and the number of these; SlotOccupied where the slot has a
/// version, with it; and VersionSpent.
pub fn ewb_start(
    epc: &mut Epc,
    secs: &SecsTable,
    tracks: &Tracks,
    va: &mut VaTable,
    versions: &mut Versions,
    frame: Frame,
    slot: SlotAt,
) -> Result<u64, Refusal>
    requires pages { AreVaPages epc.old va.old.pages }
    requires numbered { IsNumbered (sight_in epc.old frame.0).content }
    requires counted { AreCountedIn epc.old secs.now }
    requires created { HaveEnclaves epc.old secs.now }
    ensures row { refusal_in result
        ≡ first_of_row (ewbstart_row (sight_in epc.old frame.0) (use_sight epc.old va.old.pages frame.0 slot)
        (slot_sight epc.old va.old.pages slot)
        (drain_sight epc.old tracks.now frame.0)
        (is_spent_at versions.old)) }
    ensures answer { IfOk result (λ version. version ≡ versions.old) }
    ensures epc { OnOk result (epc.new ≡ with_sealing epc.old frame.0) }
    ensures va { OnOk result (va.new ≡ record va.old { pages = with_busy va.old.pages slot true }) }
    ensures versions { OnOk result (versions.new ≡ versions.old + 1) }
    ensures refused { OnErr result ((epc.new ≡ epc.old) × (va.new ≡ va.old) × (versions.new ≡ versions.old)) }
{
    if let Some(refusal) = start_refusal(epc, secs, tracks, va, versions, frame, slot) {
        return Err(refusal);
    }
    let version = versions.draw()?;
    epc.claim_seal(frame)?;
    va.set_busy(slot, true);
    Ok(version)
}

// The first case of the row that holds.
fn start_refusal(
    epc: &Epc,
    secs: &SecsTable,
    tracks: &Tracks,
    va: &VaTable,
    versions: &Versions,
    frame: Frame,
    slot: SlotAt,
) -> Option<Refusal>
    requires pages { AreVaPages epc.now va.now.pages }
    requires numbered { IsNumbered (sight_in epc.now frame.0).content }
    requires counted { AreCountedIn epc.now secs.now }
    requires created { HaveEnclaves epc.now secs.now }
    ensures { result
        ≡ first_of_row (ewbstart_row (sight_in epc.now frame.0) (use_sight epc.now va.now.pages frame.0 slot)
        (slot_sight epc.now va.now.pages slot)
        (drain_sight epc.now tracks.now frame.0)
        (is_spent_at versions.now)) }
{
    if is_out_of_range(epc, va, frame, slot) {
        return Some(Refusal::BadRange);
    }
    let entry = epc.entry(frame);
    if entry.is_busy() || is_slot_busy(epc, va, slot) || is_in_use(entry, va, frame) {
        return Some(Refusal::Conflict);
    }
    if entry.is_free() {
        return Some(Refusal::PgInvld);
    }
    if !epc.entry(slot.frame).is_va() || frame == slot.frame {
        return Some(Refusal::BadKind);
    }
    if let Some(refusal) = stay_refusal(epc, secs, tracks, frame) {
        return Some(refusal);
    }
    let version = va.slot(slot);
    if version != 0 {
        return Some(Refusal::SlotOccupied { version });
    }
    if versions.is_spent() {
        return Some(Refusal::VersionSpent);
    }
    None
}

// A slot of the version array page in a frame is busy.
fn is_in_use(entry: EntryView, va: &VaTable, frame: Frame) -> bool
    requires { is_va (held entry) ≡ true → has_page va.now.pages frame.0 ≡ true }
    ensures { result ≡ (is_va (held entry) && is_any_busy va.now.pages frame.0) }
{
    entry.is_va() && va.any_busy(frame)
}

// What keeps a page in its frame, by what the frame holds.
fn stay_refusal(epc: &Epc, secs: &SecsTable, tracks: &Tracks, frame: Frame) -> Option<Refusal>
    requires within { frame.0 < length epc.now }
    requires numbered { IsNumbered (sight_in epc.now frame.0).content }
    requires counted { AreCountedIn epc.now secs.now }
    requires created { HaveEnclaves epc.now secs.now }
    ensures { result ≡ first_of_row (stay_row (sight_in epc.now frame.0) (children_in epc.now frame.0)
        (drain_sight epc.now tracks.now frame.0)) }
{
    let EntryView::Valid {
        page,
        kind,
        blocked,
        ..
    } = epc.entry(frame)
    else {
        return None;
    };
    match kind {
        Kind::Va => None,
        Kind::Secs => children_refusal(secs.get(page.enclave).unwrap()),
        Kind::Tcs | Kind::Reg => track_refusal(tracks.get(page.enclave), blocked),
    }
}

fn children_refusal(secs: &Secs) -> Option<Refusal>
    ensures { result ≡ first_of_row (children_row secs.now.children) }
{
    let count = secs.children();
    if count != 0 {
        return Some(Refusal::ChildPresent { count });
    }
    None
}

fn track_refusal(track: &Track, blocked: Option<u64>) -> Option<Refusal>
    ensures { result ≡ first_of_row (track_row_from track.now blocked) }
{
    let Some(block) = blocked else {
        return Some(Refusal::PageNotBlocked);
    };
    if !track.drained(block) {
        return Some(Refusal::NotTracked {
            epoch: track.epoch(),
            older: track.at_or_below(block),
        });
    }
    None
}

/// The commit of EWB: the version of what was sealed stands in the slot, which is not busy any more, and the frame is free. A version
/// array page's slots go with it, and the enclave of a TCS or REG page has one resident page fewer. Answers the page that the
/// frame held. Never refused.
pub fn ewb_commit(
    epc: &mut Epc,
    secs: &mut SecsTable,
    va: &mut VaTable,
    slot: SlotAt,
    frame: Frame,
    work: &SealedWork,
) -> Page
    requires started { (sight_in epc.old frame.0).is_sealing ≡ true }
    requires slot { IsSlot va.old.pages slot }
    requires elsewhere { frame.0 ≢ slot.frame.0 }
    requires pages { AreVaPages epc.old va.old.pages }
    requires counted { AreCountedIn epc.old secs.old }
    requires places { length secs.old ≡ 8 }
    ensures answer { page_of (entry_at epc.old frame.0) ≡ Some result }
    ensures epc { epc.new ≡ cleared epc.old frame.0 }
    ensures va { va.new ≡ record va.old { pages = with_out epc.old va.old.pages frame.0 slot work.now.version } }
    ensures beside { SameBeside secs.old secs.new }
    ensures counts { AreCountedIn epc.new secs.new }
{
    let EntryView::Valid { page, kind, .. } = epc.entry(frame) else {
        unreachable!();
    };
    array_goes(va, kind, frame);
    va.write(slot, work.version);
    va.set_busy(slot, false);
    epc.clear(frame);
    page_goes(epc, secs, page, kind);
    page
}

// A version array page goes out with its slots.
fn array_goes(va: &mut VaTable, kind: Kind, frame: Frame)
    requires { is_array kind ≡ true → has_page va.old.pages frame.0 ≡ true }
    ensures { va.new ≡ record va.old { pages = emptied (is_array kind) va.old.pages frame.0 } }
{
    if kind == Kind::Va {
        va.take_out(frame);
    }
}
