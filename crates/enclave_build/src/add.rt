//! EADD: a page is added to an enclave that is being built.

ghost use Rattle.std.specs.Prelude.{◌≡◌, ◌<◌, ◌≤◌, ◌-◌, ◌^◌, ◌*◌, false, None, Some, OnOk, OnErr, is_some, length};
ghost use Rattle.sgx_types.specs.Pages.{page_at};
ghost use Rattle.sgx_types.specs.Layouts.{flags_of};
ghost use Rattle.sgx_types.specs.Lawful.{is_addable, is_lawful_perm, is_within};
ghost use Rattle.sgx_types.specs.Cases.{first_of_row};
ghost use Rattle.sgx_rules.specs.Table.{add_row};
ghost use Rattle.sgx_rules.specs.inner.Table.{refusal_in};
ghost use Rattle.epcm_entry.specs.inner.EntryView.{is_valid};
ghost use Rattle.epcm_entry.specs.inner.Epc.{entry_at};
ghost use Rattle.epcm_entry.specs.inner.Sights.{sight_in};
ghost use Rattle.secs_state.specs.inner.Secs.{added_at, page_count};
ghost use Rattle.measure_log.specs.Blocks.{eadd_block};
ghost use Rattle.secs_state.specs.inner.Sights.{sight_of};
ghost use Rattle.enclave_build.specs.inner.Build.{Appends, secs_sight, with_added, with_resident};
ghost use Rattle.sgx_types.specs.declared.names.TheConstants.{MOST_FRAMES};
ghost use Rattle.epcm_entry.specs.inner.Sights.{held_in};
ghost use Rattle.secs_state.specs.inner.Resident.{IsCountedIn};

use crate::secs::secs_refusal;
use epcm_entry::epc::Epc;
use measure_log::measure::Measure;
use secs_state::secs::Secs;
use sgx_rules::refusals::Refusal;
use sgx_types::lawful::{PageInit, is_addable, is_lawful_perm, is_within};
use sgx_types::layouts::flags;
use sgx_types::names::{Frame, Kind, Page, Perm};

/// EADD (Intel SDM volume 3D): a free frame becomes page `number` of an enclave that is not initialised, with the bytes
/// of `init`. The log gets the page's offset and SECINFO.FLAGS, and the page counts as resident.
///
/// Refused, in this order, as BadRange where the frame is past the EPC's end; Absent where no frame holds the SECS; Conflict
/// while it is on its way out; IsInit; BadKind where the kind is neither TCS
/// nor REG, or `init` is of the other; BadPerm for W without R, or a TCS with a permission; BadRange where the page or a
/// TCS's state save frames are past the enclave's end, or the TCS has none; PageExists where the page was added before;
/// Conflict where the frame is busy; and FrameBusy where it holds a page.
pub fn eadd(
    epc: &mut Epc,
    secs: &mut Secs,
    log: &mut Measure,
    number: u32,
    frame: Frame,
    kind: Kind,
    perm: Perm,
    init: PageInit,
) -> Result<(), Refusal>
    requires counted { IsCountedIn (length epc.old) (held_in epc.old) secs.old.enclave secs.old }
    requires small { length epc.old ≤ MOST_FRAMES }
    ensures row { refusal_in result
        ≡ first_of_row (add_row number kind perm init (Some (sight_of secs.old)) (secs_sight epc.old secs.old.enclave)
        (is_some (added_at secs.old number))
        (sight_in epc.old frame.0)) }
    ensures done { OnOk result (epc.new ≡ with_added epc.old frame.0 (page_at secs.old.enclave number) kind perm init) }
    ensures secs { OnOk result (secs.new ≡ with_resident secs.old number kind perm) }
    ensures log { OnOk result (Appends log.old log.new (eadd_block (4096 * number) (flags_of kind perm))) }
    ensures counts { OnOk result (IsCountedIn (length epc.new) (held_in epc.new) secs.new.enclave secs.new) }
    ensures refused { OnErr result ((epc.new ≡ epc.old) × (secs.new ≡ secs.old) × (log.new ≡ log.old)) }
{
    if let Some(refusal) = add_refusal(epc, secs, number, frame, kind, perm, init) {
        return Err(refusal);
    }
    // All cases come first: a page that stood in its frame and not in the log would be one that nobody measured.
    let enclave = secs.enclave();
    put_page(epc, frame, Page { enclave, number }, kind, perm, init);
    note_page(secs, number, kind, perm);
    log.add(4096 * u64::from(number), flags(kind, perm));
    Ok(())
}

// The first case of the row that holds.
fn add_refusal(
    epc: &Epc,
    secs: &Secs,
    number: u32,
    frame: Frame,
    kind: Kind,
    perm: Perm,
    init: PageInit,
) -> Option<Refusal>
    requires { IsCountedIn (length epc.now) (held_in epc.now) secs.now.enclave secs.now }
    ensures { result
        ≡ first_of_row (add_row number kind perm init (Some (sight_of secs.now)) (secs_sight epc.now secs.now.enclave)
        (is_some (added_at secs.now number))
        (sight_in epc.now frame.0)) }
{
    if frame.0 >= epc.frames() {
        return Some(Refusal::BadRange);
    }
    if let Some(refusal) = secs_refusal(epc, secs) {
        return Some(refusal);
    }
    if secs.is_init() {
        return Some(Refusal::IsInit);
    }
    if !is_addable(kind, init) {
        return Some(Refusal::BadKind);
    }
    if !is_lawful_perm(kind, perm) {
        return Some(Refusal::BadPerm);
    }
    if !is_within(secs.size(), number, init) {
        return Some(Refusal::BadRange);
    }
    if secs.added(number).is_some() {
        return Some(Refusal::PageExists);
    }
    let entry = epc.entry(frame);
    if entry.is_busy() {
        return Some(Refusal::Conflict);
    }
    if entry.is_valid() {
        return Some(Refusal::FrameBusy);
    }
    None
}

// A free frame holds the page from now on, with its first bytes.
fn put_page(epc: &mut Epc, frame: Frame, page: Page, kind: Kind, perm: Perm, init: PageInit)
    requires within { frame.0 < length epc.old }
    requires vacant { is_valid (entry_at epc.old frame.0) ≡ false }
    ensures { epc.new ≡ with_added epc.old frame.0 page kind perm init }
{
    epc.set(frame, page, kind, perm);
    match init {
        PageInit::Words(value) => epc.fill(frame, value),
        PageInit::Tcs { ossa, nssa } => {
            epc.fill(frame, 0);
            epc.set_word(frame, 2, u64::from(ossa) * 4096);
            epc.set_word(frame, 3, u64::from(nssa) * (1 << 32));
        }
    }
}

// The page is added and resident.
fn note_page(secs: &mut Secs, number: u32, kind: Kind, perm: Perm)
    requires within { number < page_count secs.old.size }
    requires absent { added_at secs.old number ≡ None }
    requires few { secs.old.children < 2 ^ 32 - 1 }
    ensures { secs.new ≡ with_resident secs.old number kind perm }
{
    secs.note_added(number, kind, perm);
    secs.child_added();
}
