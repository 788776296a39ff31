//! ELDU by a start and a commit: a page comes back.

ghost use Rattle.sgx_types.specs.declared.names.TheConstants.{MOST_FRAMES};
ghost use Rattle.std.specs.Prelude.{is_some, IfSome, ◌≤◌, ◌≡◌, ◌<◌, true, false, Some, IfOk, OnOk, OnErr, length};
ghost use Rattle.sgx_types.specs.Cases.{first_of_row};
ghost use Rattle.sgx_rules.specs.Table.{eldstart_row};
ghost use Rattle.sgx_rules.specs.inner.Table.{refusal_in};
ghost use Rattle.epcm_entry.specs.inner.EntryView.{is_valid};
ghost use Rattle.epcm_entry.specs.inner.Epc.{entry_at, with_loading, cleared};
ghost use Rattle.epcm_entry.specs.inner.Sights.{sight_in};
ghost use Rattle.version_array.specs.inner.Slots.{IsSlot, has_page, pages_made, version_in, with_busy};
ghost use Rattle.sgx_types.specs.Pages.{is_own_page, is_va_page};
ghost use Rattle.sgx_rules.specs.Frames.{IsLoading};
ghost use Rattle.epcm_entry.specs.inner.Sights.{held_in};
ghost use Rattle.evict_reload.specs.inner.Sights.{AreCountedIn, AreVaPages, is_kind_own, load_sight, page_row, slot_sight};
ghost use Rattle.seal_record.specs.inner.Row.{eld_row};
ghost use Rattle.evict_reload.specs.inner.Effects.{SameBeside, header_in, kind_in, refilled, with_child, with_in, with_kind};
ghost use Rattle.evict_reload.specs.inner.Effects.{with_reloaded};

use crate::child::{child_comes, child_fails, page_comes};
use crate::secs::secs_refusal;
use crate::slot::{is_out_of_range, is_slot_busy};
use epcm_entry::epc::Epc;
use seal_record::unseal::UnsealedWork;
use secs_state::secs::Secs;
use secs_state::table::SecsTable;
use sgx_rules::refusals::Refusal;
use sgx_types::layouts::flags;
use sgx_types::names::{Frame, Kind, Page, Perm, SECS_NUMBER, SlotAt};
use sgx_types::record::Header;
use version_array::va_table::VaTable;

/// The start of ELDU (Intel SDM volume 3D): a free frame waits for a page whose version stands in a slot. The slot is
/// busy, and its version is the answer.
///
/// Refused, in this order, as BadRange where a frame is past the EPC's end or there is no such slot; Absent where the
/// enclave was not created or the page not added; Conflict where the frame or the slot is busy; FrameBusy where the frame
/// holds a page; BadKind where the slot's frame holds no version array page; and SlotEmpty.
pub fn eld_start(
    epc: &mut Epc,
    secs: &mut SecsTable,
    va: &mut VaTable,
    frame: Frame,
    page: Page,
    slot: SlotAt,
) -> Result<u64, Refusal>
    requires pages { AreVaPages epc.old va.old.pages }
    requires counted { AreCountedIn epc.old secs.old }
    requires small { length epc.old ≤ MOST_FRAMES }
    requires places { length secs.old ≡ 8 }
    ensures row { refusal_in result
        ≡ first_of_row (eldstart_row (sight_in epc.old frame.0) (load_sight epc.old va.old.made secs.old page)
        (slot_sight epc.old va.old.pages slot)) }
    ensures answer { IfOk result (λ version. version ≡ version_in va.old.pages slot) }
    ensures epc { OnOk result (epc.new ≡ with_loading epc.old frame.0 page) }
    ensures va { OnOk result (va.new ≡ record va.old { pages = with_busy va.old.pages slot true }) }
    ensures secs { OnOk result (secs.new ≡ with_child secs.old page) }
    ensures beside { SameBeside secs.old secs.new }
    ensures counts { AreCountedIn epc.new secs.new }
    ensures refused { OnErr result ((epc.new ≡ epc.old) × (va.new ≡ va.old) × (secs.new ≡ secs.old)) }
{
    if let Some(refusal) = start_refusal(epc, secs, va, frame, page, slot) {
        return Err(refusal);
    }
    let version = va.slot(slot);
    epc.claim_load(frame, page)?;
    va.set_busy(slot, true);
    child_comes(secs, page);
    Ok(version)
}

// The first case of the row that holds.
fn start_refusal(
    epc: &Epc,
    secs: &SecsTable,
    va: &VaTable,
    frame: Frame,
    page: Page,
    slot: SlotAt,
) -> Option<Refusal>
    requires pages { AreVaPages epc.now va.now.pages }
    requires counted { AreCountedIn epc.now secs.now }
    ensures { result
        ≡ first_of_row (eldstart_row (sight_in epc.now frame.0) (load_sight epc.now va.now.made secs.now page)
        (slot_sight epc.now va.now.pages slot)) }
{
    if is_out_of_range(epc, va, frame, slot) {
        return Some(Refusal::BadRange);
    }
    if let Some(refusal) = page_refusal(epc, secs, va, page) {
        return Some(refusal);
    }
    let entry = epc.entry(frame);
    if entry.is_busy() || is_slot_busy(epc, va, slot) {
        return Some(Refusal::Conflict);
    }
    if entry.is_valid() {
        return Some(Refusal::FrameBusy);
    }
    if !epc.entry(slot.frame).is_va() {
        return Some(Refusal::BadKind);
    }
    if va.slot(slot) == 0 {
        return Some(Refusal::SlotEmpty);
    }
    None
}

// The cases that the page gives: there is one of this name, and for a TCS or REG page the SECS of its enclave is in.
fn page_refusal(epc: &Epc, secs: &SecsTable, va: &VaTable, page: Page) -> Option<Refusal>
    requires { AreCountedIn epc.now secs.now }
    ensures { result ≡ first_of_row (page_row (load_sight epc.now va.now.made secs.now page)) }
{
    if page.enclave == 0 {
        if u64::from(page.number) < va.made() {
            return None;
        }
        return Some(Refusal::Absent);
    }
    let Some(enclave) = secs.get(page.enclave) else {
        return Some(Refusal::Absent);
    };
    if page.number == SECS_NUMBER {
        return None;
    }
    if enclave.added(page.number).is_none() {
        return Some(Refusal::Absent);
    }
    secs_refusal(epc, enclave, page.enclave)
}

// The type and the permissions of a page: by its name, or as it was added to its enclave.
fn kind_in(secs: &SecsTable, page: Page) -> Option<(Kind, Perm)>
    ensures { result ≡ kind_in secs.now page }
{
    if page.enclave == 0 {
        return Some((Kind::Va, Perm::NONE));
    }
    if page.number == SECS_NUMBER {
        return Some((Kind::Secs, Perm::NONE));
    }
    secs.get(page.enclave)?.added(page.number)
}

/// The commit of ELDU: the frame holds the page, not blocked: a TCS or REG page with the bytes that were deciphered and its kind and
/// permissions, a version array page with its slots, or a SECS, which its enclave then knows. The slot has no version and is not
/// busy.
///
/// Refused, in this order, as MacFail where the tag that was computed of the record is not the one that it carries, with
/// both; and as BadHeader where the record's header is not the page's, with the numbers of the record's. After either the
/// frame is free, and the slot is not busy and keeps its version.
pub fn eld_commit(
    epc: &mut Epc,
    secs: &mut SecsTable,
    va: &mut VaTable,
    slot: SlotAt,
    frame: Frame,
    page: Page,
    work: &UnsealedWork,
) -> Result<(), Refusal>
    requires started { held_in epc.old frame.0 ≡ IsLoading page }
    requires slot { IsSlot va.old.pages slot }
    requires known { is_some (kind_in secs.old page) ≡ true }
    requires kinds { IfSome (kind_in secs.old page) (λ x. is_own_page page ≡ is_kind_own x.0) }
    requires pages { AreVaPages epc.old va.old.pages }
    requires room { first_of_row (eld_row work.now.rec work.now.computed (header_in secs.old page)) ≡ None
        → is_va_page page ≡ true → pages_made va.old.pages < va.old.made }
    requires counted { AreCountedIn epc.old secs.old }
    requires small { length epc.old ≤ MOST_FRAMES }
    requires places { length secs.old ≡ 8 }
    ensures row { refusal_in result ≡ first_of_row (eld_row work.now.rec work.now.computed (header_in secs.old page)) }
    ensures epc { OnOk result (epc.new ≡ with_reloaded epc.old secs.old frame.0 page work.now.plain.items) }
    ensures va { OnOk result (va.new ≡ record va.old { pages = with_in va.old.pages frame.0 page work.now.plain.items slot }) }
    ensures refused { OnErr result ((epc.new ≡ cleared epc.old frame.0)
        × (va.new ≡ record va.old { pages = with_busy va.old.pages slot false })) }
    ensures beside { SameBeside secs.old secs.new }
    ensures counts { AreCountedIn epc.new secs.new }
{
    if let Some(refusal) = commit_refusal(secs, page, work) {
        va.set_busy(slot, false);
        epc.clear(frame);
        child_fails(secs, page);
        return Err(refusal);
    }
    let (kind, perm) = kind_in(secs, page).unwrap();
    let plain = work.plain.as_slice().as_array().unwrap();
    put_page(epc, frame, page, kind, perm, plain);
    array_comes(va, page, frame, plain);
    va.clear(slot);
    va.set_busy(slot, false);
    page_comes(epc, secs, page, kind);
    Ok(())
}

// A version array page comes back with its slots.
fn array_comes(va: &mut VaTable, page: Page, frame: Frame, plain: &[u8; 4096])
    requires within { frame.0 < MOST_FRAMES }
    requires vacant { has_page va.old.pages frame.0 ≡ false }
    requires out { is_va_page page ≡ true → pages_made va.old.pages < va.old.made }
    ensures { va.new ≡ record va.old { pages = refilled (is_va_page page) va.old.pages frame.0 plain.now } }
{
    if page.enclave == 0 {
        va.put_in(frame, plain);
    }
}

// The frame holds the page from now on, a TCS or REG page with its bytes.
fn put_page(epc: &mut Epc, frame: Frame, page: Page, kind: Kind, perm: Perm, plain: &[u8; 4096])
    requires within { frame.0 < length epc.old }
    requires vacant { is_valid (entry_at epc.old frame.0) ≡ false }
    ensures { epc.new ≡ with_kind epc.old frame.0 page kind perm plain.now }
{
    epc.set(frame, page, kind, perm);
    if matches!(kind, Kind::Tcs | Kind::Reg) {
        epc.set_bytes(frame, plain);
    }
}

// The first case of the row of the commit that holds.
fn commit_refusal(secs: &SecsTable, page: Page, work: &UnsealedWork) -> Option<Refusal>
    ensures { result ≡ first_of_row (eld_row work.now.rec work.now.computed (header_in secs.now page)) }
{
    if work.rec.tag != work.computed {
        return Some(Refusal::MacFail {
            given: work.rec.tag,
            computed: work.computed,
        });
    }
    let header = work.rec.header;
    if header_in(secs, page) != Some(header) {
        return Some(Refusal::BadHeader {
            enclave: header.enclave,
            address: header.address,
            flags: header.flags,
        });
    }
    None
}

/// The header that the record of a page has, None for a TCS or REG page that was not added.
pub fn header_in(secs: &SecsTable, page: Page) -> Option<Header>
    ensures { result ≡ header_in secs.now page }
{
    if page.enclave == 0 {
        return Some(Header {
            enclave: 0,
            address: 4096 * u64::from(page.number),
            flags: flags(Kind::Va, Perm::NONE),
        });
    }
    if page.number == SECS_NUMBER {
        return Some(Header {
            enclave: u64::from(page.enclave),
            address: 0,
            flags: flags(Kind::Secs, Perm::NONE),
        });
    }
    let enclave = secs.get(page.enclave)?;
    let (kind, perm) = enclave.added(page.number)?;
    Some(Header {
        enclave: u64::from(page.enclave),
        address: enclave.address(page.number),
        flags: flags(kind, perm),
    })
}
