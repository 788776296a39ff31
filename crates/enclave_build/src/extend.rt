//! EEXTEND: 256 bytes of a page are measured.

ghost use Rattle.std.specs.Prelude.{◌≡◌, ◌<◌, ◌==◌, None, IfSome, OnOk, OnErr, false};
ghost use Rattle.sgx_rules.specs.Frames.{enclave_in};
ghost use Rattle.sgx_types.specs.Cases.{first_of_row};
ghost use Rattle.sgx_rules.specs.Table.{extend_row};
ghost use Rattle.sgx_rules.specs.inner.Table.{refusal_in};
ghost use Rattle.epcm_entry.specs.inner.Sights.{sight_in};
ghost use Rattle.measure_log.specs.Blocks.{chunk_of};
ghost use Rattle.enclave_build.specs.inner.Build.{Appends, chunk_block};

use epcm_entry::entry_view::EntryView;
use epcm_entry::epc::Epc;
use measure_log::measure::Measure;
use secs_state::secs::Secs;
use sgx_rules::refusals::Refusal;
use sgx_types::names::Frame;

/// EEXTEND (Intel SDM volume 3D): the log of an enclave that is not initialised gets the 256 bytes of chunk `chunk`,
/// from 0 to 15, of the TCS or REG page in a frame, with their offset in the enclave. `secs` and `log` are those of the
/// page's enclave.
///
/// Refused, in this order, as BadRange where the frame is past the EPC's end or there is no such chunk; Conflict where the
/// frame is busy; PgInvld where it is free; BadKind where it holds another page than a TCS or REG page; and IsInit.
pub fn eextend(
    epc: &Epc,
    secs: &Secs,
    log: &mut Measure,
    frame: Frame,
    chunk: u8,
) -> Result<(), Refusal>
    requires { IfSome (enclave_in (sight_in epc.now frame.0).content) (λ enclave. enclave ≡ secs.now.enclave) }
    ensures row { refusal_in result
        ≡ first_of_row (extend_row chunk secs.now.is_init (sight_in epc.now frame.0)) }
    ensures done { OnOk result (Appends log.old log.new (chunk_block epc.now frame.0 chunk)) }
    ensures refused { OnErr result (log.new ≡ log.old) }
{
    if let Some(refusal) = extend_refusal(epc, secs.is_init(), frame, chunk) {
        return Err(refusal);
    }
    measure_chunk(epc, log, frame, chunk);
    Ok(())
}

/// The first case that holds of the row of `extend`, by whether the enclave of the page in the frame is initialised.
/// Where the frame holds no TCS or REG page, that is not looked at.
pub fn extend_refusal(epc: &Epc, is_init: bool, frame: Frame, chunk: u8) -> Option<Refusal>
    ensures { result ≡ first_of_row (extend_row chunk is_init (sight_in epc.now frame.0)) }
{
    if frame.0 >= epc.frames() || chunk > 15 {
        return Some(Refusal::BadRange);
    }
    let entry = epc.entry(frame);
    if entry.is_busy() {
        return Some(Refusal::Conflict);
    }
    if !entry.is_valid() {
        return Some(Refusal::PgInvld);
    }
    if !entry.is_tcs() && !entry.is_reg() {
        return Some(Refusal::BadKind);
    }
    if is_init {
        return Some(Refusal::IsInit);
    }
    None
}

// The log goes on by the block of a chunk.
fn measure_chunk(epc: &Epc, log: &mut Measure, frame: Frame, chunk: u8)
    requires { first_of_row (extend_row chunk false (sight_in epc.now frame.0)) ≡ None }
    ensures { Appends log.old log.new (chunk_block epc.now frame.0 chunk) }
{
    let EntryView::Valid { page, .. } = epc.entry(frame) else {
        unreachable!();
    };
    let offset = 4096 * u64::from(page.number) + 256 * u64::from(chunk);
    log.extend(offset, chunk_at(epc.bytes(frame), chunk));
}

// A chunk of a page's bytes.
fn chunk_at(bytes: &[u8; 4096], chunk: u8) -> &[u8; 256]
    requires { chunk < 16 }
    ensures { result.now ≡ chunk_of bytes.now chunk }
{
    &bytes.as_chunks().0[usize::from(chunk)]
}
