//! EINIT: an enclave is initialised, and its measurement is final.

ghost use Rattle.std.specs.Prelude.{◌≡◌, length, List, ℕ, Some, OnOk, OnErr, IfOk};
ghost use Rattle.sgx_types.specs.Cases.{first_of_row};
ghost use Rattle.sgx_rules.specs.Table.{init_row};
ghost use Rattle.sgx_rules.specs.inner.Table.{refusal_in};
ghost use Rattle.secs_state.specs.inner.Secs.{with_init};
ghost use Rattle.measure_log.specs.Measure.{measurement_of};
ghost use Rattle.measure_log.specs.inner.Measure.{HoldsLog};
ghost use Rattle.secs_state.specs.inner.Sights.{sight_of};
ghost use Rattle.enclave_build.specs.inner.Build.{AgreesWith, is_expected, measured_row, secs_sight, unless_measured};
ghost use Rattle.epcm_entry.specs.inner.Sights.{held_in};
ghost use Rattle.secs_state.specs.inner.Resident.{IsCountedIn};

use crate::secs::secs_refusal;
use epcm_entry::epc::Epc;
use measure_log::measure::Measure;
use secs_state::secs::Secs;
use sgx_rules::refusals::Refusal;

/// EINIT (Intel SDM volume 3D): an enclave is initialised, and answers the measurement of its log, SHA-256.
///
/// Refused, in this order, as Absent where no frame holds the SECS; Conflict while it is on its way out; IsInit; and as BadMeasure, with
/// the measurement, where `expect` has another digest. No signature, token or attribute is looked at, which is this project's own.
pub fn einit(
    epc: &Epc,
    secs: &mut Secs,
    log: &Measure,
    expect: Option<[u8; 32]>,
) -> Result<[u8; 32], Refusal>
    requires counted { IsCountedIn (length epc.now) (held_in epc.now) secs.old.enclave secs.old }
    ensures row { unless_measured (refusal_in result)
        ≡ first_of_row (init_row (Some (sight_of secs.old)) (secs_sight epc.now secs.old.enclave)) }
    // The row with one case more behind its others: that another digest is expected.
    ensures measured { (bytes : List ℕ) → HoldsLog log.now bytes
        → refusal_in result ≡ first_of_row (measured_row (sight_of secs.old) (secs_sight epc.now secs.old.enclave) expect
        (measurement_of bytes)) }
    ensures expected { AgreesWith expect result }
    ensures done { OnOk result (secs.new ≡ with_init secs.old) }
    ensures answer { (bytes : List ℕ) → HoldsLog log.now bytes → IfOk result (λ digest. digest ≡ measurement_of bytes) }
    ensures refused { OnErr result (secs.new ≡ secs.old) }
{
    if let Some(refusal) = secs_refusal(epc, secs) {
        return Err(refusal);
    }
    if secs.is_init() {
        return Err(Refusal::IsInit);
    }
    // The digest is compared before the mark: an enclave that is marked can be entered.
    let made = log.finish();
    if !is_expected(expect, made) {
        return Err(Refusal::BadMeasure { made });
    }
    secs.set_init();
    Ok(made)
}

fn is_expected(expect: Option<[u8; 32]>, made: [u8; 32]) -> bool
    ensures { result ≡ is_expected expect made }
{
    match expect {
        Some(wanted) => wanted == made,
        None => true,
    }
}
