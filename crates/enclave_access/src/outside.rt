//! Accesses to an enclave's memory from outside, which reach nothing of it.

ghost use Rattle.std.specs.Prelude.{◌≡◌, IfOk};
ghost use Rattle.sgx_types.specs.Cases.{first_of_row};
ghost use Rattle.sgx_rules.specs.Table.{outside_row};
ghost use Rattle.sgx_rules.specs.inner.Table.{refusal_in};
ghost use Rattle.sgx_rules.specs.Flat.{all_ones};
ghost use Rattle.cached_translations.specs.inner.Modes.{is_inside};

use cached_translations::processor::Processor;
use sgx_rules::refusals::Refusal;

/// A load of an enclave's address by a processor outside answers 2^64 - 1, whatever is there (this project's own: the
/// manual's abort page reads as all ones).
///
/// Refused as WrongMode inside.
pub fn outside_load(cpu: &Processor) -> Result<u64, Refusal>
    ensures row { refusal_in result ≡ first_of_row (outside_row (is_inside cpu.now.mode)) }
    ensures answer { IfOk result (λ word. word ≡ all_ones) }
{
    if cpu.mode.is_inside() {
        return Err(Refusal::WrongMode);
    }
    Ok(u64::MAX)
}

/// A store to an enclave's address by a processor outside is dropped.
///
/// Refused as WrongMode inside.
pub fn outside_store(cpu: &Processor) -> Result<(), Refusal>
    ensures { refusal_in result ≡ first_of_row (outside_row (is_inside cpu.now.mode)) }
{
    if cpu.mode.is_inside() {
        return Err(Refusal::WrongMode);
    }
    Ok(())
}
