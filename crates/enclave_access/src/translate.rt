//! The way from an offset to a frame, by the translations alone.

ghost use Rattle.std.specs.Prelude.{◌≡◌, ◌/◌, ◌<◌, Some, IfOk};
ghost use Rattle.sgx_types.specs.Cases.{first_of_row};
ghost use Rattle.sgx_rules.specs.Table.{allows};
ghost use Rattle.sgx_rules.specs.inner.Table.{refusal_in};
ghost use Rattle.sgx_rules.specs.Flat.{word_index};
ghost use Rattle.cached_translations.specs.inner.Modes.{is_inside};
ghost use Rattle.cached_translations.specs.inner.Translations.{translation_of};
ghost use Rattle.enclave_access.specs.inner.Access.{translation_at, perm_at, row_of};

use cached_translations::cache::{Cache, Translation};
use cached_translations::processor::Processor;
use sgx_rules::entries::AccessOp;
use sgx_rules::refusals::Refusal;
use sgx_types::names::Perm;

/// The translation through which an access goes, or the first case of its row that holds.
pub fn translate(cpu: &Processor, off: u64, op: AccessOp) -> Result<Translation, Refusal>
    ensures row { refusal_in result ≡ first_of_row (row_of op off (is_inside cpu.now.mode) (perm_at cpu.now.cache off)) }
    ensures found { IfOk result (λ t. translation_at cpu.now.cache off ≡ Some t) }
{
    if !cpu.mode.is_inside() {
        return Err(Refusal::WrongMode);
    }
    if off % 8 != 0 {
        return Err(Refusal::BadRange);
    }
    let Some(translation) = find(&cpu.cache, off / 4096) else {
        return Err(Refusal::Miss);
    };
    if !allows(translation.perm, op) {
        return Err(Refusal::NoPerm);
    }
    Ok(translation)
}

/// The index in its page of the word at an offset in bytes.
pub fn word_index(off: u64) -> u16
    ensures value { result ≡ word_index off }
    ensures in_page { result < 512 }
{
    (off % 4096 / 8) as u16
}

// The translation of a page. Its number is not cut to 32 bits: `len` tells that a cache holds no page past them.
fn find(cache: &Cache, number: u64) -> Option<Translation>
    ensures { result ≡ translation_of cache.now number }
{
    let _places = cache.len();
    let number = u32::try_from(number).ok()?;
    cache.find(number)
}

fn allows(perm: Perm, op: AccessOp) -> bool
    ensures { result ≡ allows perm op }
{
    match op {
        AccessOp::Load => perm.r,
        AccessOp::Store => perm.w,
        AccessOp::Xadd => perm.r && perm.w,
    }
}
