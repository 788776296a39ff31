//! Loads, stores and exchanges of a processor inside an enclave.

ghost use Rattle.std.specs.Prelude.{◌≡◌, length, IfOk, OnOk, OnErr};
ghost use Rattle.sgx_types.specs.Cases.{first_of_row};
ghost use Rattle.sgx_rules.specs.Table.{load_row, store_row, xadd_row};
ghost use Rattle.sgx_rules.specs.inner.Table.{refusal_in};
ghost use Rattle.sgx_rules.specs.Flat.{sum_of};
ghost use Rattle.cached_translations.specs.inner.Modes.{is_inside};
ghost use Rattle.enclave_access.specs.inner.Access.{LeadsBelow, perm_at, word_through, with_stored};

use crate::translate::{translate, word_index};
use cached_translations::processor::Processor;
use epcm_entry::epc::Epc;
use sgx_rules::entries::AccessOp;
use sgx_rules::refusals::Refusal;

/// The word of 8 bytes at an offset in bytes in the enclave that a processor is inside. It is read through the translation
/// that the processor holds: no EPCM entry is looked at, so it is answered also where the page is blocked.
///
/// Refused, in this order, as WrongMode outside; BadRange where the offset is no multiple of 8; Miss where no translation of
/// its page is held; and NoPerm without R.
pub fn load(epc: &Epc, cpu: &Processor, off: u64) -> Result<u64, Refusal>
    requires { LeadsBelow cpu.now.cache (length epc.now) }
    ensures row { refusal_in result ≡ first_of_row (load_row off (is_inside cpu.now.mode) (perm_at cpu.now.cache off)) }
    ensures answer { IfOk result (λ word. word ≡ word_through epc.now cpu.now.cache off) }
{
    let translation = translate(cpu, off, AccessOp::Load)?;
    Ok(epc.word(translation.frame, word_index(off)))
}

/// Writes the word at an offset, as `load` reads it.
///
/// Refused as `load`, with NoPerm without W.
pub fn store(epc: &mut Epc, cpu: &Processor, off: u64, value: u64) -> Result<(), Refusal>
    requires { LeadsBelow cpu.now.cache (length epc.old) }
    ensures row { refusal_in result ≡ first_of_row (store_row off (is_inside cpu.now.mode) (perm_at cpu.now.cache off)) }
    ensures done { OnOk result (epc.new ≡ with_stored epc.old cpu.now.cache off value) }
    ensures refused { OnErr result (epc.new ≡ epc.old) }
{
    let translation = translate(cpu, off, AccessOp::Store)?;
    epc.set_word(translation.frame, word_index(off), value);
    Ok(())
}

/// Adds to the word at an offset, mod 2^64, and answers the old word.
///
/// Refused as `load`, with NoPerm without R and W.
pub fn xadd(epc: &mut Epc, cpu: &Processor, off: u64, value: u64) -> Result<u64, Refusal>
    requires { LeadsBelow cpu.now.cache (length epc.old) }
    ensures row { refusal_in result ≡ first_of_row (xadd_row off (is_inside cpu.now.mode) (perm_at cpu.now.cache off)) }
    ensures answer { IfOk result (λ word. word ≡ word_through epc.old cpu.now.cache off) }
    ensures done { OnOk result (epc.new
        ≡ with_stored epc.old cpu.now.cache off (sum_of (word_through epc.old cpu.now.cache off) value)) }
    ensures refused { OnErr result (epc.new ≡ epc.old) }
{
    let translation = translate(cpu, off, AccessOp::Xadd)?;
    let index = word_index(off);
    let word = epc.word(translation.frame, index);
    epc.set_word(translation.frame, index, word.wrapping_add(value));
    Ok(word)
}
