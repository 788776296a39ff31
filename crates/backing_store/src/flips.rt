//! Copies of records.

ghost use Rattle.std.specs.Prelude.{◌≡◌, length, IfOk};
ghost use Rattle.backing_store.specs.inner.Flips.{flipped, record_in, invert_bit};
ghost use Rattle.sgx_types.specs.inner.Sealed.{record_bytes};

use sgx_types::names::Memory;
use sgx_types::record::Record;
use std::alloc::Global;

/// A copy of a record. Where a bit is named, that bit of its 4152 bytes is inverted.
pub fn copy(alloc: Global, rec: &Record, bit: Option<u32>) -> Result<Record, Memory>
    ensures { IfOk result (λ made. made ≡ flipped bit rec.now) }
{
    match bit {
        Some(bit) => copy_flipped(alloc, rec, bit),
        None => Ok(Record {
            header: rec.header,
            cipher: rec.cipher.to_vec(alloc)?,
            tag: rec.tag,
        }),
    }
}

fn copy_flipped(alloc: Global, rec: &Record, bit: u32) -> Result<Record, Memory>
    ensures { IfOk result (λ made. made ≡ record_in (invert_bit bit (record_bytes rec.now))) }
{
    let mut bytes = rec.to_bytes(alloc)?;
    invert(&mut bytes, bit);
    read(alloc, &bytes)
}

// The record of 4152 bytes.
fn read(alloc: Global, bytes: &[u8]) -> Result<Record, Memory>
    requires { length bytes.now ≡ 4152 }
    ensures { IfOk result (λ made. made ≡ record_in bytes.now) }
{
    match Record::from_bytes(alloc, bytes) {
        Ok(made) => Ok(made),
        Err(_) => Err(Memory),
    }
}

fn invert(bytes: &mut [u8], bit: u32)
    ensures { bytes.new ≡ invert_bit bit bytes.old }
{
    let at = (bit / 8) as usize;
    if at < bytes.len() {
        bytes[at] ^= 1 << (bit % 8);
    }
}
