//! The bytes of pages that are no TCS or REG pages.

ghost use Rattle.std.specs.Prelude.{◌≡◌, ◌+◌, ◌++◌, true, length, vec_capacity};
ghost use Rattle.epcm_entry.specs.inner.Words.{words_of};
ghost use Rattle.page_bytes.specs.inner.Bytes.{HasRoom, slots_at};
ghost use Rattle.sgx_rules.specs.PageBytes.{secs_bytes};
ghost use Rattle.sgx_types.specs.Layouts.{bytes_of, zeros};
ghost use Rattle.version_array.specs.inner.Slots.{has_page};

use sgx_types::names::{Frame, SLOTS, SlotAt};
use version_array::va_table::VaTable;

/// Puts the versions in the 512 slots of the version array page in a frame, each of 8 bytes, low byte first.
pub fn put_slots(va: &VaTable, frame: Frame, onto: &mut Vec<u8>)
    requires page { has_page va.now.pages frame.0 ≡ true }
    requires room { HasRoom 4096 onto.old }
    ensures bytes { onto.new.items ≡ onto.old.items ++ bytes_of (slots_at va.now.pages frame.0) }
    ensures words { words_of (bytes_of (slots_at va.now.pages frame.0)) ≡ slots_at va.now.pages frame.0 }
{
    for index in 0..SLOTS {
        let version = va.slot(SlotAt { frame, index });
        put(&version.to_le_bytes(), onto);
    }
}

/// Puts the bytes of a SECS by its enclave's range, SIZE and BASE in bytes, and the digest with which the enclave was initialised, zeros
/// before: SIZE at 0, BASE at 8, the number 1 at 16 and the digest at 64, zeros elsewhere (Intel SDM volume 3D, SECS).
pub fn put_secs(base: u64, size: u64, digest: &[u8; 32], onto: &mut Vec<u8>)
    requires { HasRoom 4096 onto.old }
    ensures { onto.new.items ≡ onto.old.items ++ secs_bytes (record { base = base; size = size; is_init = true }) digest.now }
{
    put(&size.to_le_bytes(), onto);
    put(&base.to_le_bytes(), onto);
    put(&1u32.to_le_bytes(), onto);
    put_zeros(44, onto);
    put(digest, onto);
    put_zeros(4000, onto);
}

fn put(bytes: &[u8], onto: &mut Vec<u8>)
    requires { HasRoom (length bytes.now) onto.old }
    ensures bytes { onto.new.items ≡ onto.old.items ++ bytes.now }
    ensures room { vec_capacity onto.new ≡ vec_capacity onto.old }
{
    for byte in bytes {
        onto.push_reserved(*byte);
    }
}

fn put_zeros(count: usize, onto: &mut Vec<u8>)
    requires { HasRoom count onto.old }
    ensures bytes { onto.new.items ≡ onto.old.items ++ zeros count }
    ensures room { vec_capacity onto.new ≡ vec_capacity onto.old }
{
    for _ in 0..count {
        onto.push_reserved(0);
    }
}
