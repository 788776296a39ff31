//! Opening a record.

ghost use Rattle.std.specs.Prelude.{◌≡◌, IfOk, length};
ghost use Rattle.seal_record.specs.Cipher.{cipher, tag};
ghost use Rattle.sgx_types.specs.Layouts.{zeros};

use crate::cipher::encipher;
use crate::tag::tag_of;
use sgx_types::names::Memory;
use sgx_types::record::Record;
use std::alloc::Global;

/// A record to be opened, and room for the page's 4096 bytes.
#[derive(Drop)]
pub struct UnsealWork {
    pub key: [u8; 32],
    pub version: u64,
    pub rec: Record,
    pub space: Vec<u8>,
    pub ghost space_size: { length space.items ≡ 4096 },
}

/// An opened record: the 4096 bytes that its cipher gives under this key and version, and the tag of its header and cipher
/// under them. The record fits exactly where `computed` is the tag that it carries.
#[derive(Drop)]
pub struct UnsealedWork {
    pub key: [u8; 32],
    pub version: u64,
    pub rec: Record,
    pub plain: Vec<u8>,
    pub computed: [u8; 32],
    pub ghost plain_size: { length plain.items ≡ 4096 },
    pub ghost is_plain: { plain.items ≡ cipher key version rec.cipher },
    pub ghost is_computed: { computed ≡ tag key version rec.header rec.cipher },
}

impl UnsealWork {
    /// A record to be opened under a zero key and version.
    pub fn new(alloc: Global, rec: Record) -> Result<UnsealWork, Memory>
        ensures key { IfOk result (λ work. work.key ≡ zeros 32) }
        ensures version { IfOk result (λ work. work.version ≡ 0) }
        ensures rec { IfOk result (λ work. work.rec ≡ rec) }
    {
        Ok(UnsealWork {
            key: [0; 32],
            version: 0,
            rec,
            space: vec![in alloc; 0; 4096]?,
        })
    }
}

/// Deciphers a record, and computes the tag of its own header and cipher. Takes no memory: the page's bytes stand in the
/// work's `space`.
pub fn unseal(work: UnsealWork) -> UnsealedWork
    ensures key { result.key ≡ work.key }
    ensures version { result.version ≡ work.version }
    ensures rec { result.rec ≡ work.rec }
    ensures plain { result.plain.items ≡ cipher work.key work.version work.rec.cipher }
    ensures computed { result.computed ≡ tag work.key work.version work.rec.header work.rec.cipher }
{
    let UnsealWork {
        key,
        version,
        rec,
        space,
    } = work;
    let mut plain = space;
    plain.copy_from_slice(&rec.cipher);
    encipher(&key, version, &mut plain);
    let computed = tag_of(&key, version, rec.header, &rec.cipher);
    UnsealedWork {
        key,
        version,
        rec,
        plain,
        computed,
    }
}
