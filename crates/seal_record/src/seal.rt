//! Sealing a page.

ghost use Rattle.std.specs.Prelude.{◌≡◌, IfOk, length, true};
ghost use Rattle.seal_record.specs.Cipher.{sealed};
ghost use Rattle.sgx_types.specs.Layouts.{zeros};

use crate::cipher::encipher;
use crate::tag::tag_of;
use sgx_types::names::Memory;
use sgx_types::record::{Header, Record};
use std::alloc::Global;

/// A page to be sealed: its 4096 bytes, and room for as many cipher bytes.
#[derive(Drop)]
pub struct SealWork {
    pub key: [u8; 32],
    pub version: u64,
    pub header: Header,
    pub plain: Vec<u8>,
    pub space: Vec<u8>,
    pub ghost plain_size: { length plain.items ≡ 4096 },
    pub ghost space_size: { length space.items ≡ 4096 },
}

/// A sealed page: its 4096 bytes, and their record under this key and version.
#[derive(Drop)]
pub struct SealedWork {
    pub key: [u8; 32],
    pub version: u64,
    pub plain: Vec<u8>,
    pub rec: Record,
    pub ghost plain_size: { length plain.items ≡ 4096 },
    pub ghost is_sealed: { rec ≡ sealed key version rec.header plain.items },
}

impl SealWork {
    /// A page of zeros under a zero key, version and header.
    pub fn new(alloc: Global) -> Result<SealWork, Memory>
        ensures key { IfOk result (λ work. work.key ≡ zeros 32) }
        ensures version { IfOk result (λ work. work.version ≡ 0) }
        ensures header { IfOk result (λ work. work.header ≡ record { enclave = 0; address = 0; flags = 0 }) }
        ensures plain { IfOk result (λ work. work.plain.items ≡ zeros 4096) }
    {
        let header = Header {
            enclave: 0,
            address: 0,
            flags: 0,
        };
        Ok(SealWork {
            key: [0; 32],
            version: 0,
            header,
            plain: vec![in alloc; 0; 4096]?,
            space: vec![in alloc; 0; 4096]?,
        })
    }
}

impl SealedWork {
    /// Whether this was sealed of these bytes, under this key, version and header.
    pub fn is_of(&self, key: [u8; 32], version: u64, header: Header, plain: &[u8]) -> bool
        ensures key { result ≡ true → self.now.key ≡ key }
        ensures version { result ≡ true → self.now.version ≡ version }
        ensures header { result ≡ true → self.now.rec.header ≡ header }
        ensures plain { result ≡ true → self.now.plain.items ≡ plain.now }
    {
        if self.key != key {
            return false;
        }
        if self.version != version {
            return false;
        }
        if self.rec.header != header {
            return false;
        }
        self.plain.as_slice() == plain
    }
}

/// Seals a page into its record. Takes no memory: the cipher stands in the work's `space`.
pub fn seal(work: SealWork) -> SealedWork
    ensures key { result.key ≡ work.key }
    ensures version { result.version ≡ work.version }
    ensures plain { result.plain.items ≡ work.plain.items }
    ensures sealed { result.rec ≡ sealed work.key work.version work.header work.plain.items }
{
    let SealWork {
        key,
        version,
        header,
        plain,
        space,
    } = work;
    let mut cipher = space;
    cipher.copy_from_slice(&plain);
    encipher(&key, version, &mut cipher);
    let tag = tag_of(&key, version, header, &cipher);
    let rec = Record {
        header,
        cipher,
        tag,
    };
    SealedWork {
        key,
        version,
        plain,
        rec,
    }
}
