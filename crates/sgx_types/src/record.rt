//! Sealed records and their bytes.

ghost use Rattle.std.specs.Prelude.{◌≡◌, OnOk, IfOk, IfErr, length};
ghost use Rattle.sgx_types.specs.declared.record.RecordFault.TheVariants as faults;
ghost use Rattle.sgx_types.specs.Sealed.{Sealed};
ghost use Rattle.sgx_types.specs.inner.Sealed.{IsRecord, fault_of, record_bytes};

use crate::layouts::long_at;
use crate::names::Memory;
use std::alloc::{AllocError, Global};
use std::marker::Model;

/// The header of a sealed record: enclave number, page address in bytes and SECINFO.FLAGS (this project's own
/// layout).
#[derive(Clone, Copy, Debug, PartialEq, Eq)]
pub struct Header {
    pub enclave: u64,
    pub address: u64,
    pub flags: u64,
}

/// A page outside the EPC: a header, 4096 cipher bytes and a tag. Contracts see it as these three.
#[derive(Debug, Drop)]
pub struct Record {
    pub header: Header,
    pub cipher: Vec<u8>,
    pub tag: [u8; 32],
}

impl Model for Record {
    ghost use Rattle.std.specs.Prelude.{◌≡◌, length};
    ghost use Rattle.sgx_types.specs.Sealed.{Sealed};

    ghost Value = { Sealed };

    ghost view = { λ r. record { header = r.header; cipher = r.cipher.items; tag = r.tag } };

    ghost invariant = { λ r. length r.cipher.items ≡ 4096 };
}

/// Why bytes are no record.
#[derive(Clone, Copy, Debug, PartialEq, Eq)]
pub enum RecordFault {
    /// There are more than 4152 bytes, or fewer.
    BadLength {
        /// How many there are.
        got: usize,
    },
    /// Memory was refused.
    Memory,
}

impl From<AllocError> for RecordFault {
    ghost from_gives = { λ _ fault. fault ≡ faults.Memory };

    fn from(_error: AllocError) -> RecordFault {
        RecordFault::Memory
    }
}

impl Record {
    /// The record of 4152 bytes: 24 of header, whose three numbers have their low byte first, 4096 of cipher and 32 of
    /// tag (this project's own layout). Another number of bytes is refused, before memory is taken.
    pub fn from_bytes(alloc: Global, bytes: &[u8]) -> Result<Record, RecordFault>
        ensures whole { IfOk result (λ rec. record_bytes rec ≡ bytes.now) }
        ensures same { (rec : Sealed) → IsRecord rec → bytes.now ≡ record_bytes rec → IfOk result (λ made. made ≡ rec) }
        ensures fits { OnOk result (length bytes.now ≡ 4152) }
        ensures fault { IfErr result (λ fault. fault ≡ fault_of bytes.now) }
    {
        let got = bytes.len();
        if got != 4152 {
            return Err(RecordFault::BadLength { got });
        }
        let header = Header {
            enclave: long_at(bytes, 0),
            address: long_at(bytes, 1),
            flags: long_at(bytes, 2),
        };
        let cipher = Vec::from_slice(alloc, &bytes[24..4120])?;
        let mut tag = [0; 32];
        tag.copy_from_slice(&bytes[4120..]);
        Ok(Record {
            header,
            cipher,
            tag,
        })
    }

    /// The 4152 bytes of a record, laid out as `from_bytes` reads them.
    pub fn to_bytes(&self, alloc: Global) -> Result<Vec<u8>, Memory>
        ensures bytes { IfOk result (λ bytes. bytes.items ≡ record_bytes self.now) }
        ensures sizes { OnOk result (IsRecord self.now) }
    {
        let mut bytes = Vec::with_capacity(alloc, 4152)?;
        bytes.extend_from_slice(&self.header.enclave.to_le_bytes())?;
        bytes.extend_from_slice(&self.header.address.to_le_bytes())?;
        bytes.extend_from_slice(&self.header.flags.to_le_bytes())?;
        bytes.extend_from_slice(&self.cipher)?;
        bytes.extend_from_slice(&self.tag)?;
        Ok(bytes)
    }
}
