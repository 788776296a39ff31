//! A place for a record.

ghost use Rattle.std.specs.Prelude.{◌≡◌, ◌≤◌, [], vec_capacity};

use sgx_types::record::Record;
use std::alloc::{AllocError, Global};

/// Room for the cipher bytes of one record, which takes no memory when the record comes.
#[derive(Drop)]
pub struct Blank {
    bytes: Vec<u8>,
    pub ghost is_empty: { bytes.items ≡ [] },
    pub ghost fits: { 4096 ≤ vec_capacity bytes },
}

impl Blank {
    pub fn new(alloc: Global) -> Result<Blank, AllocError> {
        Ok(Blank {
            bytes: Vec::with_capacity(alloc, 4096)?,
        })
    }

    /// A copy of a record, in this room.
    pub fn fill(self, rec: &Record) -> Record
        ensures { result ≡ rec.now }
    {
        let Blank { mut bytes } = self;
        bytes.extend_from_slice(&rec.cipher).unwrap();
        Record {
            header: rec.header,
            cipher: bytes,
            tag: rec.tag,
        }
    }
}
