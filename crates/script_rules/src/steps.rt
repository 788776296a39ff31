//! The steps of the builder.

use sgx_types::lawful::PageInit;
use sgx_types::names::{Kind, Perm};

/// A step of the builder, which is one instruction. Those that make a page (`Va`, `Create` and `Add`) take a free frame.
#[derive(Clone, Copy)]
pub enum BuildStep {
    /// A version array page.
    Va,

    /// An enclave, its base and size in bytes.
    Create {
        enclave: u16,
        base: u64,
        size: u64,
    },

    /// A page of an enclave. Page numbers are offsets from the enclave's base in pages of 4096 bytes.
    Add {
        enclave: u16,
        number: u32,
        kind: Kind,
        perm: Perm,
        init: PageInit,
    },

    /// The measurement of 256 bytes of a page, the first of which is 256 times `chunk`.
    Extend {
        enclave: u16,
        number: u32,
        chunk: u8,
    },

    /// An enclave's end, and the measurement that is expected of it.
    Init {
        enclave: u16,
        expect: Option<[u8; 32]>,
    },
}
