//! Which words an entry may write.

use sgx_types::lawful::PageInit;

/// A word of a page of an enclave: the page's number counts pages of 4096 bytes from the enclave's base, and the index counts words
/// of 8 bytes from the page's start, 0 to 511. An access far past the enclave's end has a number that no page has.
#[derive(Clone, Copy, Debug, PartialEq, Eq, Hash)]
pub struct WordAt {
    pub enclave: u16,
    pub number: u64,
    pub index: u16,
}

/// The words that one entry may write: at most two.
#[derive(Clone, Copy, Debug, PartialEq, Eq)]
pub struct Writes {
    pub first: Option<WordAt>,
    pub second: Option<WordAt>,
}

impl Writes {
    /// No word may be written.
    pub const NONE: Writes = Writes {
        first: None,
        second: None,
    };
}

/// A page that is added, and the words with which it is.
#[derive(Clone, Copy, Debug, PartialEq, Eq)]
pub struct NewPage {
    pub enclave: u16,
    pub number: u32,
    pub init: PageInit,
}
