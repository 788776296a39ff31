//! The calls of a store that tells them.

use sgx_types::names::Page;

/// One call of a store that was made, and what came of it.
#[derive(Clone, Copy, Debug, PartialEq, Eq)]
pub enum StoreCall {
    /// Place for one record was asked for.
    Room { page: Page, failed: bool },

    /// A record of the page was put, and kept where the put did not fail.
    Put { page: Page, failed: bool },

    /// A record of the page was asked for.
    Got { page: Page, answer: GetAnswer },
}

/// What a get gave.
#[derive(Clone, Copy, Debug, PartialEq, Eq)]
pub enum GetAnswer {
    /// It failed.
    Failed,

    /// There was no record.
    Nothing,

    /// The record that stands at the place `put`, counted from 0, among all records put, those of failed puts too. Where
    /// `flipped` names a bit, that bit of its 4152 bytes is inverted: of byte `flipped / 8` the bit `flipped % 8`, counted
    /// from the lowest.
    Given { put: u64, flipped: Option<u32> },
}
