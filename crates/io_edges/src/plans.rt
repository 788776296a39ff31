//! The lines of a hostile store's plan.

use sgx_types::names::Page;

/// One line of a hostile store's plan (this project's own). `k` counts the calls of one kind, and `g` the gets of one
/// page, failed ones too; `w` counts the puts of one page that did not fail. Each counts from 1.
#[derive(Clone, Copy, Debug, PartialEq, Eq)]
pub enum PlanLine {
    /// The `k`th call that asks for room fails.
    FailRoom { k: u64 },

    /// The `k`th put fails.
    FailPut { k: u64 },

    /// The `k`th get fails.
    FailGet { k: u64 },

    /// The `g`th get of the page answers that there is no record.
    DropGet { page: Page, g: u64 },

    /// In the record that the `g`th get of the page answers, one bit is inverted: of byte `bit / 8` the bit `bit % 8`,
    /// counted from the lowest.
    Flip { page: Page, g: u64, bit: u32 },

    /// The `g`th get of the page answers the record of its `w`th put, where there were as many.
    Replay { page: Page, g: u64, w: u64 },

    /// A get of either page answers the newest record of the other.
    Swap { one: Page, other: Page },
}
