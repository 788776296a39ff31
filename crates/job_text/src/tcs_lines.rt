//! The `tcs` lines of a job, as the checks of the whole need them.

/// A `tcs` line: its number among the lines, its enclave, and its state save pages.
#[derive(Clone, Copy)]
pub struct TcsLine {
    pub line: u32,
    pub enclave: usize,
    pub ossa: u32,
    pub nssa: u32,
}
