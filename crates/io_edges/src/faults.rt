//! What an edge answers that failed.

/// An outside failed. It is answered only where the count of faults of the object that was called has risen, or
/// stands at its last value, 2^64 - 1.
#[derive(Clone, Copy, Debug, PartialEq, Eq)]
pub struct Failed;
