//! Who is told how far the judging of a trace is.

/// Is told of each entry of a trace that is judged. This project's own.
pub trait Watch: Drop {
    /// Before an entry is judged: its place, counted from 0.
    fn judging(&self, place: usize);
}

/// Does nothing with what it is told.
#[derive(Drop)]
pub struct Unwatched;

impl Watch for Unwatched {
    fn judging(&self, _place: usize) {}
}
