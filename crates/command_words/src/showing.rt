//! How a trace is shown.

/// How a command shows a trace, whoever made it (this project's own).
#[derive(Clone, Copy, Debug, PartialEq, Eq)]
pub enum Showing {
    /// As a picture.
    Picture,

    /// In the second edition, where its text is in the first.
    Migrated,
}
