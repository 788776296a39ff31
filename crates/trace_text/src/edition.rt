//! The editions of a trace's text.

/// The editions of a trace's text (this project's own), by the number on its first line. The first has no number for a version array
/// page that is made, no names for such pages and for SECS pages, and no word for a slot without a version.
#[derive(Clone, Copy)]
pub enum Edition {
    One,
    Two,
}
