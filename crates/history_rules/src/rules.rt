//! The rules of a trace.

/// The rules that a trace keeps, in the order in which they are named: where several fail at one place, the first is told.
#[derive(Clone, Copy, Debug, PartialEq, Eq)]
pub enum Rule {
    /// Each actor makes its next entry, and at the end everything is done.
    Script,

    /// An instruction is refused exactly by the first case of its row that holds.
    Refusal,

    /// What programs see is answered as by memory that is never evicted.
    Flat,

    /// No frame beyond the EPC, no frame twice, no page in two frames.
    Fits,

    /// No processor holds a translation of a page that is out or on its way out.
    Stale,

    /// Only drained pages go out, and each write-out ends its own start.
    Evict,

    /// Versions rise, and each reload takes the version last written out.
    Fresh,

    /// Each write-out tells the tag of the page's bytes.
    Sealed,

    /// Each initialisation answers the SHA-256 of its enclave's log.
    Measure,

    /// The reclaimer looks at the pages in their order, and takes those that are neither held nor young.
    Age,

    /// Three tries for each page at most, with a track and the right kicks between them.
    Kick,
}
