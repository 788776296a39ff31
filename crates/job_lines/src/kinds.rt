//! What can be wrong with a line of a job.

/// What is wrong with a line of a job (this project's own). The kinds stand in the order in which they are looked for.
#[derive(Clone, Copy, Debug, PartialEq, Eq)]
pub enum JobKind {
    /// The line is not UTF-8.
    NotUtf8,

    /// The first word is unknown, a word is missing or left over, or one is none of its choices.
    Word,

    /// A word in a number's place is no number.
    Number,

    /// The line stands in the wrong part, or a letter or a processor's number is not the next one.
    Order,

    /// An option stands again, or a page is already added.
    Twice,

    /// A number is out of its range.
    Range,

    /// There are too many pages, operations or store lines.
    TooMany,

    /// What the line names is not there, or the job lacks a line.
    Missing,

    /// The TCS page is named by an earlier processor.
    TcsShared,

    /// The EPC has fewer frames than the job needs.
    EpcTooSmall { needed: u32 },

    /// The job has more than 2^24 bytes.
    TooLong,
}
