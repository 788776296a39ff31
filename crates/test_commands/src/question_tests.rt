//! Questions to old traces, whoever made them.

use crate::calls::{Call, RUNS, gives};
use crate::run_tests::{JOB, TRACE};
use page_commands::status::Status;
use std::test::Fail;

/// A page is added twice, which memory that is never evicted takes once, and a page comes that never was.
const ODD: &[u8] =
    b"trace 2\nb create A 1 0x10000 0x10000\nb add A 2 4 reg rw words 7\nb add A 2 3 reg rw words 8\n\
    r eld 5 B 9 6 abababababababababababababababababababababababababababababababab\nend 4\n";

/// A word is written from outside, which counts for nothing, and twice from inside. Then the accumulator is saved.
const WRITES: &[u8] =
    b"trace 2\nb create A 1 0x10000 0x10000\nb add A 0 2 tcs - tcs 1 1\nb add A 1 3 reg rw words 0\n\
    b add A 2 4 reg rw words 7\nb init A - 006d518bbd8825da4a0e7d35d418aaf16b7749c62854a6f40d8d58db415a8c31\n\
    p0 store 0x2000 9\np0 enter A 0 2 3 0\np0 store 0x2000 9\np0 xadd 0x2000 1 9\np0 set 5\np0 aex timer\nend 11\n";

// The words of a question, an old trace, how the command ends, and what is told.
const ROWS: &[(&[&str], &[u8], Status, &[u8])] = &[
    (
        &["query", "t", "9", "A", "2"],
        TRACE,
        Status::Done,
        b"at frame 4\ncached 0\nword 7\n",
    ),
    (
        &["query", "t", "10", "A", "2"],
        TRACE,
        Status::Done,
        b"at frame 4\ncached\nword 7\n",
    ),
    (
        &["query", "t", "0", "A", "2"],
        TRACE,
        Status::Done,
        b"at nowhere\ncached\nword none\n",
    ),
    // A place past the end, a SECS, a version array page, and a page of an enclave that the job does not have.
    (
        &["query", "t", "18446744073709551615", "A", "secs"],
        TRACE,
        Status::Done,
        b"at frame 1\ncached\nword none\n",
    ),
    (
        &["query", "t", "1", "va", "0"],
        TRACE,
        Status::Done,
        b"at frame 0\ncached\nword none\n",
    ),
    (
        &["query", "t", "10", "H", "4294967294"],
        TRACE,
        Status::Done,
        b"at nowhere\ncached\nword none\n",
    ),
    (
        &["moves", "t", "A", "2"],
        TRACE,
        Status::Done,
        b"5 at frame 4\n",
    ),
    (
        &["moves", "t", "A", "secs"],
        TRACE,
        Status::Done,
        b"2 at frame 1\n",
    ),
    (&["moves", "t", "va", "1"], TRACE, Status::Done, b""),
    // Where two frames have a page, the lesser counts.
    (
        &["moves", "t", "A", "2"],
        ODD,
        Status::Done,
        b"2 at frame 4\n3 at frame 3\n",
    ),
    (
        &["query", "t", "3", "A", "2"],
        ODD,
        Status::Done,
        b"at frame 3\ncached\nword 7\n",
    ),
    (
        &["query", "t", "4", "B", "9"],
        ODD,
        Status::Done,
        b"at frame 5\ncached\nword none\n",
    ),
    (
        &["query", "t", "7", "A", "2"],
        WRITES,
        Status::Done,
        b"at frame 4\ncached\nword 7\n",
    ),
    (
        &["query", "t", "8", "A", "2"],
        WRITES,
        Status::Done,
        b"at frame 4\ncached\nword 9\n",
    ),
    (
        &["query", "t", "9", "A", "2"],
        WRITES,
        Status::Done,
        b"at frame 4\ncached\nword 10\n",
    ),
    (
        &["query", "t", "10", "A", "1"],
        WRITES,
        Status::Done,
        b"at frame 3\ncached\nword 0\n",
    ),
    (
        &["query", "t", "11", "A", "1"],
        WRITES,
        Status::Done,
        b"at frame 3\ncached\nword 5\n",
    ),
    (
        &["query", "t", "11", "A", "1"],
        b"trace 2\n",
        Status::BadTrace,
        b"trace line 2\n",
    ),
];

#[test]
fn a_question_to_a_trace_is_answered(rt: HostRuntime) -> Result<(), Fail> {
    for (words, old, status, told) in ROWS {
        let call = Call {
            words,
            job: JOB,
            old,
            fails: [&[], &[], &[], &[1]],
            status: *status,
            out: told,
            ..RUNS
        };
        gives(&rt, &call)?;
    }
    Ok(())
}
