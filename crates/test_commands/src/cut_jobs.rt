//! The first job cut to its first bytes, with how a run of it ends and what it gives, by the reference program.

use crate::run_tests::{OUT, TRACE};
use page_commands::status::Status;

/// How many bytes are left, the status, the output and the trace.
pub const CUTS: &[(usize, Status, &[u8], &[u8])] = &[
    // The last line feed is missing.
    (120, Status::Done, OUT, TRACE),
    // The last operation is no word.
    (119, Status::BadJob, b"job line 9: Word\n", b""),
    // The processor is inside at the end, and leaves.
    (
        115,
        Status::Done,
        b"A init\ncpu 0\ncssa 0\n7\n",
        b"trace 2\nb epa 0 0\nb create A 1 0x10000 0x10000\nb add A 0 2 tcs - tcs 1 1\nb add A 1 3 reg rw words 0\n\
        b add A 2 4 reg rw words 7\nb init A - 006d518bbd8825da4a0e7d35d418aaf16b7749c62854a6f40d8d58db415a8c31\n\
        p0 enter A 0 2 3 0\np0 fill 2 4\np0 load 0x2000 7\np0 aex end\nend 10\n",
    ),
    // The offset is 0x2.
    (111, Status::BadJob, b"job line 8: Range\n", b""),
    // The offset is 0x.
    (110, Status::BadJob, b"job line 8: Number\n", b""),
    // The offset is 0, in the TCS page.
    (
        109,
        Status::Done,
        b"A init\ncpu 0\ncssa 0\npf type\n",
        b"trace 2\nb epa 0 0\nb create A 1 0x10000 0x10000\nb add A 0 2 tcs - tcs 1 1\nb add A 1 3 reg rw words 0\n\
        b add A 2 4 reg rw words 7\nb init A - 006d518bbd8825da4a0e7d35d418aaf16b7749c62854a6f40d8d58db415a8c31\n\
        p0 enter A 0 2 3 0\np0 pf load 0x0 type\np0 aex end\nend 9\n",
    ),
    // The processor has no operation.
    (
        92,
        Status::Done,
        b"A init\ncpu 0\n",
        b"trace 2\nb epa 0 0\nb create A 1 0x10000 0x10000\nb add A 0 2 tcs - tcs 1 1\nb add A 1 3 reg rw words 0\n\
        b add A 2 4 reg rw words 7\nb init A - 006d518bbd8825da4a0e7d35d418aaf16b7749c62854a6f40d8d58db415a8c31\n\
        end 6\n",
    ),
    // There is no processor.
    (86, Status::BadJob, b"job line 6: Missing\n", b""),
];
