//! Jobs whose pages do not fit into the EPC: 42 pages for 12 frames, and less.

use crate::audited_traces::RELOAD_JOB;
use page_commands::status::Status;

/// The first line.
pub const EPC: &[u8] = b"epc 12\n";

/// An enclave of 42 pages.
pub const ENCLAVE: &[u8] =
    b"enclave A 0x40000 0x40000\ntcs 0 1 1 plain\nreg 1 1 rw 0 plain\nreg 2 40 rw 0 plain\n";

/// A processor stores into each of 40 pages, and then loads from each.
pub const SCRIPT: &[u8] =
    b"cpu 0\neenter A 0\nstore 0x2000 1\nstore 0x3000 2\nstore 0x4000 3\nstore 0x5000 4\nstore 0x6000 5\n\
    store 0x7000 6\nstore 0x8000 7\nstore 0x9000 8\nstore 0xa000 9\nstore 0xb000 10\nstore 0xc000 11\n\
    store 0xd000 12\nstore 0xe000 13\nstore 0xf000 14\nstore 0x10000 15\nstore 0x11000 16\nstore 0x12000 17\n\
    store 0x13000 18\nstore 0x14000 19\nstore 0x15000 20\nstore 0x16000 21\nstore 0x17000 22\nstore 0x18000 23\n\
    store 0x19000 24\nstore 0x1a000 25\nstore 0x1b000 26\nstore 0x1c000 27\nstore 0x1d000 28\nstore 0x1e000 29\n\
    store 0x1f000 30\nstore 0x20000 31\nstore 0x21000 32\nstore 0x22000 33\nstore 0x23000 34\nstore 0x24000 35\n\
    store 0x25000 36\nstore 0x26000 37\nstore 0x27000 38\nstore 0x28000 39\nstore 0x29000 40\nload 0x2000\n\
    load 0x3000\nload 0x4000\nload 0x5000\nload 0x6000\nload 0x7000\nload 0x8000\nload 0x9000\nload 0xa000\n\
    load 0xb000\nload 0xc000\nload 0xd000\nload 0xe000\nload 0xf000\nload 0x10000\nload 0x11000\nload 0x12000\n\
    load 0x13000\nload 0x14000\nload 0x15000\nload 0x16000\nload 0x17000\nload 0x18000\nload 0x19000\nload 0x1a000\n\
    load 0x1b000\nload 0x1c000\nload 0x1d000\nload 0x1e000\nload 0x1f000\nload 0x20000\nload 0x21000\nload 0x22000\n\
    load 0x23000\nload 0x24000\nload 0x25000\nload 0x26000\nload 0x27000\nload 0x28000\nload 0x29000\neexit\n";

const ENTERED: &[u8] = b"A init\ncpu 0\ncssa 0\n";

const STORED: &[u8] =
    b"ok\nok\nok\nok\nok\nok\nok\nok\nok\nok\nok\nok\nok\nok\nok\nok\nok\nok\nok\nok\nok\nok\nok\nok\nok\nok\nok\nok\n\
    ok\nok\nok\nok\nok\nok\nok\nok\nok\nok\nok\nok\n";

const LOADED: &[u8] =
    b"1\n2\n3\n4\n5\n6\n7\n8\n9\n10\n11\n12\n13\n14\n15\n16\n17\n18\n19\n20\n21\n22\n23\n24\n25\n26\n27\n28\n29\n30\n\
    31\n32\n33\n34\n35\n36\n37\n38\n39\n40\n";

const ALL: &[&[u8]] = &[ENTERED, STORED, LOADED, b"exit\n"];

const NOT_ENTERED: &[&[u8]] = &[b"A init\ncpu 0\nbus\n"];

const NOT_STORED: &[&[u8]] = &[ENTERED, b"bus\n"];

/// What is told of a record that was not that of its page: two tags, which differ.
const LOST: &str = "MacFail\np0 bus A 2 mac\n";

/// A processor looks at a page's first word from outside, before and behind a stay in which it loads that word.
const FROM_OUTSIDE: &[u8] =
    b"cpu 0\noutload A 0x2000\noutstore A 0x2000 5\neenter A 0\nload 0x2000\neexit\noutload A 0x2000\n";

const OUTSIDE: &[u8] =
    b"A init\ncpu 0\n18446744073709551615\ndropped\ncssa 0\n0\nexit\n18446744073709551615\n";

/// Behind the same enclave: a second TCS, a store that swaps the records of two pages, and a processor for each of them.
const SWAPPED: &[u8] =
    b"tcs 42 43 1 plain\nreg 43 1 rw 0 plain\nstore swap A 2 A 3\ncpu 0\neenter A 0\nload 0x2000\ncpu 1\neenter A 42\nload 0x3000\n";

/// What the trace of that tells, by which of them comes first.
const SWAPPED_TOLD: &[&str] = &[
    "MacFail\np0 bus A 2 mac\nMacFail\np1 bus A 3 mac\n",
    "MacFail\np1 bus A 3 mac\nMacFail\np0 bus A 2 mac\n",
];

/// A job whose pages do not fit, by its lines before the enclave and behind it, and whether the script follows: how its run ends, the
/// replies, the texts of which the trace tells one on what went wrong, and how often the store failed.
pub struct Paged {
    pub before: &'static [u8],
    pub behind: &'static [u8],
    pub has_script: bool,
    pub status: Status,
    pub replies: &'static [&'static [u8]],
    pub told: &'static [&'static str],
    pub store_faults: u64,
}

// A run of the whole script, in which nothing goes wrong.
const WHOLE: Paged = Paged {
    before: b"",
    behind: b"",
    has_script: true,
    status: Status::Done,
    replies: ALL,
    told: &[""],
    store_faults: 0,
};

/// What a store may do to that job: nothing; give an older record; change one, lose it, or give another page's; and fail. Then first
/// numbers that are soon used up: the last version goes to the first page that leaves. Then what else may stand behind that enclave.
pub const PAGED: &[Paged] = &[
    WHOLE,
    Paged {
        behind: b"store replay A 2 2 1\n",
        status: Status::Bus,
        replies: &[ENTERED, STORED, b"bus\n"],
        told: &[LOST],
        ..WHOLE
    },
    Paged {
        behind: b"store replay A 2 1 1\n",
        ..WHOLE
    },
    Paged {
        behind: b"store replay A 2 1 5\n",
        ..WHOLE
    },
    Paged {
        behind: b"store flip A 2 1 192\n",
        status: Status::Bus,
        replies: NOT_STORED,
        told: &[LOST],
        ..WHOLE
    },
    Paged {
        behind: b"store flip A 2 1 0\n",
        status: Status::Bus,
        replies: NOT_STORED,
        told: &[LOST],
        ..WHOLE
    },
    Paged {
        behind: b"store flip A 2 1 33215\n",
        status: Status::Bus,
        replies: NOT_STORED,
        told: &[LOST],
        ..WHOLE
    },
    Paged {
        behind: b"store swap A 2 A 3\n",
        status: Status::Bus,
        replies: NOT_STORED,
        told: &[LOST],
        ..WHOLE
    },
    Paged {
        behind: b"store drop A 2 1\n",
        status: Status::Bus,
        replies: NOT_STORED,
        told: &["p0 bus A 2 none\n"],
        ..WHOLE
    },
    Paged {
        behind: b"store fail get 1\n",
        status: Status::Bus,
        replies: NOT_ENTERED,
        told: &["p0 bus A 0 get\n"],
        store_faults: 1,
        ..WHOLE
    },
    Paged {
        behind: b"store fail get 2\n",
        status: Status::Bus,
        replies: NOT_ENTERED,
        told: &["p0 bus A 1 get\n"],
        store_faults: 1,
        ..WHOLE
    },
    Paged {
        behind: b"store fail get 3\n",
        status: Status::Bus,
        replies: NOT_STORED,
        told: &["p0 bus A 2 get\n"],
        store_faults: 1,
        ..WHOLE
    },
    Paged {
        behind: b"store fail put 1\n",
        status: Status::Bus,
        replies: NOT_ENTERED,
        told: &["p0 bus A 0 put\n"],
        store_faults: 1,
        ..WHOLE
    },
    Paged {
        behind: b"store fail put 3\n",
        status: Status::Bus,
        replies: NOT_STORED,
        told: &["p0 bus A 2 put\n"],
        store_faults: 1,
        ..WHOLE
    },
    Paged {
        behind: b"store fail room 1\n",
        told: &["noroom\n"],
        store_faults: 1,
        ..WHOLE
    },
    Paged {
        behind: b"store fail room 1\nstore fail room 2\n",
        told: &["noroom\nnoroom\n"],
        store_faults: 2,
        ..WHOLE
    },
    Paged {
        before: b"start 1099511627775 1\n",
        status: Status::Spent,
        replies: &[b"cpu 0\n"],
        told: &["EpochSpent\n0 out\n"],
        ..WHOLE
    },
    Paged {
        before: b"start 1 18446744073709551615\n",
        status: Status::Spent,
        replies: &[b"cpu 0\n"],
        told: &["VersionSpent\n1 out\n"],
        ..WHOLE
    },
    Paged {
        behind: FROM_OUTSIDE,
        has_script: false,
        replies: &[OUTSIDE],
        ..WHOLE
    },
    Paged {
        behind: SWAPPED,
        has_script: false,
        status: Status::Bus,
        replies: &[b"A init\ncpu 0\ncssa 0\nbus\ncpu 1\ncssa 0\nbus\n"],
        told: SWAPPED_TOLD,
        ..WHOLE
    },
];

/// An enclave of 48 pages with four TCSs, in 16 frames. Its processors follow.
pub const MANY_ADDS: &str =
    "epc 16\nenclave A 0x40000 0x40000\ntcs 0 4 1 plain\ntcs 1 5 1 plain\ntcs 2 6 1 plain\ntcs 3 7 1 plain\n\
    reg 4 4 rw 0 plain\nreg 8 40 rw 0 plain\n";

/// Jobs for seven frames, with a page that comes back, a processor that is kicked, a page that the store lost, and versions that are used
/// up: how each run ends, and the replies.
pub const SMALL: &[(&[u8], Status, &[u8])] = &[
    (
        RELOAD_JOB,
        Status::Done,
        b"A init\ncpu 0\ncssa 0\nok\n7\n9\nexit\n",
    ),
    (
        b"epc 7\nmarks 2 3 2\nenclave A 0x10000 0x10000\ntcs 0 1 1 plain\nreg 1 1 rw 0 plain\nreg 2 5 rw 7 plain\ncpu 0\n\
        eenter A 0\nload 0x2000\nload 0x3000\nload 0x4000\nload 0x5000\nload 0x6000\nload 0x2000\neexit\n",
        Status::Done,
        b"A init\ncpu 0\ncssa 0\n7\n7\n7\n7\n7\n7\nexit\n",
    ),
    (
        b"epc 7\nenclave A 0x10000 0x10000\ntcs 0 1 1 plain\nreg 1 1 rw 0 plain\nreg 2 6 rw 7 plain\nstore drop A 2 1\n\
        cpu 0\neenter A 0\nstore 0x2000 9\neexit\n",
        Status::Bus,
        b"A init\ncpu 0\ncssa 0\nbus\n",
    ),
    (
        b"epc 7\nstart 1 18446744073709551615\nenclave A 0x10000 0x10000\ntcs 0 1 1 plain\nreg 1 1 rw 0 plain\n\
        reg 2 6 rw 7 plain\ncpu 0\neenter A 0\nload 0x2000\neexit\n",
        Status::Spent,
        b"cpu 0\n",
    ),
];
