//! A small job, and others that differ from it.

use crate::same::are_same;
use job_grammar::jobs::{Job, Marks, Op, PageLine, needed};
use sgx_types::names::Perm;
use std::process::Abort;

pub const FIRST: &str = "epc 6
enclave A 0x10000 0x10000
tcs 0 1 1 plain
reg 1 1 rw 0 plain
reg 2 1 rw 7 plain
cpu 0
eenter A 0
load 0x2000
eexit
";

const RW: Perm = Perm {
    r: true,
    w: true,
    x: false,
};

const LINES: [PageLine; 3] = [
    PageLine::Tcs {
        page: 0,
        ossa: 1,
        nssa: 1,
        plain: true,
    },
    PageLine::Reg {
        first: 1,
        count: 1,
        perm: RW,
        value: 0,
        plain: true,
    },
    PageLine::Reg {
        first: 2,
        count: 1,
        perm: RW,
        value: 7,
        plain: true,
    },
];

const SCRIPT: [Op; 3] = [
    Op::Enter { enclave: 1, tcs: 0 },
    Op::Load { off: 8192 },
    Op::Exit,
];

// What a job says apart from its lines.
type Head = (u32, Marks, [u8; 32], u64, u64, u32, u32);

const HEAD: Head = (
    6,
    Marks {
        low: 1,
        high: 3,
        scan: 1,
    },
    [0; 32],
    1,
    1,
    1,
    6,
);

pub fn is_first(rt: &impl Abort, job: &Job) {
    let head = (
        job.epc(),
        job.marks(),
        *job.key(),
        job.start_epoch(),
        job.start_version(),
        job.va_pages(),
        needed(job),
    );
    are_same(rt, head, HEAD);
    let counts = (job.plans().len(), job.enclaves().len(), job.scripts().len());
    are_same(rt, counts, (0, 1, 1));
    for enclave in job.enclaves() {
        are_same(
            rt,
            (enclave.base, enclave.size, enclave.expect),
            (65536, 65536, None),
        );
        are_same(rt, enclave.lines.as_slice(), LINES.as_slice());
    }
    for script in job.scripts() {
        are_same(rt, script.as_slice(), SCRIPT.as_slice());
    }
}

pub const ACCEPTED: &str = "\
    lower case|0x2000|0x20f8|Read;\
    a page of state save frames that can also be executed|reg 1 1 rw |reg 1 1 rwx |Read;\
    the greatest value|rw 7|rw 18446744073709551615|Read;\
    the last page|reg 2 1 rw 7|reg 2 1 r 7 plain\nreg 15 1 rx 0|Read;\
    no load|load 0x2000\n||Read;\
    no entry|eenter A 0\n||Read;\
    no exit|eexit\n||Read;\
    no operation|eenter A 0\nload 0x2000\neexit\n||Read;\
    a second entry|eexit\n|eenter A 0\neexit\neexit\n|Read;\
    a page that is measured|rw 7 plain|rw 7|Read;\
    a TCS page that is measured|tcs 0 1 1 plain|tcs 0 1 1|Read;\
    an entry by a second TCS page|cpu 0\neenter A 0|tcs 3 1 1\ncpu 0\neenter A 3|Read;\
    65 pages and as many frames as they need|epc 6\nenclave A 0x10000 0x10000\n|epc 67\nenclave A 0x100000 0x100000\nreg 3 62 r 0 plain\n|Read;\
    4086 pages, a SECS and nine version arrays|epc 6\nenclave A 0x10000 0x10000\n|epc 4096\nenclave A 0x1000000 0x1000000\nreg 3 4083 r 0 plain\n|Read";

pub const CHANGES: &str = "\
    a leading zero|epc 6|epc 06|Read;\
    a sign|epc 6|epc +6|1 Number;\
    hexadecimal where decimal stands|tcs 0|tcs 0x0|Read;\
    decimal where hexadecimal stands|0x2000|8192|Read;\
    upper case|0x2000|0x20F8|Read;\
    two spaces|tcs 0|tcs  0|Read;\
    a tab|tcs 0|tcs\t0|Read;\
    a space at the end|eexit\n|eexit \n|Read;\
    no last line feed|eexit\n|eexit|Read;\
    a blank line|cpu 0\n|\ncpu 0\n|Read;\
    a comment|cpu 0\n|# one\ncpu 0\n|Read;\
    an unknown word|eexit|eleave|9 Word;\
    a word too many|cpu 0|cpu 0 plain|6 Word;\
    no processor|cpu 0\neenter A 0\nload 0x2000\neexit\n||6 Missing;\
    two processors|eexit\n|eexit\ncpu 1\neenter A 0\neexit\n|11 TcsShared;\
    an operation before the first processor|cpu 0\n|eexit\ncpu 0\n|6 Order;\
    an option|enclave A|start 1 1\nenclave A|Read;\
    too few frames|epc 6|epc 5|1 EpcTooSmall { needed: 6 };\
    too many frames|epc 6|epc 4097|1 Range;\
    a base that is no multiple of the size|A 0x10000|A 0x8000|2 Range;\
    a size that is no power of two|0x10000\ntcs|0x18000\ntcs|2 Range;\
    another letter|enclave A|enclave B|2 Order;\
    an entry into an enclave that is not there|eenter A|eenter B|7 Missing;\
    a page past the end|reg 2 1|reg 16 1|5 Range;\
    no page|reg 2 1|reg 2 0|5 Range;\
    more pages than numbers|reg 2 1|reg 2 4294967295|5 Range;\
    a page twice|reg 2 1|reg 1 1|5 Twice;\
    a page without R|reg 2 1 rw|reg 2 1 w|5 Word;\
    a value of more than 8 bytes|rw 7|rw 18446744073709551616|5 Number;\
    another word for plain|rw 7 plain|rw 7 Plain|5 Word;\
    plain twice|rw 7 plain|rw 7 plain plain|5 Word;\
    no state save frame|tcs 0 1 1|tcs 0 1 0|3 Range;\
    a state save page that is not added|tcs 0 1 1|tcs 0 3 1|3 Missing;\
    a state save page without W|reg 1 1 rw|reg 1 1 r|3 Missing;\
    an entry by a REG page|eenter A 0|eenter A 1|7 Missing;\
    65 pages and one frame too few|epc 6\nenclave A 0x10000 0x10000\n|epc 66\nenclave A 0x100000 0x100000\nreg 3 62 r 0 plain\n|Read;\
    4087 pages, which need 4097 frames|epc 6\nenclave A 0x10000 0x10000\n|epc 4096\nenclave A 0x1000000 0x1000000\nreg 3 4084 r 0 plain\n|Read";
