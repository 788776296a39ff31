//! Jobs of two enclaves, and what is wrong with others.

use crate::same::are_same;
use job_grammar::jobs::{EnclaveJob, Job, Op, PageLine, needed};
use sgx_types::names::Perm;
use std::process::Abort;

// Two enclaves at the same base: A is measured, B is plain and has one more page.
pub const TWO: &str = "epc 10
enclave A 0x10000 0x10000
tcs 0 1 1
reg 1 1 rw 0
reg 2 1 r 7
enclave B 0x10000 0x8000
reg 4 2 r 9 plain
tcs 0 1 1 plain
reg 1 1 rw 0 plain
cpu 0
eenter B 0
load 0x5ff8
load 0x4000
eexit
";

const FIRST_LINE: PageLine = PageLine::Tcs {
    page: 0,
    ossa: 1,
    nssa: 1,
    plain: false,
};

const SECOND_LINE: PageLine = PageLine::Reg {
    first: 4,
    count: 2,
    perm: Perm {
        r: true,
        w: false,
        x: false,
    },
    value: 9,
    plain: true,
};

const SCRIPT: [Op; 4] = [
    Op::Enter { enclave: 2, tcs: 0 },
    Op::Load { off: 0x5ff8 },
    Op::Load { off: 0x4000 },
    Op::Exit,
];

// An enclave's base and size, the number of its lines, and the first.
fn outline(enclave: &EnclaveJob) -> (u64, u64, usize, Option<PageLine>) {
    (
        enclave.base,
        enclave.size,
        enclave.lines.len(),
        enclave.lines.first().copied(),
    )
}

pub fn is_two(rt: &impl Abort, job: &Job) {
    let counts = (job.epc(), job.enclaves().len(), job.va_pages(), needed(job));
    are_same(rt, counts, (10, 2, 1, 7));
    are_same(
        rt,
        job.enclaves().first().map(outline),
        Some((65536, 65536, 3, Some(FIRST_LINE))),
    );
    are_same(
        rt,
        job.enclaves().get(1).map(outline),
        Some((65536, 32768, 3, Some(SECOND_LINE))),
    );
    for script in job.scripts() {
        are_same(rt, script.as_slice(), SCRIPT.as_slice());
    }
}

pub const PARTS: &str = "\
    a frame to spare|epc 10|epc 11|Read;\
    a frame too few|epc 10|epc 9|Read;\
    a script that enters A|B 0\nload 0x5ff8\nload 0x4000|A 0\nload 0x2000|Read;\
    a load from B of a page that only A has|load 0x4000|load 0x2000|Read;\
    a load from outside past B, which is smaller than A|load 0x4000|outload B 0x8000|13 Range;\
    a load from outside of the same page of A|load 0x4000|outload A 0x8000|Read;\
    a resumption in A by its TCS page|load 0x4000|eresume A 0|Read;\
    an entry into B by a page that is a TCS page of A alone|tcs 0 1 1 plain|tcs 3 1 1 plain|11 Missing;\
    an enclave without pages|enclave B 0x10000 0x8000\nreg 4 2 r 9 plain\ntcs 0 1 1 plain\nreg 1 1 rw 0 plain\ncpu 0\neenter B 0\nload 0x5ff8\nload 0x4000\n|enclave B 0x0 0x2000\ncpu 0\neenter A 0\n|Read;\
    an entry into an enclave without pages|enclave B 0x10000 0x8000\nreg 4 2 r 9 plain\ntcs 0 1 1 plain\nreg 1 1 rw 0 plain\ncpu 0\neenter B 0\nload 0x5ff8\nload 0x4000\n|enclave B 0x0 0x2000\ncpu 0\neenter B 0\n|8 Missing;\
    a letter left out|enclave B|enclave C|6 Order;\
    letters in another order|enclave A|enclave B|2 Order;\
    a page line before the first enclave|enclave A|reg 5 1 r 0\nenclave A|2 Order;\
    an entry into a second enclave|eexit\n|eexit\neenter A 0\neexit\n|Read";

// The numbers 0 to 31.
pub const DIGEST: [u8; 32] = [
    0, 1, 2, 3, 4, 5, 6, 7, 8, 9, 10, 11, 12, 13, 14, 15, 16, 17, 18, 19, 20, 21, 22, 23, 24, 25,
    26, 27, 28, 29, 30, 31,
];

pub type Digest = Option<[u8; 32]>;

// The digests that the first two enclaves expect.
pub fn expects(rt: &impl Abort, job: &Job, one: &Digest, other: &Digest) {
    let first = job.enclaves().first().and_then(|enclave| enclave.expect);
    let second = job.enclaves().get(1).and_then(|enclave| enclave.expect);
    are_same(rt, (first, second), (*one, *other));
}

// `TWO` with a digest within A.
pub const EXPECTING: &str = "epc 10
enclave A 0x10000 0x10000
tcs 0 1 1
reg 1 1 rw 0
expect 000102030405060708090a0b0c0d0e0f101112131415161718191a1b1c1d1e1f
reg 2 1 r 7
enclave B 0x10000 0x8000
reg 4 2 r 9 plain
tcs 0 1 1 plain
reg 1 1 rw 0 plain
cpu 0
eenter B 0
load 0x5ff8
load 0x4000
eexit
";

pub const REFUSED: &str = "\
    twice in A|enclave B|expect 000102030405060708090a0b0c0d0e0f101112131415161718191a1b1c1d1e1f\nenclave B|7 Twice;\
    upper case|1e1f|1E1f|Read;\
    63 digits|1e1f|1e1|5 Word;\
    62 digits|1e1f|1e|5 Word;\
    66 digits|1e1f|1e1f20|5 Word;\
    a letter that is no digit|1e1f|1e1g|5 Word;\
    a prefix|expect |expect 0x|5 Word;\
    no digest|expect 000102030405060708090a0b0c0d0e0f101112131415161718191a1b1c1d1e1f|expect|5 Word;\
    a word more|1e1f|1e1f plain|5 Word;\
    before the first enclave|enclave A|expect 000102030405060708090a0b0c0d0e0f101112131415161718191a1b1c1d1e1f\nenclave A|2 Order;\
    after the processor|eexit\n|eexit\nexpect 000102030405060708090a0b0c0d0e0f101112131415161718191a1b1c1d1e1f\n|16 Order";
