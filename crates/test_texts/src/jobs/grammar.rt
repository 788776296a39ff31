//! The grammar of jobs, line by line.

use super::enclaves::DIGEST;
use crate::same::are_same;
use io_edges::plans::PlanLine;
use job_grammar::jobs::{Job, Marks};
use sgx_types::names::Page;
use std::process::Abort;

// A job with a line of each kind but for those of operations.
pub const WHOLE: &str = "epc 40
marks 4 8 2
key 000102030405060708090a0b0c0d0e0f101112131415161718191a1b1c1d1e1f
start 5 9
enclave A 0x10000 0x10000
tcs 0 1 2
reg 1 2 rw 0
reg 3 1 r 7 plain
expect 000102030405060708090a0b0c0d0e0f101112131415161718191a1b1c1d1e1f
enclave B 0x40000 0x8000
tcs 0 1 1 plain
reg 1 3 rwx 0
store fail room 2
store fail put 1
store fail get 3
store drop A 3 1
store flip A 3 0 33215
store replay B 2 1 2
store swap A 1 B 1
cpu 0
eenter A 0
load 0x3000
store 0x2000 5
eexit
cpu 1
eenter B 0
outload A 0x8
timer
eexit
";

// Other spellings of the same job, and other jobs that are valid.
pub const SPELLINGS: &str = "\
    as it stands|epc 40|epc 40|Read;\
    leading zeros|epc 40|epc 000000000000000000000000000000000000000040|Read;\
    a hexadecimal number of frames|epc 40|epc 0x28|Read;\
    digits of either case|load 0x3000|load 0x30F8|Read;\
    a decimal offset|load 0x3000|load 12288|Read;\
    spaces and tabs around words|marks 4 8 2| \tmarks  4\t8 2\t |Read;\
    a blank line|marks 4 8 2|\n \t\nmarks 4 8 2|Read;\
    a comment|marks 4 8 2|#marks 0\n  # \u{fc}\nmarks 4 8 2|Read;\
    no last line feed|timer\neexit\n|timer\neexit|Read;\
    options in another order|marks 4 8 2\nkey 000102030405060708090a0b0c0d0e0f101112131415161718191a1b1c1d1e1f\nstart 5 9|start 5 9\nkey 000102030405060708090a0b0c0d0e0f101112131415161718191a1b1c1d1e1f\nmarks 4 8 2|Read;\
    no option|marks 4 8 2\nkey 000102030405060708090a0b0c0d0e0f101112131415161718191a1b1c1d1e1f\nstart 5 9\n||Read;\
    a key in upper case|1b1c1d1e1f\nstart|1B1C1D1E1F\nstart|Read;\
    the last epoch and version|start 5 9|start 1099511627775 18446744073709551615|Read;\
    the widest marks|marks 4 8 2|marks 1 4096 64|Read;\
    a digest that is expected before the pages|tcs 0 1 2\nreg 1 2 rw 0\nreg 3 1 r 7 plain\nexpect 000102030405060708090a0b0c0d0e0f101112131415161718191a1b1c1d1e1f|expect 000102030405060708090a0b0c0d0e0f101112131415161718191a1b1c1d1e1f\ntcs 0 1 2\nreg 1 2 rw 0\nreg 3 1 r 7 plain|Read;\
    an enclave without pages|store fail room 2|enclave C 0x0 0x2000\nstore fail room 2|Read;\
    a script without operations|load 0x3000\nstore 0x2000 5\neexit\n||Read;\
    two TCS pages that share state save pages|tcs 0 1 2|tcs 9 1 2\ntcs 0 1 2|Read;\
    a state save page that can be executed|reg 1 2 rw 0|reg 1 2 rwx 0|Read;\
    the same TCS page twice by one processor|timer|eresume B 0\neenter B 0|Read;\
    a flip that never comes|store flip A 3 0|store flip A 3 18446744073709551615|Read;\
    a plan that stands twice|store fail put 1|store fail put 1\nstore fail put 1|Read;\
    a record swapped with itself|swap A 1 B 1|swap A 1 A 1|Read;\
    a base at the top of the addresses|enclave B 0x40000 0x8000|enclave B 0x7fffffff8000 0x8000|Read";

// A word is missing, left over, or none of its choices.
pub const WORDS: &str = "\
    a first word in upper case|epc 40|EPC 40|1 Word;\
    a comment behind words|epc 40|epc 40 # frames|1 Word;\
    a word too few|marks 4 8 2|marks 4 8|2 Word;\
    a word too many|start 5 9|start 5 9 1|4 Word;\
    a vertical tab, which separates nothing|marks 4 8|marks 4\x0b8|2 Word;\
    a line of a form feed|marks 4|\x0c\nmarks 4|2 Word;\
    a letter behind H|drop A 3|drop I 3|16 Word;\
    a letter in lower case|enclave A|enclave a|5 Word;\
    two letters|eenter A 0|eenter AA 0|21 Word;\
    permissions without R|3 1 r 7|3 1 w 7|8 Word;\
    permissions in another order|rwx|wrx|12 Word;\
    another word for plain|r 7 plain|r 7 Plain|8 Word;\
    plain twice|r 7 plain|r 7 plain plain|8 Word;\
    a key of 63 digits|1b1c1d1e1f\nstart|1b1c1d1e1\nstart|3 Word;\
    a key with a digit that is none|1b1c1d1e1f\nstart|1b1c1d1e1g\nstart|3 Word;\
    an unknown call|fail room|fail take|13 Word;\
    an unknown plan|store drop|store lose|16 Word;\
    the operation before the first processor|store fail room 2|store 0x2000 1|13 Word;\
    a plan behind the first processor|timer|store fail room 1|28 Word;\
    a word before a number|drop A 3 1|drop I x y|16 Word;\
    a word before the order|marks 4 8 2|enclave Z 1 1\nmarks 4 8 2|2 Word";

// A word in a number's place is none.
pub const NUMBERS: &str = "\
    a sign|epc 40|epc +40|1 Number;\
    a minus|start 5 9|start -5 9|4 Number;\
    an underscore|epc 40|epc 4_0|1 Number;\
    a prefix in upper case|load 0x3000|load 0X3000|22 Number;\
    a prefix alone|load 0x3000|load 0x|22 Number;\
    hexadecimal digits without their prefix|load 0x3000|load 3f00|22 Number;\
    2^64|start 5 9|start 5 18446744073709551616|4 Number;\
    more digits than 2^64 has|reg 1 2 rw 0|reg 1 2 rw 100000000000000000000000|7 Number;\
    a second carriage return|epc 40\n|epc 40\r\r\n|1 Number;\
    a store without a number|timer|store fail 1|28 Number;\
    a number before the order|cpu 0\n|epc x\ncpu 0\n|20 Number";

// A line stands in the wrong part, or out of its turn.
pub const ORDERS: &str = "\
    the frames again|marks 4 8 2|epc 40\nmarks 4 8 2|2 Order;\
    the frames again and out of range|marks 4 8 2|epc 0\nmarks 4 8 2|2 Order;\
    an option before the frames|epc 40\nmarks 4 8 2|marks 4 8 2\nepc 40|2 Order;\
    an option again behind an enclave|enclave B|marks 4 8 2\nenclave B|10 Order;\
    a letter left out|enclave B|enclave C|10 Order;\
    a letter again|enclave B|enclave A|10 Order;\
    pages before the first enclave|enclave A|reg 9 1 r 0\nenclave A|5 Order;\
    pages behind a store line|cpu 0|reg 9 1 r 0\ncpu 0|20 Order;\
    a digest behind a store line|cpu 0|expect 000102030405060708090a0b0c0d0e0f101112131415161718191a1b1c1d1e1f\ncpu 0|20 Order;\
    an enclave behind a processor|store 0x2000 5|enclave C 0x0 0x2000|23 Order;\
    an operation before the first processor|cpu 0\n|timer\ncpu 0\n|20 Order;\
    a processor left out|cpu 1|cpu 2|25 Order;\
    a processor again|cpu 1|cpu 0|25 Order;\
    a processor 17|cpu 1|cpu 17|25 Order";

// An option, a digest or a page stands again.
pub const REPEATS: &str = "\
    marks|start 5 9|marks 4 8 2\nstart 5 9|4 Twice;\
    marks that are out of range|start 5 9|marks 0 0 0\nstart 5 9|4 Twice;\
    a key|start 5 9|key 000102030405060708090a0b0c0d0e0f101112131415161718191a1b1c1d1e1f\nstart 5 9|4 Twice;\
    a start|start 5 9|start 5 9\nstart 0 0|5 Twice;\
    a digest|enclave B|expect 000102030405060708090a0b0c0d0e0f101112131415161718191a1b1c1d1e1f\nenclave B|10 Twice;\
    a page|reg 3 1 r|reg 2 1 r|8 Twice;\
    a TCS page|reg 3 1 r 7 plain|tcs 0 1 1|8 Twice;\
    the greatest count|reg 3 1 r|reg 0 18446744073709551615 r|8 Twice;\
    the greatest page and count over no page|reg 3 1 r|reg 18446744073709551615 18446744073709551615 r|8 Range;\
    no page over a page|reg 3 1 r|reg 1 0 r|8 Range";

// A number is out of its range.
pub const RANGES: &str = "\
    no frame|epc 40|epc 0|1 Range;\
    4097 frames|epc 40|epc 4097|1 Range;\
    no low mark|marks 4 8 2|marks 0 8 2|2 Range;\
    marks that are the same|marks 4 8 2|marks 8 8 2|2 Range;\
    a high mark above 4096|marks 4 8 2|marks 4 4097 2|2 Range;\
    no look a pass|marks 4 8 2|marks 4 8 0|2 Range;\
    65 looks a pass|marks 4 8 2|marks 4 8 65|2 Range;\
    no epoch|start 5 9|start 0 9|4 Range;\
    an epoch past the last|start 5 9|start 1099511627776 9|4 Range;\
    no version|start 5 9|start 5 0|4 Range;\
    no size|0x40000 0x8000|0x40000 0|10 Range;\
    a size of one page|0x40000 0x8000|0x40000 0x1000|10 Range;\
    a size that is too large|0x40000 0x8000|0x2000000 0x2000000|10 Range;\
    a size that is no power of two|0x40000 0x8000|0x30000 0x6000|10 Range;\
    a base that is no multiple|0x40000 0x8000|0x44000 0x8000|10 Range;\
    an end past 2^47|0x40000 0x8000|0x800000000000 0x8000|10 Range;\
    an end past 2^64|0x40000 0x8000|0xffffffffffff8000 0x8000|10 Range;\
    no state save frame|tcs 0 1 2|tcs 0 1 0|6 Range;\
    17 state save frames|tcs 0 1 2|tcs 4 5 17|6 Range;\
    state save frames past the end|tcs 0 1 2|tcs 0 15 2|6 Range;\
    state save frames past 2^64|tcs 0 1 2|tcs 0 18446744073709551615 2|6 Range;\
    a TCS page past the end|tcs 0 1 2|tcs 16 1 2|6 Range;\
    pages past the end|reg 3 1 r|reg 3 14 r|8 Range;\
    pages past 2^64|reg 3 1 r|reg 3 18446744073709551615 r|8 Range;\
    the call 0|fail room 2|fail room 0|13 Range;\
    the get 0|drop A 3 1|drop A 3 0|16 Range;\
    a bit past a record|3 0 33215|3 0 33216|17 Range;\
    the put 0|replay B 2 1 2|replay B 2 1 0|18 Range;\
    an offset that is no multiple of 8|load 0x3000|load 0x3004|22 Range;\
    an offset past the largest enclave|store 0x2000|store 0x1000000|23 Range;\
    an offset past its enclave|outload A 0x8|outload B 0x8000|27 Range;\
    an odd offset in an enclave that is not there|outload A 0x8|outload H 0x4|27 Range";

// What a line names is not there, or a line is missing.
pub const MISSING: &str = "\
    an enclave that is not there|outload A 0x8|outload H 0x8|27 Missing;\
    any offset in an enclave that is not there|outload A 0x8|outload H 0xfffffffffffffff8|27 Missing;\
    a page of an enclave that is not there|drop A 3 1|drop C 3 1|16 Missing;\
    a page that is not added|swap A 1 B 1|swap A 1 B 7|19 Missing;\
    a page number of more than 32 bits|drop A 3 1|drop A 4294967299 1|16 Missing;\
    an entry by a REG page|eenter A 0|eenter A 1|21 Missing;\
    an entry by a page of another enclave|eenter B 0|eenter B 9|26 Missing;\
    an entry into an enclave that is not there|eenter A 0|eenter C 0|21 Missing;\
    a state save page without W|reg 1 2 rw 0|reg 1 1 rw 0\nreg 2 1 rx 0|6 Missing;\
    a state save page that is not added|tcs 0 1 1 plain|tcs 0 4 1 plain|11 Missing;\
    a state save page that is a TCS page|tcs 0 1 1 plain|tcs 0 0 1 plain|11 Missing;\
    no frames|epc 40\n||29 Missing;\
    too few frames|epc 40|epc 9|1 EpcTooSmall { needed: 10 };\
    as many frames as are needed|epc 40|epc 10|Read;\
    a TCS page of another processor|eenter B 0|eenter A 0|26 TcsShared;\
    a resumption by one|timer|eresume A 0|28 TcsShared";

// Changes of a job of one enclave and one processor.
pub const FIRST_CHANGES: &str = "\
    nothing|epc 6\nenclave A 0x10000 0x10000\ntcs 0 1 1 plain\nreg 1 1 rw 0 plain\nreg 2 1 rw 7 plain\ncpu 0\neenter A 0\nload 0x2000\neexit\n||1 Missing;\
    five frames|epc 6|epc 5|1 EpcTooSmall { needed: 6 };\
    another letter|enclave A|enclave B|2 Order;\
    a base that is no multiple|enclave A 0x10000|enclave A 0x8000|2 Range;\
    a page twice|reg 2 1 rw 7|reg 1 1 rw 7|5 Twice;\
    an entry by a REG page|eenter A 0|eenter A 1|7 Missing;\
    an offset that is no multiple of 8|load 0x2000|load 0x2004|8 Range;\
    an offset that is no number|load 0x2000|load 2x|8 Number;\
    a state save page without W|reg 1 1 rw|reg 1 1 r|3 Missing;\
    a second processor by the same TCS page|epc 6\nenclave A 0x10000 0x10000\ntcs 0 1 1 plain\nreg 1 1 rw 0 plain\nreg 2 1 rw 7 plain\ncpu 0\neenter A 0\nload 0x2000\neexit\n|epc 9\nenclave A 0x10000 0x10000\ntcs 0 1 1 plain\nreg 1 1 rw 0 plain\nreg 2 1 rw 7 plain\ncpu 0\neenter A 0\nload 0x2000\neexit\ncpu 1\neenter A 0\n|11 TcsShared;\
    no state save page in too few frames|epc 6\nenclave A 0x10000 0x10000\ntcs 0 1 1|epc 5\nenclave A 0x10000 0x10000\ntcs 0 5 1|3 Missing;\
    a fault in a last line without line feed|load 0x2000\neexit\n|load 0x2004|8 Range;\
    the earlier of two faults|reg 2 1 rw 7 plain\ncpu 0|reg 2 1 rw x plain\ncpu 7|5 Number;\
    a faulty line before too few frames|epc 6\nenclave A 0x10000|epc 5\nenclave A 0x10001|2 Range;\
    4097 pages|cpu 0|enclave B 0x0 0x1000000\nreg 0 4094 r 0\ncpu 0|7 TooMany;\
    4096 pages|cpu 0|enclave B 0x0 0x1000000\nreg 0 4093 r 0\ncpu 0|1 EpcTooSmall { needed: 15 }";

// What the options of a job say, its plans, and how many enclaves, scripts and pages it has.
pub fn is_whole(rt: &impl Abort, job: &Job) {
    let marks = Marks {
        low: 4,
        high: 8,
        scan: 2,
    };
    are_same(
        rt,
        (
            job.epc(),
            job.marks(),
            job.start_epoch(),
            job.start_version(),
        ),
        (40, marks, 5, 9),
    );
    are_same(rt, job.key().as_slice(), DIGEST.as_slice());
    are_same(rt, job.plans(), PLANS);
    are_same(
        rt,
        (job.enclaves().len(), job.scripts().len(), job.pages()),
        (2, 2, 8),
    );
}

const PLANS: &[PlanLine] = &[
    PlanLine::FailRoom { k: 2 },
    PlanLine::FailPut { k: 1 },
    PlanLine::FailGet { k: 3 },
    PlanLine::DropGet {
        page: Page {
            enclave: 1,
            number: 3,
        },
        g: 1,
    },
    PlanLine::Flip {
        page: Page {
            enclave: 1,
            number: 3,
        },
        g: 0,
        bit: 33215,
    },
    PlanLine::Replay {
        page: Page {
            enclave: 2,
            number: 2,
        },
        g: 1,
        w: 2,
    },
    PlanLine::Swap {
        one: Page {
            enclave: 1,
            number: 1,
        },
        other: Page {
            enclave: 2,
            number: 1,
        },
    },
];
