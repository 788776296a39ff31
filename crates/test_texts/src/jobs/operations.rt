//! The operations of a script.

use crate::same::are_same;
use job_grammar::jobs::{Job, Op};
use std::process::Abort;

// A script with every operation.
pub const SCRIPT: &str = "plus 1
eenter A 0
timer
eresume A 0
set 18446744073709551615
plus 2
store 0x2000 9
load 0x2000
xadd 0x2008 3
eexit
outload A 0xfff8
outstore A 0x0 5
";

const OPERATIONS: [Op; 12] = [
    Op::Plus { value: 1 },
    Op::Enter { enclave: 1, tcs: 0 },
    Op::Timer,
    Op::Resume { enclave: 1, tcs: 0 },
    Op::Set { value: u64::MAX },
    Op::Plus { value: 2 },
    Op::Store {
        off: 8192,
        value: 9,
    },
    Op::Load { off: 8192 },
    Op::Xadd {
        off: 8200,
        value: 3,
    },
    Op::Exit,
    Op::OutLoad {
        enclave: 1,
        off: 65528,
    },
    Op::OutStore {
        enclave: 1,
        off: 0,
        value: 5,
    },
];

pub fn has_operations(rt: &impl Abort, job: &Job) {
    for script in job.scripts() {
        are_same(rt, script.as_slice(), OPERATIONS.as_slice());
    }
}

pub const ACCEPTED: &str = "\
    a load of a TCS page|load 0x2000|load 0x0|Read;\
    a load of a page that is not added|load 0x2000|load 0x3000|Read;\
    the last word of the largest enclave|load 0x2000|load 0xfffff8|Read;\
    the greatest value that is stored|load 0x2000|store 0x2000 18446744073709551615|Read;\
    the last word of an enclave from outside|load 0x2000|outload A 0xfff8|Read";

pub const REFUSED: &str = "\
    a load at an odd offset|0x2000|0x2001|8 Range;\
    a load past the largest enclave|0x2000|0x1000000|8 Range;\
    a load without an offset|load 0x2000|load|8 Word;\
    a load with a value|load 0x2000|load 0x2000 1|8 Word;\
    a store without a value|load 0x2000|store 0x2000|8 Word;\
    a store at an odd offset|load 0x2000|store 0x2004 1|8 Range;\
    a store of more than 8 bytes|load 0x2000|store 0x2000 18446744073709551616|8 Number;\
    a hexadecimal value|load 0x2000|store 0x2000 0x1|Read;\
    an addition at an odd offset|load 0x2000|xadd 0x2001 1|8 Range;\
    an addition of more than 8 bytes|load 0x2000|xadd 0x2000 18446744073709551616|8 Number;\
    setting more than 8 bytes|load 0x2000|set 18446744073709551616|8 Number;\
    adding more than 8 bytes|load 0x2000|plus 18446744073709551616|8 Number;\
    a timer with a word more|load 0x2000|timer 1|8 Word;\
    a resumption by a REG page|eenter A 0|eresume A 1|7 Missing;\
    a resumption in an enclave that is not there|eenter A|eresume B|7 Missing;\
    a load from outside past the enclave|load 0x2000|outload A 0x10000|8 Range;\
    a load from outside at an odd offset|load 0x2000|outload A 0x2004|8 Range;\
    a load from outside of an enclave that is not there|load 0x2000|outload B 0x2000|8 Missing;\
    a store from outside past the enclave|load 0x2000|outstore A 0x10000 1|8 Range;\
    a store from outside of more than 8 bytes|load 0x2000|outstore A 0x2000 18446744073709551616|8 Number";
