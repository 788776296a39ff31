//! A SECS and a version array page that leave and come back.

use super::digests::THREE_PAGES;
use super::instructions::Instruction::*;
use super::rows::Reader::{Arrays, CanBring, Children, HasArray};
use super::rows::Row::{self, EndIn, EndOut, Step, Swap, Tells};
use super::rows::Told::{Count, Is};
use super::rows::{BUILDER, DONE, FIRST, RECLAIMER};
use super::world::play;
use sgx_rules::entries::Answer;
use sgx_rules::refusals::Refusal;
use sgx_types::names::{Page, SECS_NUMBER};
use std::test::Fail;

// Frame 0 holds version array page 0, 1 the SECS, and 2 to 4 the pages 0 to 2 of enclave 1, the last of words 7. The processor was inside,
// and left.
const BUILT: &[Row] = &[
    Step(BUILDER, Epa(0), Ok(Answer::Va(0))),
    Step(BUILDER, Create(1), DONE),
    Step(BUILDER, AddTcs(2), DONE),
    Step(BUILDER, AddReg(1, 3, 0), DONE),
    Step(BUILDER, AddReg(2, 4, 7), DONE),
    Step(BUILDER, Init(None), Ok(Answer::Hash(THREE_PAGES))),
    Step(FIRST, Enter(2, 3), Ok(Answer::Cssa(0))),
    Step(
        RECLAIMER,
        StartOut(1, 0),
        Err(Refusal::ChildPresent { count: 3 }),
    ),
    Step(FIRST, Exit, DONE),
];

const SECS: Page = Page {
    enclave: 1,
    number: SECS_NUMBER,
};

const ARRAY: Page = Page {
    enclave: 0,
    number: 1,
};

const OWN: Page = Page {
    enclave: 1,
    number: 2,
};

// Answers of commits. Python's hashlib gave the tags, of bytes and headers that it laid out itself, under the zero key.

// The TCS page, with its state save page 1, under version 1.
const TCS: Answer = Answer::Moved {
    page: Page {
        enclave: 1,
        number: 0,
    },
    version: 1,
    tag: [
        0x70, 0x8a, 0x1f, 0x4f, 0x66, 0xaa, 0x57, 0x5b, 0x98, 0x3e, 0x1d, 0xa6, 0xb0, 0x2b, 0x82,
        0x30, 0xe8, 0x90, 0xfb, 0x4d, 0x34, 0x6a, 0xb6, 0xf9, 0xdf, 0xbe, 0x0e, 0x02, 0x9c, 0xac,
        0xcf, 0x3a,
    ],
};

// A page of zeros, under version 2.
const ZEROS: Answer = Answer::Moved {
    page: Page {
        enclave: 1,
        number: 1,
    },
    version: 2,
    tag: [
        0xb6, 0x77, 0x1e, 0x6b, 0x5f, 0xb6, 0xb2, 0xe1, 0xb2, 0xe9, 0x72, 0x7e, 0x6c, 0xce, 0x06,
        0x3f, 0xe5, 0x4f, 0x9a, 0x85, 0x2d, 0xda, 0xcc, 0x0d, 0xa4, 0x98, 0x4f, 0x76, 0x0d, 0xe3,
        0x09, 0x99,
    ],
};

// A page of words 7, under version 3.
const SEVENS: Answer = Answer::Moved {
    page: Page {
        enclave: 1,
        number: 2,
    },
    version: 3,
    tag: [
        0x51, 0xcb, 0xf8, 0x1d, 0x43, 0x10, 0x85, 0x45, 0x7c, 0xf3, 0x36, 0x92, 0x3a, 0x4a, 0xf4,
        0xf5, 0x69, 0xd6, 0xcf, 0xc1, 0xa1, 0x4c, 0xf2, 0x8f, 0x4f, 0x24, 0x7c, 0xd6, 0xac, 0x12,
        0x00, 0x13,
    ],
};

// The SECS: its size and base, the number 1, and the digest of the three pages; under version 4.
const SECS_OUT: Answer = Answer::Moved {
    page: SECS,
    version: 4,
    tag: [
        0x77, 0xaa, 0x93, 0x5e, 0xdd, 0xb4, 0x05, 0x20, 0xfd, 0xf4, 0x13, 0x29, 0x18, 0x90, 0x2c,
        0xd2, 0x6b, 0x6f, 0xe9, 0xe5, 0x6f, 0xc7, 0xc9, 0x60, 0x4b, 0x5b, 0x66, 0x92, 0x35, 0x5f,
        0x6b, 0xcb,
    ],
};

const SECS_LEAVES: &[Row] = &[
    Step(RECLAIMER, Block(2), DONE),
    Step(RECLAIMER, Block(3), DONE),
    Step(RECLAIMER, Block(4), DONE),
    Step(RECLAIMER, Track, DONE),
    Step(RECLAIMER, StartOut(2, 0), Ok(Answer::Version(1))),
    EndOut(2, TCS),
    Swap,
    Step(RECLAIMER, StartOut(3, 1), Ok(Answer::Version(2))),
    EndOut(3, ZEROS),
    Step(RECLAIMER, StartOut(4, 2), Ok(Answer::Version(3))),
    EndOut(4, SEVENS),
    Tells(Children(1), Count(0)),
    Step(RECLAIMER, StartOut(1, 3), Ok(Answer::Version(4))),
    EndOut(1, SECS_OUT),
    Step(RECLAIMER, Track, Err(Refusal::Absent)),
    Step(FIRST, StartIn(0, 2, 0), Err(Refusal::Absent)),
    Step(FIRST, StartIn(SECS_NUMBER, 1, 3), Ok(Answer::Version(4))),
    EndIn(1, Ok(SECS_OUT)),
    Step(FIRST, StartIn(0, 2, 0), Ok(Answer::Version(1))),
    Tells(Children(1), Count(1)),
    Step(
        RECLAIMER,
        StartOut(1, 3),
        Err(Refusal::ChildPresent { count: 1 }),
    ),
    Swap,
    EndIn(2, Ok(TCS)),
];

#[test]
fn a_secs_leaves_behind_its_pages_and_comes_before_them(rt: HostRuntime) -> Result<(), Fail> {
    play(&rt, rt.alloc(), 8, 1, &[BUILT, SECS_LEAVES])?;
    Ok(())
}

// A page of words 7, under version 1.
const FIRST_SEVENS: Answer = Answer::Moved {
    page: Page {
        enclave: 1,
        number: 2,
    },
    version: 1,
    tag: [
        0xb4, 0x0e, 0xef, 0x08, 0xeb, 0x5a, 0x9b, 0x63, 0x89, 0x4d, 0xe2, 0x50, 0xd9, 0x0f, 0xd8,
        0x36, 0x9e, 0x8a, 0x79, 0x85, 0x7a, 0x9d, 0x78, 0x52, 0x88, 0x56, 0x6a, 0x63, 0x67, 0x1d,
        0x4a, 0x6f,
    ],
};

// Version array page 1 with version 1 in its first slot, under version 2.
const FULL: Answer = Answer::Moved {
    page: ARRAY,
    version: 2,
    tag: [
        0x41, 0xa6, 0x55, 0x5f, 0xcd, 0xf9, 0x87, 0x03, 0x50, 0xa4, 0xe9, 0xca, 0x46, 0xda, 0x1f,
        0x88, 0x58, 0x17, 0x4a, 0x6f, 0x09, 0xb2, 0xe3, 0x5b, 0xac, 0xf5, 0x4b, 0x5c, 0xe7, 0x34,
        0xc9, 0x99,
    ],
};

// .. and empty, under version 3.
const EMPTY: Answer = Answer::Moved {
    page: ARRAY,
    version: 3,
    tag: [
        0x46, 0xad, 0xd3, 0xf2, 0xaa, 0x8c, 0x79, 0x7a, 0x2b, 0x48, 0x66, 0x37, 0x45, 0xdb, 0xc3,
        0xb1, 0x31, 0x78, 0x66, 0xce, 0xe5, 0xaf, 0x20, 0x19, 0x34, 0xd5, 0x53, 0x4e, 0xef, 0x33,
        0x0a, 0x8e,
    ],
};

const ARRAY_LEAVES: &[Row] = &[
    Step(BUILDER, Epa(5), Ok(Answer::Va(1))),
    Tells(Arrays, Count(2)),
    Step(RECLAIMER, Block(4), DONE),
    Step(RECLAIMER, Track, DONE),
    Step(RECLAIMER, StartOutBy(4, 5, 0), Ok(Answer::Version(1))),
    Step(RECLAIMER, StartOut(5, 0), Err(Refusal::Conflict)),
    EndOut(4, FIRST_SEVENS),
    Swap,
    Step(RECLAIMER, StartOutBy(5, 5, 1), Err(Refusal::BadKind)),
    Step(RECLAIMER, StartOut(5, 0), Ok(Answer::Version(2))),
    Step(FIRST, StartInBy(OWN, 4, 5, 0), Err(Refusal::Conflict)),
    EndOut(5, FULL),
    Tells(HasArray(1), Is(false)),
    Step(FIRST, StartInBy(OWN, 4, 5, 0), Err(Refusal::BadKind)),
    Step(FIRST, StartInBy(ARRAY, 6, 0, 0), Ok(Answer::Version(2))),
    Tells(CanBring(6), Is(true)),
    EndIn(6, Ok(FULL)),
    Tells(HasArray(1), Is(true)),
    Swap,
    Step(FIRST, StartInBy(OWN, 4, 6, 0), Ok(Answer::Version(1))),
    EndIn(4, Ok(FIRST_SEVENS)),
    Step(RECLAIMER, StartOut(6, 0), Ok(Answer::Version(3))),
    EndOut(6, EMPTY),
    Step(FIRST, StartInBy(ARRAY, 6, 0, 0), Ok(Answer::Version(3))),
    EndIn(6, Ok(EMPTY)),
];

#[test]
fn slots_leave_with_their_page_and_come_into_another_frame(rt: HostRuntime) -> Result<(), Fail> {
    play(&rt, rt.alloc(), 8, 1, &[BUILT, ARRAY_LEAVES])?;
    Ok(())
}

// A load of version array page 1 starts by the slot of another page, while frame 5 holds it.
const ARRAY_STAYS: &[Row] = &[
    Step(BUILDER, Epa(5), Ok(Answer::Va(1))),
    Step(RECLAIMER, Block(4), DONE),
    Step(RECLAIMER, Track, DONE),
    Step(RECLAIMER, StartOutBy(4, 5, 0), Ok(Answer::Version(1))),
    EndOut(4, FIRST_SEVENS),
    Step(FIRST, StartInBy(ARRAY, 6, 5, 0), Ok(Answer::Version(1))),
    Tells(HasArray(1), Is(true)),
    Tells(CanBring(6), Is(false)),
];

#[test]
fn a_page_that_is_here_may_start_to_come_and_not_end(rt: HostRuntime) -> Result<(), Fail> {
    play(&rt, rt.alloc(), 8, 1, &[BUILT, ARRAY_STAYS])?;
    Ok(())
}
