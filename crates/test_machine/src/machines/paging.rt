//! Pages that go out and come back.

use super::digests::THREE_PAGES;
use super::instructions::Instruction::*;
use super::rows::Reader::{Cpus, Frames, Older};
use super::rows::Row::{self, EndIn, EndOut, EndOutOther, Kick, Step, Tells};
use super::rows::Told::Count;
use super::rows::{BUILDER, DONE, FIRST, RECLAIMER};
use super::world::play;
use sgx_rules::entries::{Answer, Cause};
use sgx_rules::refusals::Refusal;
use sgx_types::names::Page;
use std::test::Fail;

// Python's hashlib: the tag of page 2 of 512 words 7 under the zero key and version 1.
const TAG: [u8; 32] = [
    0xb4, 0x0e, 0xef, 0x08, 0xeb, 0x5a, 0x9b, 0x63, 0x89, 0x4d, 0xe2, 0x50, 0xd9, 0x0f, 0xd8, 0x36,
    0x9e, 0x8a, 0x79, 0x85, 0x7a, 0x9d, 0x78, 0x52, 0x88, 0x56, 0x6a, 0x63, 0x67, 0x1d, 0x4a, 0x6f,
];

const MOVED: Answer = Answer::Moved {
    page: Page {
        enclave: 1,
        number: 2,
    },
    version: 1,
    tag: TAG,
};

// .. of the first word 9 and 511 words 7.
const TAG_OF_9: [u8; 32] = [
    0xb9, 0x84, 0x37, 0x04, 0x6f, 0x85, 0x06, 0x00, 0x49, 0x21, 0x09, 0xbd, 0x1c, 0xb0, 0x4a, 0x8e,
    0x50, 0x15, 0xd1, 0x40, 0xaf, 0x30, 0x82, 0xd6, 0xb3, 0x84, 0x2c, 0x8a, 0x61, 0x1d, 0xe3, 0xf6,
];

const MOVED_WITH_9: Answer = Answer::Moved {
    page: Page {
        enclave: 1,
        number: 2,
    },
    version: 1,
    tag: TAG_OF_9,
};

// Frame 0 holds a version array page, 1 the SECS, and 2 to 4 the pages 0 to 2 of enclave 1, the last of words 7; the one
// processor is inside, and holds a translation of page 2.
const INSIDE: &[Row] = &[
    Step(BUILDER, Epa(0), Ok(Answer::Va(0))),
    Step(BUILDER, Create(1), DONE),
    Step(BUILDER, AddTcs(2), DONE),
    Step(BUILDER, AddReg(1, 3, 0), DONE),
    Step(BUILDER, AddReg(2, 4, 7), DONE),
    Step(BUILDER, Init(None), Ok(Answer::Hash(THREE_PAGES))),
    Step(FIRST, Enter(2, 3), Ok(Answer::Cssa(0))),
    Step(FIRST, Fill(2, 4), DONE),
];

const WAITS: &[Row] = &[
    Step(RECLAIMER, Block(4), DONE),
    Step(
        RECLAIMER,
        StartOut(4, 0),
        Err(Refusal::NotTracked { epoch: 1, older: 1 }),
    ),
    Step(RECLAIMER, Track, DONE),
    Step(
        RECLAIMER,
        StartOut(4, 0),
        Err(Refusal::NotTracked { epoch: 2, older: 1 }),
    ),
    Tells(Older(1, 0), Count(0)),
    Tells(Older(1, 1), Count(1)),
    Tells(Frames, Count(8)),
    Tells(Cpus, Count(1)),
    Kick(0),
    Step(FIRST, Leave(Cause::Kick), DONE),
    Tells(Older(1, 1), Count(0)),
    Step(RECLAIMER, StartOut(4, 0), Ok(Answer::Version(1))),
];

#[test]
fn a_page_waits_for_the_processors_that_entered_before(rt: HostRuntime) -> Result<(), Fail> {
    play(&rt, rt.alloc(), 8, 1, &[INSIDE, WAITS])?;
    Ok(())
}

const TRACKS: &[Row] = &[
    Step(RECLAIMER, Track, DONE),
    Step(RECLAIMER, Track, Err(Refusal::PrevTrk { older: 1 })),
];

#[test]
fn a_track_waits_for_the_one_before_it(rt: HostRuntime) -> Result<(), Fail> {
    play(&rt, rt.alloc(), 8, 1, &[INSIDE, TRACKS])?;
    Ok(())
}

const BLOCKS: &[Row] = &[
    Step(RECLAIMER, Block(4), DONE),
    Step(RECLAIMER, Block(4), Err(Refusal::BlkState)),
    Step(RECLAIMER, Block(1), Err(Refusal::PgIsSecs)),
    Step(RECLAIMER, Block(0), Err(Refusal::NotBlockable)),
    Step(RECLAIMER, Block(7), Err(Refusal::PgInvld)),
];

#[test]
fn pages_of_an_enclave_are_blocked_once(rt: HostRuntime) -> Result<(), Fail> {
    play(&rt, rt.alloc(), 8, 1, &[INSIDE, BLOCKS])?;
    Ok(())
}

// Of page 2, whose first word is 9.
const COMES_BACK: &[Row] = &[
    Step(RECLAIMER, Block(4), DONE),
    Step(FIRST, Store(0x2000, 9), DONE),
    Step(RECLAIMER, Track, DONE),
    Step(FIRST, Leave(Cause::Kick), DONE),
    Step(RECLAIMER, StartOut(4, 0), Ok(Answer::Version(1))),
    EndOut(4, MOVED_WITH_9),
    Step(FIRST, StartIn(2, 5, 0), Ok(Answer::Version(1))),
    EndIn(5, Ok(MOVED_WITH_9)),
    Step(FIRST, Resume(2, 3), Ok(Answer::Value(0))),
    Step(FIRST, Fill(2, 5), DONE),
    Step(FIRST, Load(0x2000), Ok(Answer::Value(9))),
];

#[test]
fn a_word_is_in_the_page_that_comes_back(rt: HostRuntime) -> Result<(), Fail> {
    play(&rt, rt.alloc(), 8, 1, &[INSIDE, COMES_BACK])?;
    Ok(())
}

// The one processor is outside, and page 2 has started to go out of frame 4.
const LEAVING: &[Row] = &[
    Step(FIRST, Leave(Cause::Kick), DONE),
    Step(RECLAIMER, Block(3), DONE),
    Step(RECLAIMER, Block(4), DONE),
    Step(RECLAIMER, Track, DONE),
    Step(RECLAIMER, StartOut(4, 0), Ok(Answer::Version(1))),
];

const OTHER_HEADER: Refusal = Refusal::BadHeader {
    enclave: 1,
    address: 73728,
    flags: 515,
};

const BUSY: &[Row] = &[
    Step(RECLAIMER, Block(4), Err(Refusal::Conflict)),
    Step(FIRST, StartIn(2, 5, 0), Err(Refusal::Conflict)),
    EndOut(4, MOVED),
    Step(
        RECLAIMER,
        StartOut(3, 0),
        Err(Refusal::SlotOccupied { version: 1 }),
    ),
    Step(FIRST, StartIn(2, 5, 1), Err(Refusal::SlotEmpty)),
    Step(FIRST, StartIn(1, 5, 0), Ok(Answer::Version(1))),
    EndIn(5, Err(OTHER_HEADER)),
];

// Page 2's record cannot be taken for page 1's.
#[test]
fn a_start_is_busy_until_its_end(rt: HostRuntime) -> Result<(), Fail> {
    play(&rt, rt.alloc(), 8, 1, &[INSIDE, LEAVING, BUSY])?;
    Ok(())
}

// Work of other bytes is done anew: the tag is that of the page's own.
#[test]
fn the_page_in_the_frame_is_what_is_sealed(rt: HostRuntime) -> Result<(), Fail> {
    play(
        &rt,
        rt.alloc(),
        8,
        1,
        &[INSIDE, LEAVING, &[EndOut(4, MOVED)]],
    )?;
    play(
        &rt,
        rt.alloc(),
        8,
        1,
        &[INSIDE, LEAVING, &[EndOutOther(4, MOVED)]],
    )?;
    Ok(())
}
