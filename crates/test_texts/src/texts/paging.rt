//! Lines of pages that leave and come back.

use super::rows::Row::{self, Did, Other, Refused};
use super::rows::{DIGEST, FIRST, PLAIN};
use sgx_rules::entries::{Action, Answer, BusWhy, Event, Look};
use sgx_rules::refusals::Refusal;
use sgx_types::names::{Actor, Cpu, Frame, Page, SlotAt};

const OUTSIDE: Page = Page {
    enclave: 1,
    number: 2,
};

const SLOT: SlotAt = SlotAt {
    frame: Frame(0),
    index: 511,
};

const LOOKED_AT: Page = Page {
    enclave: 1,
    number: 5,
};

const STOPPED_AT: Page = Page {
    enclave: 2,
    number: 6,
};

const MOVED: Answer = Answer::Moved {
    page: OUTSIDE,
    version: 7,
    tag: DIGEST,
};

// A page that leaves and comes back, and what stops it.
pub const PAGING: &[Row] = &[
    Other(
        Actor::Reclaimer,
        Event::Age {
            page: LOOKED_AT,
            look: Look::Young,
        },
        "r age A 5 young",
    ),
    Other(
        Actor::Reclaimer,
        Event::Age {
            page: LOOKED_AT,
            look: Look::Held,
        },
        "r age A 5 held",
    ),
    Other(
        Actor::Reclaimer,
        Event::Age {
            page: LOOKED_AT,
            look: Look::NoRoom,
        },
        "r age A 5 noroom",
    ),
    Other(
        Actor::Reclaimer,
        Event::Age {
            page: LOOKED_AT,
            look: Look::Taken,
        },
        "r age A 5 taken",
    ),
    Did(
        Actor::Reclaimer,
        Action::Block { frame: Frame(4) },
        PLAIN,
        "r block 4",
    ),
    Did(
        Actor::Reclaimer,
        Action::Track { enclave: 1 },
        PLAIN,
        "r track A",
    ),
    Did(
        Actor::Reclaimer,
        Action::EwbStart {
            frame: Frame(4),
            slot: SLOT,
        },
        Answer::Version(7),
        "r ewbstart 4 0 511 7",
    ),
    Other(Actor::Reclaimer, Event::Kick { cpu: Cpu(3) }, "r kick 3"),
    Did(
        Actor::Reclaimer,
        Action::Ewb { frame: Frame(4) },
        MOVED,
        "r ewb 4 A 2 7 006d518bbd8825da4a0e7d35d418aaf16b7749c62854a6f40d8d58db415a8c31",
    ),
    Did(
        FIRST,
        Action::EldStart {
            frame: Frame(6),
            page: OUTSIDE,
            slot: SLOT,
        },
        Answer::Version(7),
        "p0 eldstart 6 A 2 0 511 7",
    ),
    Did(
        FIRST,
        Action::Eld { frame: Frame(6) },
        MOVED,
        "p0 eld 6 A 2 7 006d518bbd8825da4a0e7d35d418aaf16b7749c62854a6f40d8d58db415a8c31",
    ),
    Other(
        FIRST,
        Event::Bus {
            page: STOPPED_AT,
            why: BusWhy::GetFailed,
        },
        "p0 bus B 6 get",
    ),
    Other(
        Actor::Reclaimer,
        Event::Age {
            page: Page {
                enclave: 8,
                number: u32::MAX,
            },
            look: Look::Held,
        },
        "r age H secs held",
    ),
    Other(
        FIRST,
        Event::Bus {
            page: Page {
                enclave: 0,
                number: u32::MAX,
            },
            why: BusWhy::Slot,
        },
        "p0 bus va 4294967295 slot",
    ),
    Refused(
        Action::Ewb { frame: Frame(4) },
        Refusal::ChildPresent { count: 3 },
        "p0 refused ewb 4 ChildPresent 3",
    ),
    Other(
        FIRST,
        Event::Bus {
            page: STOPPED_AT,
            why: BusWhy::NoRecord,
        },
        "p0 bus B 6 none",
    ),
    Other(
        FIRST,
        Event::Bus {
            page: STOPPED_AT,
            why: BusWhy::PutFailed,
        },
        "p0 bus B 6 put",
    ),
    Other(
        FIRST,
        Event::Bus {
            page: STOPPED_AT,
            why: BusWhy::Mac,
        },
        "p0 bus B 6 mac",
    ),
    Other(
        FIRST,
        Event::Bus {
            page: STOPPED_AT,
            why: BusWhy::Header,
        },
        "p0 bus B 6 header",
    ),
];

const EWB_START: Action = Action::EwbStart {
    frame: Frame(4),
    slot: SlotAt {
        frame: Frame(0),
        index: 1,
    },
};

const ELD: Action = Action::Eld { frame: Frame(6) };

const INIT: Action = Action::Init {
    enclave: 1,
    expect: Some([0; 32]),
};

// Refusals with numbers, and of enclaves without a letter.
pub const REFUSED: &[Row] = &[
    Refused(
        Action::Exit,
        Refusal::WrongMode,
        "p0 refused exit WrongMode",
    ),
    Refused(
        Action::Track { enclave: 0 },
        Refusal::Absent,
        "p0 refused track 0 Absent",
    ),
    Refused(
        Action::Track { enclave: 9 },
        Refusal::PrevTrk { older: 2 },
        "p0 refused track 9 PrevTrk 2",
    ),
    Refused(
        EWB_START,
        Refusal::NotTracked { epoch: 3, older: 1 },
        "p0 refused ewbstart 4 0 1 NotTracked 3 1",
    ),
    Refused(
        EWB_START,
        Refusal::SlotOccupied { version: 8 },
        "p0 refused ewbstart 4 0 1 SlotOccupied 8",
    ),
    Refused(
        ELD,
        Refusal::MacFail {
            given: DIGEST,
            computed: [0; 32],
        },
        "p0 refused eld 6 MacFail 006d518bbd8825da4a0e7d35d418aaf16b7749c62854a6f40d8d58db415a8c31 0000000000000000000000000000000000000000000000000000000000000000",
    ),
    Refused(
        ELD,
        Refusal::BadHeader {
            enclave: 1,
            address: 65536,
            flags: 515,
        },
        "p0 refused eld 6 BadHeader 1 65536 515",
    ),
    Refused(
        ELD,
        Refusal::ChildPresent { count: 4 },
        "p0 refused eld 6 ChildPresent 4",
    ),
    Refused(
        INIT,
        Refusal::BadMeasure { made: DIGEST },
        "p0 refused init A 0000000000000000000000000000000000000000000000000000000000000000 BadMeasure 006d518bbd8825da4a0e7d35d418aaf16b7749c62854a6f40d8d58db415a8c31",
    ),
    Refused(
        Action::Extend {
            frame: Frame(4095),
            chunk: 255,
        },
        Refusal::BadRange,
        "p0 refused extend 4095 255 BadRange",
    ),
];
