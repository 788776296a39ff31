//! Lines of builds, and a whole trace.

use super::rows::Row::{self, Did};
use super::rows::{DIGEST, FIRST, NONE, PLAIN, READ_WRITE};
use sgx_rules::entries::{Action, Answer};
use sgx_types::lawful::PageInit;
use sgx_types::names::{Actor, Frame, Kind, Perm};

// An enclave of three pages is built, and a processor loads one word of it.
pub const WHOLE: &[Row] = &[
    Did(
        Actor::Builder,
        Action::Epa { frame: Frame(0) },
        Answer::Va(0),
        "b epa 0 0",
    ),
    Did(
        Actor::Builder,
        Action::Create {
            enclave: 1,
            frame: Frame(1),
            base: 0x10000,
            size: 0x10000,
        },
        PLAIN,
        "b create A 1 0x10000 0x10000",
    ),
    Did(
        Actor::Builder,
        Action::Add {
            enclave: 1,
            number: 0,
            frame: Frame(2),
            kind: Kind::Tcs,
            perm: NONE,
            init: PageInit::Tcs { ossa: 1, nssa: 1 },
        },
        PLAIN,
        "b add A 0 2 tcs - tcs 1 1",
    ),
    Did(
        Actor::Builder,
        Action::Add {
            enclave: 1,
            number: 1,
            frame: Frame(3),
            kind: Kind::Reg,
            perm: READ_WRITE,
            init: PageInit::Words(0),
        },
        PLAIN,
        "b add A 1 3 reg rw words 0",
    ),
    Did(
        Actor::Builder,
        Action::Add {
            enclave: 1,
            number: 2,
            frame: Frame(4),
            kind: Kind::Reg,
            perm: READ_WRITE,
            init: PageInit::Words(7),
        },
        PLAIN,
        "b add A 2 4 reg rw words 7",
    ),
    Did(
        Actor::Builder,
        Action::Init {
            enclave: 1,
            expect: None,
        },
        Answer::Hash(DIGEST),
        "b init A - 006d518bbd8825da4a0e7d35d418aaf16b7749c62854a6f40d8d58db415a8c31",
    ),
    Did(
        FIRST,
        Action::Enter {
            enclave: 1,
            tcs: 0,
            tcs_frame: Frame(2),
            ssa_frame: Frame(3),
        },
        Answer::Cssa(0),
        "p0 enter A 0 2 3 0",
    ),
    Did(
        FIRST,
        Action::Fill {
            number: 2,
            frame: Frame(4),
        },
        PLAIN,
        "p0 fill 2 4",
    ),
    Did(
        FIRST,
        Action::Load { off: 0x2000 },
        Answer::Value(7),
        "p0 load 0x2000 7",
    ),
    Did(FIRST, Action::Exit, PLAIN, "p0 exit"),
];

// The text of the whole trace.
pub const TEXT: &str = "\
trace 2
b epa 0 0
b create A 1 0x10000 0x10000
b add A 0 2 tcs - tcs 1 1
b add A 1 3 reg rw words 0
b add A 2 4 reg rw words 7
b init A - 006d518bbd8825da4a0e7d35d418aaf16b7749c62854a6f40d8d58db415a8c31
p0 enter A 0 2 3 0
p0 fill 2 4
p0 load 0x2000 7
p0 exit
end 10
";

// Permissions that an instruction may have and a job may not, and the kinds of pages that are not added.
pub const OTHER_PAGES: &[Row] = &[
    Did(
        Actor::Builder,
        Action::Add {
            enclave: 1,
            number: 3,
            frame: Frame(5),
            kind: Kind::Secs,
            perm: Perm {
                r: false,
                w: false,
                x: true,
            },
            init: PageInit::Words(1),
        },
        PLAIN,
        "b add A 3 5 secs x words 1",
    ),
    Did(
        Actor::Builder,
        Action::Add {
            enclave: 1,
            number: 3,
            frame: Frame(5),
            kind: Kind::Va,
            perm: Perm {
                r: false,
                w: true,
                x: false,
            },
            init: PageInit::Words(1),
        },
        PLAIN,
        "b add A 3 5 va w words 1",
    ),
    Did(
        Actor::Builder,
        Action::Add {
            enclave: 1,
            number: 3,
            frame: Frame(5),
            kind: Kind::Reg,
            perm: Perm {
                r: false,
                w: true,
                x: true,
            },
            init: PageInit::Words(1),
        },
        PLAIN,
        "b add A 3 5 reg wx words 1",
    ),
    Did(
        Actor::Builder,
        Action::Add {
            enclave: 1,
            number: 3,
            frame: Frame(5),
            kind: Kind::Reg,
            perm: Perm {
                r: true,
                w: false,
                x: false,
            },
            init: PageInit::Words(1),
        },
        PLAIN,
        "b add A 3 5 reg r words 1",
    ),
    Did(
        Actor::Builder,
        Action::Add {
            enclave: 1,
            number: 3,
            frame: Frame(5),
            kind: Kind::Reg,
            perm: Perm {
                r: true,
                w: false,
                x: true,
            },
            init: PageInit::Words(1),
        },
        PLAIN,
        "b add A 3 5 reg rx words 1",
    ),
    Did(
        Actor::Builder,
        Action::Add {
            enclave: 1,
            number: 3,
            frame: Frame(5),
            kind: Kind::Reg,
            perm: Perm {
                r: true,
                w: true,
                x: true,
            },
            init: PageInit::Words(1),
        },
        PLAIN,
        "b add A 3 5 reg rwx words 1",
    ),
];
