//! Lines of processors.

use super::rows::Row::{self, Did};
use super::rows::{PLAIN, SECOND};
use sgx_rules::entries::{AccessOp, Action, Answer, Cause, PfWhy};
use sgx_types::names::{Actor, Cpu, Frame};

// What processors do, inside and outside.
pub const PROCESSORS: &[Row] = &[
    Did(
        Actor::Cpu(Cpu(15)),
        Action::Resume {
            enclave: 2,
            tcs: 4,
            tcs_frame: Frame(5),
            ssa_frame: Frame(6),
        },
        Answer::Value(18446744073709551615),
        "p15 resume B 4 5 6 18446744073709551615",
    ),
    Did(
        SECOND,
        Action::Aex {
            cause: Cause::Timer,
        },
        PLAIN,
        "p1 aex timer",
    ),
    Did(
        SECOND,
        Action::Aex {
            cause: Cause::Fault,
        },
        PLAIN,
        "p1 aex fault",
    ),
    Did(
        SECOND,
        Action::Aex { cause: Cause::Kick },
        PLAIN,
        "p1 aex kick",
    ),
    Did(
        SECOND,
        Action::Aex { cause: Cause::End },
        PLAIN,
        "p1 aex end",
    ),
    Did(
        SECOND,
        Action::Load { off: 0 },
        Answer::Value(0),
        "p1 load 0x0 0",
    ),
    Did(
        SECOND,
        Action::Store { off: 8, value: 5 },
        PLAIN,
        "p1 store 0x8 5",
    ),
    Did(
        SECOND,
        Action::Xadd {
            off: 0xabcdef0,
            value: 10,
        },
        Answer::Value(5),
        "p1 xadd 0xabcdef0 10 5",
    ),
    Did(SECOND, Action::Set { value: 9 }, PLAIN, "p1 set 9"),
    Did(
        SECOND,
        Action::Plus { value: 3 },
        Answer::Value(12),
        "p1 plus 3 12",
    ),
    Did(
        SECOND,
        Action::Pf {
            op: AccessOp::Load,
            off: 0x1000,
        },
        Answer::Pf(PfWhy::Absent),
        "p1 pf load 0x1000 absent",
    ),
    Did(
        SECOND,
        Action::Pf {
            op: AccessOp::Store,
            off: 0x2000,
        },
        Answer::Pf(PfWhy::WrongType),
        "p1 pf store 0x2000 type",
    ),
    Did(
        SECOND,
        Action::Pf {
            op: AccessOp::Xadd,
            off: 0x3000,
        },
        Answer::Pf(PfWhy::NoPerm),
        "p1 pf xadd 0x3000 perm",
    ),
    Did(
        SECOND,
        Action::OutLoad {
            enclave: 8,
            off: 16,
        },
        Answer::Value(18446744073709551615),
        "p1 outload H 0x10 18446744073709551615",
    ),
    Did(
        SECOND,
        Action::OutStore {
            enclave: 3,
            off: 24,
            value: 1,
        },
        PLAIN,
        "p1 outstore C 0x18 1",
    ),
];
