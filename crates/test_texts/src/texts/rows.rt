//! What a row's entry is made of.

use sgx_rules::entries::{Action, Answer, Entry, Event};
use sgx_rules::refusals::Refusal;
use sgx_types::names::{Actor, Cpu, Perm};

pub const FIRST: Actor = Actor::Cpu(Cpu(0));

pub const SECOND: Actor = Actor::Cpu(Cpu(1));

pub const PLAIN: Answer = Answer::Plain;

// The SHA-256 of the ECREATE block and the three EADD blocks of the enclave of the whole trace.
pub const DIGEST: [u8; 32] = [
    0x00, 0x6d, 0x51, 0x8b, 0xbd, 0x88, 0x25, 0xda, 0x4a, 0x0e, 0x7d, 0x35, 0xd4, 0x18, 0xaa, 0xf1,
    0x6b, 0x77, 0x49, 0xc6, 0x28, 0x54, 0xa6, 0xf4, 0x0d, 0x8d, 0x58, 0xdb, 0x41, 0x5a, 0x8c, 0x31,
];

pub const NONE: Perm = Perm::NONE;

pub const READ_WRITE: Perm = Perm {
    r: true,
    w: true,
    x: false,
};

// An entry, and its line without the line feed.
#[derive(Clone, Copy)]
pub enum Row {
    Did(Actor, Action, Answer, &'static str),
    // .. by the first processor
    Refused(Action, Refusal, &'static str),
    // An entry that is no instruction.
    Other(Actor, Event, &'static str),
}

impl Row {
    pub fn entry(self) -> Entry {
        match self {
            Row::Did(actor, action, answer, _) => Entry {
                actor,
                event: Event::Did { action, answer },
            },
            Row::Refused(action, why, _) => Entry {
                actor: FIRST,
                event: Event::Refused { action, why },
            },
            Row::Other(actor, event, _) => Entry { actor, event },
        }
    }

    pub fn line(self) -> &'static str {
        match self {
            Row::Did(_, _, _, line) | Row::Refused(_, _, line) | Row::Other(_, _, line) => line,
        }
    }
}
