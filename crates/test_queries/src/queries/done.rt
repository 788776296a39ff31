//! Entries by the little that the tests change in them.

use sgx_rules::entries::{Action, Answer, Entry, Event};
use sgx_rules::refusals::Refusal;
use sgx_types::lawful::PageInit;
use sgx_types::names::{Actor, Frame, Kind, Page, Perm, SlotAt};

/// What was done, with its frame first. Pages that go out and come back do so under a version.
#[derive(Clone, Copy, Debug, PartialEq, Eq)]
pub(super) enum Done {
    Epa(u32),
    Create(u32, u16),
    Add(u32, Page),
    LoadStart(u32, Page),
    Load(u32, Page, u64),
    NoLoad(u32),
    Block(u32),
    WriteOut(u32, Page, u64),
    NoWriteOut(u32),
}

const SLOT: SlotAt = SlotAt {
    frame: Frame(0),
    index: 0,
};

fn did(action: Action, answer: Answer) -> Entry {
    Entry {
        actor: Actor::Reclaimer,
        event: Event::Did { action, answer },
    }
}

fn refused(action: Action, why: Refusal) -> Entry {
    Entry {
        actor: Actor::Reclaimer,
        event: Event::Refused { action, why },
    }
}

fn moved(page: Page, version: u64) -> Answer {
    Answer::Moved {
        page,
        version,
        tag: [0; 32],
    }
}

fn create(frame: Frame, enclave: u16) -> Action {
    Action::Create {
        enclave,
        frame,
        base: 65536,
        size: 65536,
    }
}

fn add(frame: Frame, page: Page) -> Action {
    Action::Add {
        enclave: page.enclave,
        number: page.number,
        frame,
        kind: Kind::Reg,
        perm: Perm::NONE,
        init: PageInit::Words(7),
    }
}

pub(super) fn entry_of(row: Done) -> Entry {
    match row {
        Done::Epa(n) => did(Action::Epa { frame: Frame(n) }, Answer::Plain),
        Done::Create(n, enclave) => did(create(Frame(n), enclave), Answer::Plain),
        Done::Add(n, page) => did(add(Frame(n), page), Answer::Plain),
        Done::LoadStart(n, page) => did(
            Action::EldStart {
                frame: Frame(n),
                page,
                slot: SLOT,
            },
            Answer::Version(1),
        ),
        Done::Load(n, page, version) => did(Action::Eld { frame: Frame(n) }, moved(page, version)),
        Done::NoLoad(n) => refused(Action::Eld { frame: Frame(n) }, Refusal::PgInvld),
        Done::Block(n) => did(Action::Block { frame: Frame(n) }, Answer::Plain),
        Done::WriteOut(n, page, version) => did(
            Action::Ewb { frame: Frame(n) },
            moved(page, version),
        ),
        Done::NoWriteOut(n) => refused(Action::Ewb { frame: Frame(n) }, Refusal::PgInvld),
    }
}
