//! Entries, as a failed test shows them.

use crate::same::are_same;
use sgx_rules::entries::{Action, Answer, BusWhy, Entry, Event, Look};
use sgx_rules::refusals::Refusal;
use sgx_types::names::{Actor, Cpu, Frame, Page};
use std::test::Fail;

fn entry(actor: Actor, event: Event) -> Entry {
    Entry { actor, event }
}

// One entry for each kind of event, as a failed test shows it.
#[test]
fn an_entry_prints_whole(rt: HostRuntime) -> Result<(), Fail> {
    let page = Page {
        enclave: 1,
        number: 2,
    };
    let cpu = Cpu(0);
    let rows = [
        (
            entry(
                Actor::Cpu(cpu),
                Event::Did {
                    action: Action::Load { off: 0x2000 },
                    answer: Answer::Value(7),
                },
            ),
            "Entry { actor: Cpu(Cpu(0)), event: Did { action: Load { off: 8192 }, answer: Value(7) } }",
        ),
        (
            entry(
                Actor::Builder,
                Event::Refused {
                    action: Action::Epa { frame: Frame(6) },
                    why: Refusal::BadRange,
                },
            ),
            "Entry { actor: Builder, event: Refused { action: Epa { frame: Frame(6) }, why: BadRange } }",
        ),
        (
            entry(
                Actor::Reclaimer,
                Event::Age {
                    page,
                    look: Look::Taken,
                },
            ),
            "Entry { actor: Reclaimer, event: Age { page: Page { enclave: 1, number: 2 }, look: Taken } }",
        ),
        (
            entry(Actor::Reclaimer, Event::Kick { cpu }),
            "Entry { actor: Reclaimer, event: Kick { cpu: Cpu(0) } }",
        ),
        (
            entry(
                Actor::Cpu(cpu),
                Event::Bus {
                    page,
                    why: BusWhy::Mac,
                },
            ),
            "Entry { actor: Cpu(Cpu(0)), event: Bus { page: Page { enclave: 1, number: 2 }, why: Mac } }",
        ),
    ];
    for (entry, expected) in rows {
        let text = format!(in rt.alloc(); "{entry:?}")?;
        are_same(&rt, text.as_str(), expected);
    }
    Ok(())
}
