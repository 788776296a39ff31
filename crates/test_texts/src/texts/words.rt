//! Words of the command line, and the commands that they name.

use command_words::command::{Command, command_of};
use command_words::rules::Rules;
use command_words::showing::Showing;
use command_words::telling::Telling;
use sgx_types::names::Memory;
use std::alloc::Global;
use std::test::Fail;

// The words, with a space between two, and the command.
const ROWS: [(&str, Option<Command>); 43] = [
    ("run t", Some(Command::Run)),
    ("run ", None),
    ("Run t", None),
    (
        "make 1 200",
        Some(Command::Make {
            number: 1,
            size: 200,
        }),
    ),
    ("make 1 3", None),
    ("make 1", None),
    (
        "demo 7 2000",
        Some(Command::Demo {
            number: 7,
            size: 2000,
        }),
    ),
    ("demo 7 2001", None),
    ("gate 1", Some(Command::Gate { rounds: 1 })),
    ("gate 1000", Some(Command::Gate { rounds: 1000 })),
    ("gate 100000", Some(Command::Gate { rounds: 100_000 })),
    (
        "gate 00000000000000000007",
        Some(Command::Gate { rounds: 7 }),
    ),
    ("gate 000000000000000000007", None),
    ("gate 0", None),
    ("gate 100001", None),
    ("gate 4294967297", None),
    ("gate 0x10", None),
    ("gate ", None),
    ("gate", None),
    ("gate 1 2", None),
    (
        "least t",
        Some(Command::Tell {
            telling: Telling::Least,
        }),
    ),
    ("least ", None),
    ("least", None),
    ("least t t", None),
    ("leas t", None),
    (
        "audit t",
        Some(Command::Tell {
            telling: Telling::Judge(Rules::All),
        }),
    ),
    (
        "check t",
        Some(Command::Tell {
            telling: Telling::Judge(Rules::Processors),
        }),
    ),
    ("check ", None),
    ("audit ", None),
    ("audit", None),
    ("audit t x", None),
    ("Audit t", None),
    (
        "migrate t",
        Some(Command::Show {
            showing: Showing::Migrated,
        }),
    ),
    ("migrate ", None),
    (
        "picture t",
        Some(Command::Show {
            showing: Showing::Picture,
        }),
    ),
    ("picture ", None),
    ("pictures t", None),
    ("help", Some(Command::Help)),
    ("--help", Some(Command::Help)),
    ("-h", None),
    ("Help", None),
    ("help run", None),
    ("", None),
];

// What stands between the spaces of a text.
fn words(alloc: Global, text: &str) -> Result<Vec<String>, Memory> {
    let mut words = Vec::new(alloc);
    for word in text.split(' ') {
        words.push(word.to_string(alloc)?)?;
    }
    Ok(words)
}

#[test]
fn words_name_commands(rt: HostRuntime) -> Result<(), Fail> {
    for (text, command) in ROWS {
        assert_eq!(rt; command_of(&words(rt.alloc(), text)?), command, "{text}");
    }
    Ok(())
}
