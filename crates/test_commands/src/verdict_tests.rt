//! The lines of verdicts.

use crate::same::are_same;
use history_rules::rules::Rule;
use page_commands::verdicts::Verdict::{self, No};
use page_commands::verdicts::print_verdict;
use std::test::Fail;

// Verdicts, and the line on each.
const ROWS: [(Verdict, &[u8]); 13] = [
    (Verdict::Yes, b"yes\n"),
    (
        No {
            place: 0,
            rule: Rule::Script,
        },
        b"no 0 Script\n",
    ),
    (
        No {
            place: 9,
            rule: Rule::Script,
        },
        b"no 9 Script\n",
    ),
    (
        No {
            place: 10,
            rule: Rule::Refusal,
        },
        b"no 10 Refusal\n",
    ),
    (
        No {
            place: 73,
            rule: Rule::Flat,
        },
        b"no 73 Flat\n",
    ),
    (
        No {
            place: 1,
            rule: Rule::Fits,
        },
        b"no 1 Fits\n",
    ),
    (
        No {
            place: 2,
            rule: Rule::Stale,
        },
        b"no 2 Stale\n",
    ),
    (
        No {
            place: 42,
            rule: Rule::Evict,
        },
        b"no 42 Evict\n",
    ),
    (
        No {
            place: 36,
            rule: Rule::Fresh,
        },
        b"no 36 Fresh\n",
    ),
    (
        No {
            place: 1_000_000,
            rule: Rule::Sealed,
        },
        b"no 1000000 Sealed\n",
    ),
    (
        No {
            place: 29,
            rule: Rule::Measure,
        },
        b"no 29 Measure\n",
    ),
    (
        No {
            place: 28,
            rule: Rule::Age,
        },
        b"no 28 Age\n",
    ),
    (
        No {
            place: 18_446_744_073_709_551_615,
            rule: Rule::Kick,
        },
        b"no 18446744073709551615 Kick\n",
    ),
];

#[test]
fn a_verdict_is_one_line(rt: HostRuntime) -> Result<(), Fail> {
    for (verdict, text) in ROWS {
        are_same(&rt, print_verdict(rt.alloc(), verdict)?.as_slice(), text);
    }
    Ok(())
}
