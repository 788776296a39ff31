//! Whether two entries of one instruction end alike.

ghost use Rattle.std.specs.Prelude.{◌≡◌};
ghost use Rattle.audit_machine.specs.inner.Same.{is_bare, same_answer, same_end, same_numbers, same_refusal};

use sgx_rules::entries::{Answer, Event};
use sgx_rules::refusals::{Refusal, code};

/// Whether two events of one instruction end alike: both done with one answer, or both refused for one reason, with its numbers.
pub fn same_end(one: &Event, other: &Event) -> bool
    ensures { result ≡ same_end one.now other.now }
{
    match (*one, *other) {
        (Event::Did { answer, .. }, Event::Did { answer: right, .. }) => same_answer(answer, right),
        (Event::Refused { why, .. }, Event::Refused { why: found, .. }) => same_refusal(why, found),
        _ => false,
    }
}

fn same_answer(one: Answer, other: Answer) -> bool
    ensures { result ≡ same_answer one other }
{
    match (one, other) {
        (Answer::Plain, Answer::Plain) => true,
        (Answer::Cssa(m), Answer::Cssa(n)) => m == n,
        (Answer::Value(m), Answer::Value(n)) => m == n,
        (Answer::Hash(m), Answer::Hash(n)) => m == n,
        (Answer::Version(m), Answer::Version(n)) => m == n,
        (
            Answer::Moved { page, version, tag },
            Answer::Moved {
                page: next,
                version: then,
                tag: other,
            },
        ) => page == next && version == then && tag == other,
        (Answer::Pf(m), Answer::Pf(n)) => m == n,
        (Answer::Va(m), Answer::Va(n)) => m == n,
        _ => false,
    }
}

/// Whether two refusals are one, with their numbers.
pub fn same_refusal(one: Refusal, other: Refusal) -> bool
    ensures { result ≡ same_refusal one other }
{
    if is_bare(one) {
        is_bare(other) && code(&one) == code(&other)
    } else {
        same_numbers(one, other)
    }
}

// Whether a refusal tells nothing besides its name.
fn is_bare(refusal: Refusal) -> bool
    ensures { result ≡ is_bare refusal }
{
    match refusal {
        Refusal::PrevTrk { .. } => false,
        Refusal::NotTracked { .. } => false,
        Refusal::SlotOccupied { .. } => false,
        Refusal::MacFail { .. } => false,
        Refusal::BadHeader { .. } => false,
        Refusal::ChildPresent { .. } => false,
        Refusal::BadMeasure { .. } => false,
        _ => true,
    }
}

fn same_numbers(one: Refusal, other: Refusal) -> bool
    ensures { result ≡ same_numbers one other }
{
    match (one, other) {
        (Refusal::PrevTrk { older: m }, Refusal::PrevTrk { older: n }) => m == n,
        (Refusal::NotTracked { epoch: e, older: m }, Refusal::NotTracked { epoch: f, older: n }) =>
            e == f && m == n,
        (Refusal::SlotOccupied { version: m }, Refusal::SlotOccupied { version: n }) => m == n,
        (
            Refusal::MacFail {
                given: g,
                computed: c,
            },
            Refusal::MacFail {
                given: h,
                computed: d,
            },
        ) => g == h && c == d,
        (
            Refusal::BadHeader {
                enclave: e,
                address: a,
                flags: f,
            },
            Refusal::BadHeader {
                enclave: d,
                address: b,
                flags: g,
            },
        ) => e == d && a == b && f == g,
        (Refusal::ChildPresent { count: m }, Refusal::ChildPresent { count: n }) => m == n,
        (Refusal::BadMeasure { made: m }, Refusal::BadMeasure { made: n }) => m == n,
        _ => false,
    }
}
