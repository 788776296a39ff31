//! The list of the pages that may be written out.

use super::world::Ask::{
    AllHeld, Head, IsHeld, IsListed, Len, PushBack, RemoveHead, ToTail, Touch, Young,
};
use super::world::Told::{Count, Done, Is, No, Nothing, Yes};
use super::world::{Ask, Told, World};
use sgx_types::names::Page;
use std::test::Fail;

const A0: Page = Page {
    enclave: 1,
    number: 0,
};

const A1: Page = Page {
    enclave: 1,
    number: 1,
};

const B2: Page = Page {
    enclave: 2,
    number: 2,
};

// A list without pages, with one and with three.
const ROWS: &[(Ask, Told)] = &[
    (Head, Nothing),
    (Len, Count(0)),
    (AllHeld, Yes),
    (Touch(A1), Done),
    (Young(A1), No),
    (PushBack(A1), Done),
    (IsListed(A1), Yes),
    (IsListed(A0), No),
    (Young(A1), No),
    (IsHeld(A1), No),
    (AllHeld, No),
    (Touch(A1), Done),
    (Young(A1), Yes),
    (ToTail, Done),
    (Young(A1), No),
    (Head, Is(A1)),
    (PushBack(B2), Done),
    (PushBack(A0), Done),
    (Len, Count(3)),
    (Touch(A1), Done),
    (Touch(B2), Done),
    (ToTail, Done),
    (Head, Is(B2)),
    (Young(A1), No),
    (Young(B2), Yes),
    (Young(A0), No),
    (RemoveHead, Is(B2)),
    (IsListed(B2), No),
    (Young(B2), No),
    (Touch(B2), Done),
    (Young(B2), No),
    (Head, Is(A0)),
    (PushBack(B2), Done),
    (Young(B2), No),
    (RemoveHead, Is(A0)),
    (RemoveHead, Is(A1)),
    (RemoveHead, Is(B2)),
    (Head, Nothing),
    (Len, Count(0)),
];

#[test]
fn a_list_turns_and_keeps_its_marks(rt: HostRuntime) -> Result<(), Fail> {
    let mut world = World::new(rt.alloc(), 2, 3)?;
    world.play(&rt, ROWS);
    Ok(())
}
