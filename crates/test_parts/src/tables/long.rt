//! Lists that turn a million times.

use super::world::Ask::{Head, PushBack, RemoveHead, ToTail, Young};
use super::world::Told::{Is, Yes};
use super::world::World;
use sgx_types::names::Page;
use std::process::Abort;
use std::test::Fail;

const TIMES: u32 = 1_000_000;

// Lists each page of an enclave.
fn list_each(rt: &impl Abort, world: &mut World, enclave: u16, pages: u32) {
    for number in 0..pages {
        let _ = world.told(rt, PushBack(Page { enclave, number }));
    }
}

// Looks at the head and moves it to the tail, so many times.
fn look(rt: &impl Abort, world: &mut World, times: u32) {
    for _ in 0..times {
        if let Is(page) = world.told(rt, Head) {
            assert!(rt; world.told(rt, Young(page)) != Yes);
        }
        let _ = world.told(rt, ToTail);
    }
}

// Removes the head and appends it, so many times.
fn renew(rt: &impl Abort, world: &mut World, times: u32) {
    for _ in 0..times {
        if let Is(page) = world.told(rt, RemoveHead) {
            let _ = world.told(rt, PushBack(page));
        }
    }
}

// Lists so many pages of each of two enclaves, and looks and renews a million times each. Then the heads are these.
fn turn(rt: &impl Abort, world: &mut World, pages: u32, looked: Page, renewed: Page) {
    list_each(rt, world, 1, pages);
    list_each(rt, world, 2, pages);
    look(rt, world, TIMES);
    assert_eq!(rt; world.told(rt, Head), Is(looked));
    renew(rt, world, TIMES);
    assert_eq!(rt; world.told(rt, Head), Is(renewed));
}

const A0: Page = Page {
    enclave: 1,
    number: 0,
};

const A1152: Page = Page {
    enclave: 1,
    number: 1152,
};

const B576: Page = Page {
    enclave: 2,
    number: 576,
};

#[test]
fn a_list_of_32_pages_turns_a_million_times(rt: HostRuntime) -> Result<(), Fail> {
    let mut world = World::new(rt.alloc(), 16, 16)?;
    turn(&rt, &mut world, 16, A0, A0);
    Ok(())
}

// Calls that went along the list would make more than 10^10 steps.
#[test]
fn a_list_of_32768_pages_turns_a_million_times(rt: HostRuntime) -> Result<(), Fail> {
    let mut world = World::new(rt.alloc(), 16_384, 16_384)?;
    turn(&rt, &mut world, 16_384, B576, A1152);
    Ok(())
}
