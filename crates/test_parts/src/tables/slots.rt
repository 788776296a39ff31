//! A million slots that are handed out.

ghost use Rattle.std.specs.Prelude.{◌≡◌};
ghost use Rattle.driver_slots.specs.inner.Keeper.{new_keeper};

use driver_slots::keeper::SlotKeeper;
use sgx_types::names::VaSlot;
use std::process::Abort;
use std::test::Fail;

// No job has more.
const PAGES: u32 = 9;

const TIMES: u32 = 1_000_000;

fn add_each(keeper: &mut SlotKeeper)
    requires { keeper.old ≡ new_keeper 9 }
{
    for number in 0..PAGES {
        keeper.add(number, 0);
    }
}

// Takes so many slots.
fn take_each(rt: &impl Abort, keeper: &mut SlotKeeper, times: u32) {
    for _ in 0..times {
        assert!(rt; keeper.take().is_some());
    }
}

// Takes a slot and gives it back, so many times, and tells the last.
fn renew(rt: &impl Abort, keeper: &mut SlotKeeper, times: u32) -> Option<VaSlot> {
    let mut last = None;
    for _ in 0..times {
        last = keeper.take();
        if let Some(slot) = last {
            keeper.give(slot);
        }
    }
    last
}

// Of 4,608 slots all but one are out, which is taken and given back. A search for it would make more than 10^9 steps.
#[test]
fn a_million_slots_are_handed_out(rt: HostRuntime) -> Result<(), Fail> {
    let mut keeper = SlotKeeper::new(rt.alloc(), PAGES)?;
    add_each(&mut keeper);
    take_each(&rt, &mut keeper, 512 * PAGES - 1);
    assert!(rt; renew(&rt, &mut keeper, TIMES).is_some());
    take_each(&rt, &mut keeper, 1);
    assert!(rt; keeper.take().is_none());
    Ok(())
}
