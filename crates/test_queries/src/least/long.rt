//! A million accesses.

ghost use Rattle.std.specs.Prelude.{◌≤◌};

use super::pages::page;
use least_reloads::farthest::plan;
use least_reloads::lawful::check;
use sgx_types::names::{Memory, Page};
use std::alloc::Global;
use std::process::Abort;
use std::test::Fail;

// A million accesses to 100,000 pages.
fn drawn(alloc: Global) -> Result<Vec<Page>, Memory> {
    let mut seed = 1u64;
    let mut accesses = Vec::new(alloc);
    for _ in 0..1_000_000 {
        seed = seed
            .wrapping_mul(6364136223846793005)
            .wrapping_add(1442695040888963407);
        accesses.push(page((seed >> 33) as u32 % 100_000))?;
    }
    Ok(accesses)
}

// The plain program of bench/least makes so many loads.
fn is_planned(rt: &impl Abort, alloc: Global, frames: u32, loads: u64) -> Result<(), Fail>
    requires { 1 ≤ frames }
{
    let accesses = drawn(alloc)?;
    let made = Box::new(alloc, plan(alloc, &accesses, frames)?)?;
    assert_eq!(rt; made.loads, loads);
    assert!(rt; check(alloc, &accesses, frames, &made)?);
    Ok(())
}

#[test]
fn a_million_accesses_in_64_frames(rt: HostRuntime) -> Result<(), Fail> {
    is_planned(&rt, rt.alloc(), 64, 966_718)
}

#[test]
fn a_million_accesses_in_4096_frames(rt: HostRuntime) -> Result<(), Fail> {
    is_planned(&rt, rt.alloc(), 4096, 732_795)
}

#[test]
fn a_million_accesses_in_65536_frames(rt: HostRuntime) -> Result<(), Fail> {
    is_planned(&rt, rt.alloc(), 65_536, 170_838)
}
