//! Jobs that are made from a number and a size.

ghost use Rattle.std.specs.Prelude.{◌≤◌};

use crate::same::are_same;
use hex::ToHex;
use job_make::maker::make_job;
use job_print::printer::print_job;
use sha2::{Digest, Sha256};
use std::alloc::Global;
use std::test::Fail;

// A number, a size, how many bytes the text of their job has, and its SHA-256, as a program in Python makes that text.
const JOBS: &[(u64, u32, usize, &str)] = &[
    (
        1,
        200,
        12616,
        "d9fb3548bf518cc89f63033d3e7a474eb318d2b0e5460e6525b87ce8794502b7",
    ),
    (
        1,
        4,
        521,
        "0500e61472c7197820ad62ca5b56f199ab95bef2e5c3e583e2211b77ec55498a",
    ),
    (
        3,
        7,
        666,
        "5c47518f137c8f92cf4a04e0447b897f3506b3ca71cff489186e06cb51248a88",
    ),
    (
        7,
        16,
        1256,
        "e0cddf0ece751d28204ce86b73b3ccb559da3f2ec743ca9701d6ea0f55e114f2",
    ),
    (
        1,
        2000,
        130993,
        "6c0347b91fb285632652d05d79e03d153baffc50c093540d9ccd283e932842bd",
    ),
    (
        u64::MAX,
        2000,
        131370,
        "948de0cc7f7367d628f0ce57c667212996cd6f426e515db54eb782e771660d1e",
    ),
];

// The text of a made job.
fn text_of(alloc: Global, number: u64, size: u32) -> Result<Vec<u8>, Fail>
    requires least { 4 ≤ size }
    requires most { size ≤ 2000 }
{
    let job = Box::new(alloc, make_job(alloc, number, size)?)?;
    Ok(print_job(alloc, &job)?)
}

#[test]
fn texts_of_made_jobs(rt: HostRuntime) -> Result<(), Fail> {
    for (number, size, bytes, digest) in JOBS {
        assert!(rt; 4 <= *size && *size <= 2000);
        let text = text_of(rt.alloc(), *number, *size)?;
        are_same(&rt, text.len(), *bytes);
        let found = Sha256::digest(text.as_slice()).encode_hex(rt.alloc())?;
        are_same(&rt, found.as_str(), *digest);
    }
    Ok(())
}

// So many bytes do the texts of a hundred jobs of the largest size have, by the same program in Python.
#[test]
fn hundred_large_jobs(rt: HostRuntime) -> Result<(), Fail> {
    let mut bytes: usize = 0;
    for number in 0..100 {
        bytes = bytes.saturating_add(text_of(rt.alloc(), number, 2000)?.len());
    }
    are_same(&rt, bytes, 13_132_821);
    Ok(())
}
