//! Canonical texts of jobs.

use crate::same::are_same;
use job_print::printer::print_job;
use job_text::reader::read_job;
use std::alloc::Global;
use std::process::Abort;
use std::test::Fail;

// A job as a user may write it, with every kind of line, and what is printed of it.
const TEXTS: &[(&str, &str)] = &[
    (
        "# a job\nepc 0x28\n\nenclave A 65536 0x10000\n\
        expect 000102030405060708090A0B0C0D0E0F101112131415161718191a1b1c1d1e1f\n tcs 0 1 2\nreg 1\t2 rw 0\n\
        reg 3 1 r 0x7 plain\nenclave B 0x40000 0x8000\ntcs 00 1 1 plain\nreg 1 3 rwx 0\nstore fail room 2\n\
        store fail put 1\nstore fail get 3\nstore drop A 3 1\nstore flip A 3 0 33215\nstore replay B 2 1 2\n\
        store swap A 1 B 1\ncpu 0\neenter A 0\nload 12288\nstore 0x2000 5\nxadd 0x00 1\nset 4\n\
        plus 18446744073709551615\ntimer\neresume A 0\neexit\r\ncpu 1\noutload A 0xFFF8\noutstore B 0x8 1",
        "epc 40\nmarks 10 20 10\nkey 0000000000000000000000000000000000000000000000000000000000000000\nstart 1 1\n\
        enclave A 0x10000 0x10000\ntcs 0 1 2\nreg 1 2 rw 0\nreg 3 1 r 7 plain\n\
        expect 000102030405060708090a0b0c0d0e0f101112131415161718191a1b1c1d1e1f\nenclave B 0x40000 0x8000\n\
        tcs 0 1 1 plain\nreg 1 3 rwx 0\nstore fail room 2\nstore fail put 1\nstore fail get 3\nstore drop A 3 1\n\
        store flip A 3 0 33215\nstore replay B 2 1 2\nstore swap A 1 B 1\ncpu 0\neenter A 0\nload 0x3000\n\
        store 0x2000 5\nxadd 0x0 1\nset 4\nplus 18446744073709551615\ntimer\neresume A 0\neexit\ncpu 1\n\
        outload A 0xfff8\noutstore B 0x8 1\n",
    ),
    (
        "epc 6\nstart 5 9\nkey ffffffffffffffffffffffffffffffffffffffffffffffffffffffffffffffff\nmarks 1 2 3\n\
        enclave A 0x10000 0x10000\nreg 1 1 rw 0 plain\ntcs 0 1 1 plain\ncpu 0\n",
        "epc 6\nmarks 1 2 3\nkey ffffffffffffffffffffffffffffffffffffffffffffffffffffffffffffffff\nstart 5 9\n\
        enclave A 0x10000 0x10000\nreg 1 1 rw 0 plain\ntcs 0 1 1 plain\ncpu 0\n",
    ),
];

// What is printed of the job that a text gives.
fn printed(alloc: Global, text: &str) -> Result<Vec<u8>, Fail> {
    let job = Box::new(alloc, read_job(alloc, text.as_bytes())?)?;
    Ok(print_job(alloc, &job)?)
}

#[test]
fn canonical_texts(rt: HostRuntime) -> Result<(), Fail> {
    for (text, canonical) in TEXTS {
        let first = printed(rt.alloc(), text)?;
        are_same(&rt, first.as_slice(), canonical.as_bytes());
        let again = printed(rt.alloc(), canonical)?;
        are_same(&rt, again.as_slice(), canonical.as_bytes());
    }
    Ok(())
}
