//! Jobs whose processors add one to a word at once.

use std::alloc::{AllocError, Global};
use std::fmt::Write;

// An enclave with four processors, in an EPC of 16 frames for 48 pages.
const ENCLAVE: &str =
    "epc 16\nenclave A 0x40000 0x40000\ntcs 0 4 1 plain\ntcs 1 5 1 plain\ntcs 2 6 1 plain\ntcs 3 7 1 plain\n\
    reg 4 4 rw 0 plain\nreg 8 40 rw 0 plain\n";

const LETTERS: &[&str] = &["A", "B", "C", "D", "E", "F", "G", "H"];

/// Four processors add one to a word a hundred times each.
pub fn adds(alloc: Global) -> Result<String, AllocError> {
    let mut text = String::from_str(alloc, ENCLAVE)?;
    for number in 0..4 {
        push_cpu(&mut text, number, "A", number, "xadd 0x8000 1\n", 100)?;
    }
    Ok(text)
}

/// Sixteen processors, two in each of eight enclaves with ten pages, add one to a word of theirs fifty times each, in an EPC of 64 frames.
pub fn crowd(alloc: Global) -> Result<String, AllocError> {
    let mut text = String::from_str(alloc, "epc 64\n")?;
    push_crowd(&mut text)?;
    Ok(text)
}

fn push_crowd(text: &mut String) -> Result<(), AllocError> {
    for letter in LETTERS {
        push_enclave(text, letter)?;
    }
    let mut number = 0u64;
    for letter in LETTERS {
        for tcs in 0..2 {
            push_cpu(text, number, letter, tcs, "xadd 0x4000 1\n", 50)?;
            number = number.wrapping_add(1);
        }
    }
    Ok(())
}

fn push_enclave(text: &mut String, letter: &str) -> Result<(), AllocError> {
    write!(
        text,
        "enclave {letter} 0x10000 0x10000\ntcs 0 2 1 plain\ntcs 1 3 1 plain\nreg 2 8 rw 0 plain\n"
    )
}

// A processor enters an enclave, adds so many times, and leaves.
fn push_cpu(
    text: &mut String,
    number: u64,
    enclave: &str,
    tcs: u64,
    add: &str,
    count: u64,
) -> Result<(), AllocError> {
    write!(text, "cpu {number}\neenter {enclave} {tcs}\n")?;
    for _ in 0..count {
        text.push_str(add)?;
    }
    text.push_str("eexit\n")
}
