//! Texts that are too long to be written out.

use super::jobs::FIRST;
use std::alloc::Global;
use std::test::Fail;

// A text that is no change of another.
pub enum Made {
    Bytes(&'static [u8]),
    // So many store lines, with one line more.
    Plans(u32, &'static str),
    // So many processors, with one line more.
    Cpus(u32, &'static str),
    // The frames, an enclave for each letter, and how many REG pages each has.
    Enclaves(u32, &'static str, u32),
    // So many timers.
    Timers(u32),
    // So many bytes.
    Long(usize),
}

// What a row is of, its text, and what it gives.
pub const MADE: &[(&str, Made, &str)] = &[
    ("no byte", Made::Bytes(b""), "1 Missing"),
    ("a line feed", Made::Bytes(b"\n"), "2 Missing"),
    (
        "a line that is not UTF-8",
        Made::Bytes(b"epc 6\n\xff\n"),
        "2 NotUtf8",
    ),
    (
        "a word that is not",
        Made::Bytes(b"epc \xff\n"),
        "1 NotUtf8",
    ),
    (
        "behind an unknown word",
        Made::Bytes(b"epc 6\nnothing \xc3\n"),
        "2 NotUtf8",
    ),
    (
        "in a comment",
        Made::Bytes(b"epc 6\n# \xff\nepc 7\n"),
        "3 Order",
    ),
    ("in a comment alone", Made::Bytes(b"#\xff"), "2 Missing"),
    (
        "a byte order mark",
        Made::Bytes(b"\xef\xbb\xbfepc 6\n"),
        "1 Word",
    ),
    (
        "carriage returns alone",
        Made::Bytes(b"epc 6\r\repc 7"),
        "1 Word",
    ),
    ("64 store lines", Made::Plans(64, ""), "Read"),
    (
        "one more, which is not looked at",
        Made::Plans(64, "store drop A 9 1\n"),
        "70 TooMany",
    ),
    ("16 processors", Made::Cpus(16, "timer"), "Read"),
    ("the next one", Made::Cpus(16, "cpu 16"), "19 Range"),
    ("another one", Made::Cpus(16, "cpu 17"), "19 Order"),
    (
        "64 pages, 4 enclaves and a version array",
        Made::Enclaves(69, "ABCD", 15),
        "Read",
    ),
    (
        "a frame for each page and no more",
        Made::Enclaves(68, "ABCD", 15),
        "Read",
    ),
    (
        "64 pages in eight enclaves",
        Made::Enclaves(73, "ABCDEFGH", 7),
        "Read",
    ),
    (
        "65 pages in five enclaves",
        Made::Enclaves(71, "ABCDE", 12),
        "Read",
    ),
    ("eight enclaves", Made::Enclaves(25, "ABCDEFGH", 1), "Read"),
    (
        "nine enclaves",
        Made::Enclaves(28, "ABCDEFGHI", 1),
        "26 Word",
    ),
    ("100,000 operations", Made::Timers(100_000), "Read"),
    ("one more", Made::Timers(100_001), "100007 TooMany"),
    ("a byte too many", Made::Long((1 << 24) + 1), "0 TooLong"),
    ("the longest text", Made::Long(1 << 24), "1 Word"),
];

// The first job up to a word of it, and behind it.
fn around(word: &'static str) -> Result<(&'static str, &'static str), Fail> {
    Ok(FIRST.split_once(word).ok_or("the word stands in the text")?)
}

fn push_plans(text: &mut String, plans: u32, last: &str) -> Result<(), Fail> {
    let (front, back) = around("cpu 0")?;
    text.push_str(front)?;
    for call in 1..=plans {
        writeln!(text, "store fail put {call}")?;
    }
    writeln!(text, "{last}cpu 0{back}")?;
    Ok(())
}

fn push_cpus(text: &mut String, cpus: u32, last: &str) -> Result<(), Fail> {
    text.push_str("epc 60\nenclave A 0x0 0x2000\n")?;
    for cpu in 0..cpus {
        writeln!(text, "cpu {cpu}")?;
    }
    writeln!(text, "{last}")?;
    Ok(())
}

// Each enclave with a TCS page and so many REG pages.
fn push_enclaves(text: &mut String, epc: u32, letters: &str, regs: u32) -> Result<(), Fail> {
    writeln!(text, "epc {epc}")?;
    for letter in letters.chars() {
        writeln!(text, "enclave {letter} 0x10000 0x10000")?;
        writeln!(text, "tcs 0 1 1\nreg 1 {regs} rw 0")?;
    }
    writeln!(text, "cpu 0\neenter A 0\nload 0x1000\neexit")?;
    Ok(())
}

fn push_timers(text: &mut String, operations: u32) -> Result<(), Fail> {
    let (front, _) = around("eenter")?;
    text.push_str(front)?;
    for _ in 0..operations {
        text.push_str("timer\n")?;
    }
    Ok(())
}

// A text of so many bytes whose first line has three.
fn long(alloc: Global, length: usize) -> Result<Vec<u8>, Fail> {
    let mut bytes = vec![in alloc; b'x'; length]?;
    if let Some(byte) = bytes.get_mut(3) {
        *byte = b'\n';
    }
    Ok(bytes)
}

fn push_made(text: &mut String, made: &Made) -> Result<(), Fail> {
    match made {
        Made::Plans(plans, last) => push_plans(text, *plans, last),
        Made::Cpus(cpus, last) => push_cpus(text, *cpus, last),
        Made::Enclaves(epc, letters, regs) => push_enclaves(text, *epc, letters, *regs),
        Made::Timers(operations) => push_timers(text, *operations),
        Made::Bytes(_) | Made::Long(_) => Ok(()),
    }
}

pub fn bytes_of(alloc: Global, made: &Made) -> Result<Vec<u8>, Fail> {
    match made {
        Made::Bytes(bytes) => Ok(bytes.to_vec(alloc)?),
        Made::Long(length) => long(alloc, *length),
        _ => {
            let mut text = String::new(alloc);
            push_made(&mut text, made)?;
            Ok(text.into_bytes())
        }
    }
}
