//! Texts of jobs, and what reading them gives.

mod enclaves;
mod grammar;
mod jobs;
mod made;
mod operations;
mod texts;
mod told;

use enclaves::{EXPECTING, TWO};
use grammar::WHOLE;
use jobs::FIRST;
use made::{MADE, Made, bytes_of};
use std::alloc::Global;
use std::process::Abort;
use std::test::Fail;
use texts::{read_row, read_text, row_in};
use told::{JOBS, Told};

// Each text with the rows of what is replaced in it.
const TABLES: &[(&str, &str)] = &[
    (WHOLE, grammar::SPELLINGS),
    (WHOLE, grammar::WORDS),
    (WHOLE, grammar::NUMBERS),
    (WHOLE, grammar::ORDERS),
    (WHOLE, grammar::REPEATS),
    (WHOLE, grammar::RANGES),
    (WHOLE, grammar::MISSING),
    (FIRST, grammar::FIRST_CHANGES),
    (FIRST, jobs::ACCEPTED),
    (FIRST, jobs::CHANGES),
    (FIRST, operations::ACCEPTED),
    (FIRST, operations::REFUSED),
    (TWO, enclaves::PARTS),
    (EXPECTING, enclaves::REFUSED),
];

#[test]
fn tables(rt: HostRuntime) -> Result<(), Fail> {
    for (text, rows) in TABLES {
        for row in rows.split(';') {
            read_row(&rt, rt.alloc(), text, &row_in(row)?, &Told::Anything)?;
        }
    }
    Ok(())
}

#[test]
fn texts_that_are_made(rt: HostRuntime) -> Result<(), Fail> {
    for (what, text, want) in MADE {
        read_made(&rt, rt.alloc(), text, what, want)?;
    }
    Ok(())
}

fn read_made(
    rt: &impl Abort,
    alloc: Global,
    text: &Made,
    what: &str,
    want: &str,
) -> Result<(), Fail> {
    let bytes = bytes_of(alloc, text)?;
    read_text(rt, alloc, &bytes, what, want)
}

#[test]
fn jobs_that_are_read(rt: HostRuntime) -> Result<(), Fail> {
    for (text, row, told) in JOBS {
        read_row(&rt, rt.alloc(), text, row, told)?;
    }
    Ok(())
}
