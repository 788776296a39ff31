//! Texts of entries and of traces.

use super::building::{OTHER_PAGES, TEXT, WHOLE};
use super::paging::{PAGING, REFUSED};
use super::rows::Row;
use super::running::PROCESSORS;
use crate::same::are_same;
use std::process::Abort;
use std::str;
use std::test::Fail;
use trace_text::room::LONGEST_LINE;
use trace_text::trace::{print_entry, print_trace};

// The entry of each row has the row's line, and a line feed behind it.
fn are_printed(rt: &impl Abort, rows: &[Row], text: &mut Vec<u8>) -> Result<(), Fail> {
    for row in rows {
        text.clear();
        text.reserve(LONGEST_LINE)?;
        print_entry(&row.entry(), text);
        are_same(rt, text.pop(), Some(b'\n'));
        are_same(rt, str::from_utf8(text)?, row.line());
    }
    Ok(())
}

#[test]
fn an_entry_has_its_line(rt: HostRuntime) -> Result<(), Fail> {
    let mut text = Vec::new(rt.alloc());
    for rows in [WHOLE, PROCESSORS, PAGING, REFUSED, OTHER_PAGES] {
        are_printed(&rt, rows, &mut text)?;
    }
    Ok(())
}

#[test]
fn a_trace_has_a_first_and_a_last_line(rt: HostRuntime) -> Result<(), Fail> {
    let mut entries = Vec::new(rt.alloc());
    for row in WHOLE {
        entries.push(row.entry())?;
    }
    let text = print_trace(rt.alloc(), &entries)?;
    are_same(&rt, str::from_utf8(&text)?, TEXT);
    Ok(())
}
