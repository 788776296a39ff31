//! The text of a picture.

use super::rows::{EMPTY, EMPTY_PICTURE, FIRST, FIRST_PICTURE, ODD, ODD_PICTURE};
use picture_text::picture::print_picture;
use std::alloc::Global;
use std::test::Fail;
use trace_reader::reader::read_trace;

const ROWS: [(&[u8], &[&str]); 3] = [
    (FIRST, FIRST_PICTURE),
    (ODD, ODD_PICTURE),
    (EMPTY, EMPTY_PICTURE),
];

fn text_of(alloc: Global, lines: &[&str]) -> Result<Vec<u8>, Fail> {
    let mut text = Vec::new(alloc);
    for line in lines {
        text.extend_from_slice(line.as_bytes())?;
        text.push(b'\n')?;
    }
    Ok(text)
}

#[test]
fn a_picture_has_this_text(rt: HostRuntime) -> Result<(), Fail> {
    let alloc = rt.alloc();
    for (trace, lines) in ROWS {
        let entries = read_trace(alloc, trace)?;
        let text = print_picture(alloc, &entries)?;
        assert_eq!(rt; text, text_of(alloc, lines)?);
    }
    Ok(())
}
