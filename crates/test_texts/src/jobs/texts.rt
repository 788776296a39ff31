//! How a row's text is put together from another.

use super::told::{Told, tells};
use job_text::reader::read_job;
use job_text::refusals::JobRefusal;
use std::alloc::{AllocError, Global};
use std::process::Abort;
use std::test::Fail;

// What a row is of, a part of a text, what stands in its place, and what the changed text gives: `Read`, or its first faulty line and what
// is wrong there.
pub type Row<'a> = (&'a str, &'a str, &'a str, &'a str);

// The first part of a row, and what stands behind it.
fn cut(text: &str) -> Result<(&str, &str), Fail> {
    Ok(text.split_once('|').ok_or("a row has four parts")?)
}

// The row of a table's text, whose rows end in `;` and whose parts end in `|`.
pub fn row_in(text: &str) -> Result<Row<'_>, Fail> {
    let (what, rest) = cut(text)?;
    let (old, rest) = cut(rest)?;
    let (new, want) = cut(rest)?;
    Ok((what, old, new, want))
}

// How a text is spelled: the line before it, the byte before each line feed, and how many lines it has more.
struct Way {
    how: &'static str,
    comment: &'static str,
    has_returns: bool,
    lines: u32,
}

const AS_IT_IS: Way = Way {
    how: "as it is",
    comment: "",
    has_returns: false,
    lines: 0,
};

const WITH_RETURNS: Way = Way {
    how: "with carriage returns",
    comment: "",
    has_returns: true,
    lines: 0,
};

const BEHIND_A_COMMENT: Way = Way {
    how: "behind a comment",
    comment: "# a comment\n",
    has_returns: false,
    lines: 1,
};

const WAYS: &[Way] = &[AS_IT_IS, WITH_RETURNS, BEHIND_A_COMMENT];

fn push_part(bytes: &mut Vec<u8>, part: &str, has_returns: bool) -> Result<(), AllocError> {
    for byte in part.as_bytes() {
        if has_returns && *byte == b'\n' {
            bytes.push(b'\r')?;
        }
        bytes.push(*byte)?;
    }
    Ok(())
}

// A job's text with one part of it replaced.
fn push_replaced(bytes: &mut Vec<u8>, text: &str, row: &Row, way: &Way) -> Result<(), Fail> {
    let (_, old, new, _) = row;
    let (front, back) = text.split_once(*old).ok_or("the part stands in the text")?;
    push_part(bytes, way.comment, way.has_returns)?;
    push_part(bytes, front, way.has_returns)?;
    push_part(bytes, new, way.has_returns)?;
    push_part(bytes, back, way.has_returns)?;
    Ok(())
}

fn replaced(alloc: Global, text: &str, row: &Row, way: &Way) -> Result<Vec<u8>, Fail> {
    let mut bytes = Vec::new(alloc);
    push_replaced(&mut bytes, text, row, way)?;
    Ok(bytes)
}

// Why a text is no job. A job that is read tells what it is to.
fn refused(rt: &impl Abort, alloc: Global, text: &[u8], told: &Told) -> Option<JobRefusal> {
    match read_job(alloc, text) {
        Ok(job) => {
            tells(rt, &job, told);
            None
        }
        Err(refusal) => Some(refusal),
    }
}

// What a text gives, by its lines without those that the way has more.
fn spelled(alloc: Global, refused: Option<JobRefusal>, way: &Way) -> Result<String, Fail> {
    match refused {
        None => Ok("Read".to_string(alloc)?),
        Some(JobRefusal::Fault { line, kind }) => Ok(format!(in alloc;
            "{} {kind:?}",
            line.saturating_sub(way.lines)
        )?),
        Some(JobRefusal::Memory) => Err("there was no memory".into()),
    }
}

// Reads a text: what it gives, and what the job tells.
fn reads(
    rt: &impl Abort,
    alloc: Global,
    text: &[u8],
    way: &Way,
    told: &Told,
    what: &str,
    want: &str,
) -> Result<(), Fail> {
    let given = spelled(alloc, refused(rt, alloc, text, told), way)?;
    assert_eq!(rt; given.as_str(), want, "{what}, {}", way.how);
    Ok(())
}

// Reads a text as it is.
pub fn read_text(
    rt: &impl Abort,
    alloc: Global,
    text: &[u8],
    what: &str,
    want: &str,
) -> Result<(), Fail> {
    reads(rt, alloc, text, &AS_IT_IS, &Told::Anything, what, want)
}

// Reads a text with a part replaced, in one of the ways.
fn read_in_a_way(
    rt: &impl Abort,
    alloc: Global,
    text: &str,
    row: &Row,
    told: &Told,
    way: &Way,
) -> Result<(), Fail> {
    let bytes = replaced(alloc, text, row, way)?;
    reads(rt, alloc, &bytes, way, told, row.0, row.3)
}

// .. as it is, with carriage returns, and behind a comment line.
pub fn read_row(
    rt: &impl Abort,
    alloc: Global,
    text: &str,
    row: &Row,
    told: &Told,
) -> Result<(), Fail> {
    for way in WAYS {
        read_in_a_way(rt, alloc, text, row, told, way)?;
    }
    Ok(())
}
