//! The steps of a builder, one by one.

ghost use Rattle.script_rules.specs.inner.Cursor.{IsCursor};

use job_grammar::jobs::Job;
use job_text::reader::read_job;
use script_rules::cursor::BuildCursor;
use std::process::Abort;
use std::test::Fail;

// Two pages, none of them measured, beside the version array page that their slots take.
const SMALL: &[u8] =
    b"epc 12\nenclave A 0x40000 0x40000\ntcs 0 1 1 plain\nreg 1 1 rw 0 plain\ncpu 0\neenter A 0\neexit\n";

// Makes a step, of which some were left.
fn step(rt: &impl Abort, job: &Job, cursor: &mut BuildCursor)
    requires { IsCursor job.now cursor.old }
    ensures { IsCursor job.now cursor.new }
{
    assert!(rt; !cursor.is_done(job));
    assert!(rt; cursor.next(job).is_some());
}

#[test]
fn a_builder_is_done_behind_its_last_step(rt: HostRuntime) -> Result<(), Fail> {
    let job = Box::new(rt.alloc(), read_job(rt.alloc(), SMALL)?)?;
    let mut cursor = BuildCursor::new(&job);
    // The version array page, the SECS, two pages, and the enclave's end.
    step(&rt, &job, &mut cursor);
    step(&rt, &job, &mut cursor);
    step(&rt, &job, &mut cursor);
    step(&rt, &job, &mut cursor);
    step(&rt, &job, &mut cursor);
    assert!(rt; cursor.is_done(&job));
    assert!(rt; cursor.next(&job).is_none());
    Ok(())
}
