//! Pictures of old traces.

use crate::calls::{compare, given_with};
use crate::least_tests::OLD;
use crate::run_tests::{JOB, TRACE};
use crate::same::are_same;
use page_commands::status::Status;
use std::alloc::{Alloc, Global};
use std::process::Abort;
use std::sync::Wait;
use std::test::Fail;
use std::thread::Threads;

/// The picture of the trace of the job. Another program made it.
const PICTURE: &str = r#"{"traceEvents":[
{"ph":"M","pid":1,"tid":0,"name":"process_name","args":{"name":"processors"}},
{"ph":"M","pid":2,"tid":0,"name":"process_name","args":{"name":"frames"}},
{"ph":"M","pid":3,"tid":0,"name":"process_name","args":{"name":"pages"}},
{"ph":"M","pid":4,"tid":0,"name":"process_name","args":{"name":"driver"}},
{"ph":"M","pid":4,"tid":1,"name":"thread_name","args":{"name":"builder"}},
{"ph":"M","pid":2,"tid":1,"name":"thread_name","args":{"name":"frame 0"}},
{"ph":"M","pid":3,"tid":3,"name":"thread_name","args":{"name":"va 0"}},
{"ph":"M","pid":4,"tid":0,"name":"thread_name","args":{"name":"counters"}},
{"ph":"M","pid":2,"tid":2,"name":"thread_name","args":{"name":"frame 1"}},
{"ph":"M","pid":3,"tid":6,"name":"thread_name","args":{"name":"A secs"}},
{"ph":"M","pid":2,"tid":3,"name":"thread_name","args":{"name":"frame 2"}},
{"ph":"M","pid":3,"tid":8,"name":"thread_name","args":{"name":"A 0"}},
{"ph":"M","pid":2,"tid":4,"name":"thread_name","args":{"name":"frame 3"}},
{"ph":"M","pid":3,"tid":10,"name":"thread_name","args":{"name":"A 1"}},
{"ph":"M","pid":2,"tid":5,"name":"thread_name","args":{"name":"frame 4"}},
{"ph":"M","pid":3,"tid":12,"name":"thread_name","args":{"name":"A 2"}},
{"ph":"M","pid":1,"tid":1,"name":"thread_name","args":{"name":"processor 0"}},
{"ph":"X","pid":4,"tid":1,"ts":0,"dur":1,"name":"epa","args":{"line":"b epa 0 0","place":0}},
{"ph":"B","pid":2,"tid":1,"ts":1,"name":"va 0","args":{"line":"b epa 0 0","place":0}},
{"ph":"B","pid":3,"tid":3,"ts":1,"name":"frame 0","args":{"line":"b epa 0 0","place":0}},
{"ph":"C","pid":4,"tid":0,"ts":1,"name":"frames in use","args":{"n":1}},
{"ph":"X","pid":4,"tid":1,"ts":1,"dur":1,"name":"create","args":{"line":"b create A 1 0x10000 0x10000","place":1}},
{"ph":"B","pid":2,"tid":2,"ts":2,"name":"A secs","args":{"line":"b create A 1 0x10000 0x10000","place":1}},
{"ph":"B","pid":3,"tid":6,"ts":2,"name":"frame 1","args":{"line":"b create A 1 0x10000 0x10000","place":1}},
{"ph":"C","pid":4,"tid":0,"ts":2,"name":"frames in use","args":{"n":2}},
{"ph":"X","pid":4,"tid":1,"ts":2,"dur":1,"name":"add","args":{"line":"b add A 0 2 tcs - tcs 1 1","place":2}},
{"ph":"B","pid":2,"tid":3,"ts":3,"name":"A 0","args":{"line":"b add A 0 2 tcs - tcs 1 1","place":2}},
{"ph":"B","pid":3,"tid":8,"ts":3,"name":"frame 2","args":{"line":"b add A 0 2 tcs - tcs 1 1","place":2}},
{"ph":"C","pid":4,"tid":0,"ts":3,"name":"frames in use","args":{"n":3}},
{"ph":"X","pid":4,"tid":1,"ts":3,"dur":1,"name":"add","args":{"line":"b add A 1 3 reg rw words 0","place":3}},
{"ph":"B","pid":2,"tid":4,"ts":4,"name":"A 1","args":{"line":"b add A 1 3 reg rw words 0","place":3}},
{"ph":"B","pid":3,"tid":10,"ts":4,"name":"frame 3","args":{"line":"b add A 1 3 reg rw words 0","place":3}},
{"ph":"C","pid":4,"tid":0,"ts":4,"name":"frames in use","args":{"n":4}},
{"ph":"X","pid":4,"tid":1,"ts":4,"dur":1,"name":"add","args":{"line":"b add A 2 4 reg rw words 7","place":4}},
{"ph":"B","pid":2,"tid":5,"ts":5,"name":"A 2","args":{"line":"b add A 2 4 reg rw words 7","place":4}},
{"ph":"B","pid":3,"tid":12,"ts":5,"name":"frame 4","args":{"line":"b add A 2 4 reg rw words 7","place":4}},
{"ph":"C","pid":4,"tid":0,"ts":5,"name":"frames in use","args":{"n":5}},
{"ph":"X","pid":4,"tid":1,"ts":5,"dur":1,"name":"init","args":{"line":"b init A - 006d518bbd8825da4a0e7d35d418aaf16b7749c62854a6f40d8d58db415a8c31","place":5}},
{"ph":"X","pid":1,"tid":1,"ts":6,"dur":1,"name":"enter","args":{"line":"p0 enter A 0 2 3 0","place":6}},
{"ph":"B","pid":1,"tid":1,"ts":7,"name":"in A by tcs 0","args":{"line":"p0 enter A 0 2 3 0","place":6}},
{"ph":"X","pid":1,"tid":1,"ts":7,"dur":1,"name":"fill","args":{"line":"p0 fill 2 4","place":7}},
{"ph":"X","pid":1,"tid":1,"ts":8,"dur":1,"name":"load","args":{"line":"p0 load 0x2000 7","place":8}},
{"ph":"X","pid":1,"tid":1,"ts":9,"dur":1,"name":"exit","args":{"line":"p0 exit","place":9}},
{"ph":"E","pid":1,"tid":1,"ts":10},
{"ph":"I","pid":4,"tid":1,"ts":10,"s":"g","name":"end"}
]}
"#;

// Old traces, their calls and those of the output that fail, how the command ends, and what is told.
const ROWS: &[(&[u8], &[u64], &[u64], Status, &str)] = &[
    (TRACE, &[], &[], Status::Done, PICTURE),
    (OLD, &[], &[], Status::BadTrace, "trace line 1\n"),
    (
        b"trace 2\np0 exit\n",
        &[],
        &[],
        Status::BadTrace,
        "trace line 3\n",
    ),
    (TRACE, &[1], &[], Status::ReadFault, ""),
    (TRACE, &[9], &[], Status::ReadFault, ""),
    (TRACE, &[], &[1], Status::WriteFault, ""),
    (TRACE, &[], &[3], Status::WriteFault, "{\"traceEvents\""),
    (OLD, &[], &[2], Status::WriteFault, "trace l"),
];

// No job is read: its first call would fail, and so would that of the trace that a run gives.
fn pictures(
    rt: &(impl Abort + Alloc<A = Global> + Threads + Wait + Sync),
    old: &[u8],
    fails: [&[u64]; 2],
    status: Status,
    told: &str,
) -> Result<(), Fail> {
    let fails: [&[u64]; 4] = [&[1], fails[0], fails[1], &[1]];
    let given = given_with(rt, rt.alloc(), &["picture", "t"], [JOB, old], 7, fails)?;
    compare(rt, &given, status, told.as_bytes());
    are_same(rt, (given.left, given.trace.len()), (JOB.len(), 0));
    Ok(())
}

#[test]
fn an_old_trace_gives_its_picture(rt: HostRuntime) -> Result<(), Fail> {
    for (old, read, given, status, told) in ROWS {
        pictures(&rt, old, [read, given], *status, told)?;
    }
    Ok(())
}
