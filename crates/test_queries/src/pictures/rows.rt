//! Traces, and the texts of their pictures, line by line. Another program made the texts.

/// The trace of the first job.
pub(super) const FIRST: &[u8] =
    b"trace 2\nb epa 0 0\nb create A 1 0x10000 0x10000\nb add A 0 2 tcs - tcs 1 1\nb add A 1 3 reg rw words 0\n\
    b add A 2 4 reg rw words 7\nb init A - 006d518bbd8825da4a0e7d35d418aaf16b7749c62854a6f40d8d58db415a8c31\n\
    p0 enter A 0 2 3 0\np0 fill 2 4\np0 load 0x2000 7\np0 exit\nend 10\n";

/// Its picture.
pub(super) const FIRST_PICTURE: &[&str] = &[
    "{\"traceEvents\":[",
    "{\"ph\":\"M\",\"pid\":1,\"tid\":0,\"name\":\"process_name\",\"args\":{\"name\":\"processors\"}},",
    "{\"ph\":\"M\",\"pid\":2,\"tid\":0,\"name\":\"process_name\",\"args\":{\"name\":\"frames\"}},",
    "{\"ph\":\"M\",\"pid\":3,\"tid\":0,\"name\":\"process_name\",\"args\":{\"name\":\"pages\"}},",
    "{\"ph\":\"M\",\"pid\":4,\"tid\":0,\"name\":\"process_name\",\"args\":{\"name\":\"driver\"}},",
    "{\"ph\":\"M\",\"pid\":4,\"tid\":1,\"name\":\"thread_name\",\"args\":{\"name\":\"builder\"}},",
    "{\"ph\":\"M\",\"pid\":2,\"tid\":1,\"name\":\"thread_name\",\"args\":{\"name\":\"frame 0\"}},",
    "{\"ph\":\"M\",\"pid\":3,\"tid\":3,\"name\":\"thread_name\",\"args\":{\"name\":\"va 0\"}},",
    "{\"ph\":\"M\",\"pid\":4,\"tid\":0,\"name\":\"thread_name\",\"args\":{\"name\":\"counters\"}},",
    "{\"ph\":\"M\",\"pid\":2,\"tid\":2,\"name\":\"thread_name\",\"args\":{\"name\":\"frame 1\"}},",
    "{\"ph\":\"M\",\"pid\":3,\"tid\":6,\"name\":\"thread_name\",\"args\":{\"name\":\"A secs\"}},",
    "{\"ph\":\"M\",\"pid\":2,\"tid\":3,\"name\":\"thread_name\",\"args\":{\"name\":\"frame 2\"}},",
    "{\"ph\":\"M\",\"pid\":3,\"tid\":8,\"name\":\"thread_name\",\"args\":{\"name\":\"A 0\"}},",
    "{\"ph\":\"M\",\"pid\":2,\"tid\":4,\"name\":\"thread_name\",\"args\":{\"name\":\"frame 3\"}},",
    "{\"ph\":\"M\",\"pid\":3,\"tid\":10,\"name\":\"thread_name\",\"args\":{\"name\":\"A 1\"}},",
    "{\"ph\":\"M\",\"pid\":2,\"tid\":5,\"name\":\"thread_name\",\"args\":{\"name\":\"frame 4\"}},",
    "{\"ph\":\"M\",\"pid\":3,\"tid\":12,\"name\":\"thread_name\",\"args\":{\"name\":\"A 2\"}},",
    "{\"ph\":\"M\",\"pid\":1,\"tid\":1,\"name\":\"thread_name\",\"args\":{\"name\":\"processor 0\"}},",
    "{\"ph\":\"X\",\"pid\":4,\"tid\":1,\"ts\":0,\"dur\":1,\"name\":\"epa\",\"args\":{\"line\":\"b epa 0 0\",\"place\":0}},",
    "{\"ph\":\"B\",\"pid\":2,\"tid\":1,\"ts\":1,\"name\":\"va 0\",\"args\":{\"line\":\"b epa 0 0\",\"place\":0}},",
    "{\"ph\":\"B\",\"pid\":3,\"tid\":3,\"ts\":1,\"name\":\"frame 0\",\"args\":{\"line\":\"b epa 0 0\",\"place\":0}},",
    "{\"ph\":\"C\",\"pid\":4,\"tid\":0,\"ts\":1,\"name\":\"frames in use\",\"args\":{\"n\":1}},",
    "{\"ph\":\"X\",\"pid\":4,\"tid\":1,\"ts\":1,\"dur\":1,\"name\":\"create\",\"args\":{\"line\":\"b create A 1 0x10000 0x10000\",\"place\":1}},",
    "{\"ph\":\"B\",\"pid\":2,\"tid\":2,\"ts\":2,\"name\":\"A secs\",\"args\":{\"line\":\"b create A 1 0x10000 0x10000\",\"place\":1}},",
    "{\"ph\":\"B\",\"pid\":3,\"tid\":6,\"ts\":2,\"name\":\"frame 1\",\"args\":{\"line\":\"b create A 1 0x10000 0x10000\",\"place\":1}},",
    "{\"ph\":\"C\",\"pid\":4,\"tid\":0,\"ts\":2,\"name\":\"frames in use\",\"args\":{\"n\":2}},",
    "{\"ph\":\"X\",\"pid\":4,\"tid\":1,\"ts\":2,\"dur\":1,\"name\":\"add\",\"args\":{\"line\":\"b add A 0 2 tcs - tcs 1 1\",\"place\":2}},",
    "{\"ph\":\"B\",\"pid\":2,\"tid\":3,\"ts\":3,\"name\":\"A 0\",\"args\":{\"line\":\"b add A 0 2 tcs - tcs 1 1\",\"place\":2}},",
    "{\"ph\":\"B\",\"pid\":3,\"tid\":8,\"ts\":3,\"name\":\"frame 2\",\"args\":{\"line\":\"b add A 0 2 tcs - tcs 1 1\",\"place\":2}},",
    "{\"ph\":\"C\",\"pid\":4,\"tid\":0,\"ts\":3,\"name\":\"frames in use\",\"args\":{\"n\":3}},",
    "{\"ph\":\"X\",\"pid\":4,\"tid\":1,\"ts\":3,\"dur\":1,\"name\":\"add\",\"args\":{\"line\":\"b add A 1 3 reg rw words 0\",\"place\":3}},",
    "{\"ph\":\"B\",\"pid\":2,\"tid\":4,\"ts\":4,\"name\":\"A 1\",\"args\":{\"line\":\"b add A 1 3 reg rw words 0\",\"place\":3}},",
    "{\"ph\":\"B\",\"pid\":3,\"tid\":10,\"ts\":4,\"name\":\"frame 3\",\"args\":{\"line\":\"b add A 1 3 reg rw words 0\",\"place\":3}},",
    "{\"ph\":\"C\",\"pid\":4,\"tid\":0,\"ts\":4,\"name\":\"frames in use\",\"args\":{\"n\":4}},",
    "{\"ph\":\"X\",\"pid\":4,\"tid\":1,\"ts\":4,\"dur\":1,\"name\":\"add\",\"args\":{\"line\":\"b add A 2 4 reg rw words 7\",\"place\":4}},",
    "{\"ph\":\"B\",\"pid\":2,\"tid\":5,\"ts\":5,\"name\":\"A 2\",\"args\":{\"line\":\"b add A 2 4 reg rw words 7\",\"place\":4}},",
    "{\"ph\":\"B\",\"pid\":3,\"tid\":12,\"ts\":5,\"name\":\"frame 4\",\"args\":{\"line\":\"b add A 2 4 reg rw words 7\",\"place\":4}},",
    "{\"ph\":\"C\",\"pid\":4,\"tid\":0,\"ts\":5,\"name\":\"frames in use\",\"args\":{\"n\":5}},",
    "{\"ph\":\"X\",\"pid\":4,\"tid\":1,\"ts\":5,\"dur\":1,\"name\":\"init\",\"args\":{\"line\":\"b init A - 006d518bbd8825da4a0e7d35d418aaf16b7749c62854a6f40d8d58db415a8c31\",\"place\":5}},",
    "{\"ph\":\"X\",\"pid\":1,\"tid\":1,\"ts\":6,\"dur\":1,\"name\":\"enter\",\"args\":{\"line\":\"p0 enter A 0 2 3 0\",\"place\":6}},",
    "{\"ph\":\"B\",\"pid\":1,\"tid\":1,\"ts\":7,\"name\":\"in A by tcs 0\",\"args\":{\"line\":\"p0 enter A 0 2 3 0\",\"place\":6}},",
    "{\"ph\":\"X\",\"pid\":1,\"tid\":1,\"ts\":7,\"dur\":1,\"name\":\"fill\",\"args\":{\"line\":\"p0 fill 2 4\",\"place\":7}},",
    "{\"ph\":\"X\",\"pid\":1,\"tid\":1,\"ts\":8,\"dur\":1,\"name\":\"load\",\"args\":{\"line\":\"p0 load 0x2000 7\",\"place\":8}},",
    "{\"ph\":\"X\",\"pid\":1,\"tid\":1,\"ts\":9,\"dur\":1,\"name\":\"exit\",\"args\":{\"line\":\"p0 exit\",\"place\":9}},",
    "{\"ph\":\"E\",\"pid\":1,\"tid\":1,\"ts\":10},",
    "{\"ph\":\"I\",\"pid\":4,\"tid\":1,\"ts\":10,\"s\":\"g\",\"name\":\"end\"}",
    "]}",
];

/// What no machine does: a page in two frames, a frame that is blocked and sealed with nothing in it, a load that fails, and a processor
/// that enters where it is inside.
pub(super) const ODD: &[u8] =
    b"trace 2\nb epa 3 0\nb add A 2 4 reg rw words 7\nb add A 2 1 reg rw words 7\nb block 9\nr ewbstart 9 3 0 5\n\
    r ewb 4 A 2 7 0000000000000000000000000000000000000000000000000000000000000000\np3 eldstart 2 A 2 3 0 7\n\
    p3 refused eld 2 MacFail 0000000000000000000000000000000000000000000000000000000000000000 0000000000000000000000000000000000000000000000000000000000000000\n\
    r ewb 9 A 2 8 0000000000000000000000000000000000000000000000000000000000000000\n\
    r ewb 1 A 2 9 0000000000000000000000000000000000000000000000000000000000000000\nr age A 2 taken\nr kick 3\n\
    p3 bus A 2 get\np3 enter A 0 2 3 0\np3 resume B 1 2 3 5\np3 exit\nb refused exit WrongMode\nend 17\n";

/// Its picture.
pub(super) const ODD_PICTURE: &[&str] = &[
    "{\"traceEvents\":[",
    "{\"ph\":\"M\",\"pid\":1,\"tid\":0,\"name\":\"process_name\",\"args\":{\"name\":\"processors\"}},",
    "{\"ph\":\"M\",\"pid\":2,\"tid\":0,\"name\":\"process_name\",\"args\":{\"name\":\"frames\"}},",
    "{\"ph\":\"M\",\"pid\":3,\"tid\":0,\"name\":\"process_name\",\"args\":{\"name\":\"pages\"}},",
    "{\"ph\":\"M\",\"pid\":4,\"tid\":0,\"name\":\"process_name\",\"args\":{\"name\":\"driver\"}},",
    "{\"ph\":\"M\",\"pid\":4,\"tid\":1,\"name\":\"thread_name\",\"args\":{\"name\":\"builder\"}},",
    "{\"ph\":\"M\",\"pid\":2,\"tid\":4,\"name\":\"thread_name\",\"args\":{\"name\":\"frame 3\"}},",
    "{\"ph\":\"M\",\"pid\":3,\"tid\":3,\"name\":\"thread_name\",\"args\":{\"name\":\"va 0\"}},",
    "{\"ph\":\"M\",\"pid\":4,\"tid\":0,\"name\":\"thread_name\",\"args\":{\"name\":\"counters\"}},",
    "{\"ph\":\"M\",\"pid\":2,\"tid\":5,\"name\":\"thread_name\",\"args\":{\"name\":\"frame 4\"}},",
    "{\"ph\":\"M\",\"pid\":3,\"tid\":6,\"name\":\"thread_name\",\"args\":{\"name\":\"A 2\"}},",
    "{\"ph\":\"M\",\"pid\":2,\"tid\":2,\"name\":\"thread_name\",\"args\":{\"name\":\"frame 1\"}},",
    "{\"ph\":\"M\",\"pid\":2,\"tid\":10,\"name\":\"thread_name\",\"args\":{\"name\":\"frame 9\"}},",
    "{\"ph\":\"M\",\"pid\":4,\"tid\":2,\"name\":\"thread_name\",\"args\":{\"name\":\"reclaimer\"}},",
    "{\"ph\":\"M\",\"pid\":1,\"tid\":4,\"name\":\"thread_name\",\"args\":{\"name\":\"processor 3\"}},",
    "{\"ph\":\"M\",\"pid\":2,\"tid\":3,\"name\":\"thread_name\",\"args\":{\"name\":\"frame 2\"}},",
    "{\"ph\":\"X\",\"pid\":4,\"tid\":1,\"ts\":0,\"dur\":1,\"name\":\"epa\",\"args\":{\"line\":\"b epa 3 0\",\"place\":0}},",
    "{\"ph\":\"B\",\"pid\":2,\"tid\":4,\"ts\":1,\"name\":\"va 0\",\"args\":{\"line\":\"b epa 3 0\",\"place\":0}},",
    "{\"ph\":\"B\",\"pid\":3,\"tid\":3,\"ts\":1,\"name\":\"frame 3\",\"args\":{\"line\":\"b epa 3 0\",\"place\":0}},",
    "{\"ph\":\"C\",\"pid\":4,\"tid\":0,\"ts\":1,\"name\":\"frames in use\",\"args\":{\"n\":1}},",
    "{\"ph\":\"X\",\"pid\":4,\"tid\":1,\"ts\":1,\"dur\":1,\"name\":\"add\",\"args\":{\"line\":\"b add A 2 4 reg rw words 7\",\"place\":1}},",
    "{\"ph\":\"B\",\"pid\":2,\"tid\":5,\"ts\":2,\"name\":\"A 2\",\"args\":{\"line\":\"b add A 2 4 reg rw words 7\",\"place\":1}},",
    "{\"ph\":\"B\",\"pid\":3,\"tid\":6,\"ts\":2,\"name\":\"frame 4\",\"args\":{\"line\":\"b add A 2 4 reg rw words 7\",\"place\":1}},",
    "{\"ph\":\"C\",\"pid\":4,\"tid\":0,\"ts\":2,\"name\":\"frames in use\",\"args\":{\"n\":2}},",
    "{\"ph\":\"X\",\"pid\":4,\"tid\":1,\"ts\":2,\"dur\":1,\"name\":\"add\",\"args\":{\"line\":\"b add A 2 1 reg rw words 7\",\"place\":2}},",
    "{\"ph\":\"B\",\"pid\":2,\"tid\":2,\"ts\":3,\"name\":\"A 2\",\"args\":{\"line\":\"b add A 2 1 reg rw words 7\",\"place\":2}},",
    "{\"ph\":\"E\",\"pid\":3,\"tid\":6,\"ts\":3},",
    "{\"ph\":\"B\",\"pid\":3,\"tid\":6,\"ts\":3,\"name\":\"frame 1\",\"args\":{\"line\":\"b add A 2 1 reg rw words 7\",\"place\":2}},",
    "{\"ph\":\"C\",\"pid\":4,\"tid\":0,\"ts\":3,\"name\":\"frames in use\",\"args\":{\"n\":3}},",
    "{\"ph\":\"X\",\"pid\":4,\"tid\":1,\"ts\":3,\"dur\":1,\"name\":\"block\",\"args\":{\"line\":\"b block 9\",\"place\":3}},",
    "{\"ph\":\"B\",\"pid\":2,\"tid\":10,\"ts\":4,\"name\":\"blocked\",\"args\":{\"line\":\"b block 9\",\"place\":3}},",
    "{\"ph\":\"X\",\"pid\":4,\"tid\":2,\"ts\":4,\"dur\":1,\"name\":\"ewbstart\",\"args\":{\"line\":\"r ewbstart 9 3 0 5\",\"place\":4}},",
    "{\"ph\":\"B\",\"pid\":2,\"tid\":10,\"ts\":5,\"name\":\"sealing\",\"args\":{\"line\":\"r ewbstart 9 3 0 5\",\"place\":4}},",
    "{\"ph\":\"C\",\"pid\":4,\"tid\":0,\"ts\":5,\"name\":\"version\",\"args\":{\"n\":5}},",
    "{\"ph\":\"X\",\"pid\":4,\"tid\":2,\"ts\":5,\"dur\":1,\"name\":\"ewb\",\"args\":{\"line\":\"r ewb 4 A 2 7 0000000000000000000000000000000000000000000000000000000000000000\",\"place\":5}},",
    "{\"ph\":\"E\",\"pid\":2,\"tid\":5,\"ts\":6},",
    "{\"ph\":\"C\",\"pid\":4,\"tid\":0,\"ts\":6,\"name\":\"frames in use\",\"args\":{\"n\":2}},",
    "{\"ph\":\"X\",\"pid\":1,\"tid\":4,\"ts\":6,\"dur\":1,\"name\":\"eldstart\",\"args\":{\"line\":\"p3 eldstart 2 A 2 3 0 7\",\"place\":6}},",
    "{\"ph\":\"B\",\"pid\":2,\"tid\":3,\"ts\":7,\"name\":\"loading A 2\",\"args\":{\"line\":\"p3 eldstart 2 A 2 3 0 7\",\"place\":6}},",
    "{\"ph\":\"C\",\"pid\":4,\"tid\":0,\"ts\":7,\"name\":\"frames in use\",\"args\":{\"n\":3}},",
    "{\"ph\":\"X\",\"pid\":1,\"tid\":4,\"ts\":7,\"dur\":1,\"name\":\"refused eld\",\"args\":{\"line\":\"p3 refused eld 2 MacFail 0000000000000000000000000000000000000000000000000000000000000000 0000000000000000000000000000000000000000000000000000000000000000\",\"place\":7}},",
    "{\"ph\":\"E\",\"pid\":2,\"tid\":3,\"ts\":8},",
    "{\"ph\":\"C\",\"pid\":4,\"tid\":0,\"ts\":8,\"name\":\"frames in use\",\"args\":{\"n\":2}},",
    "{\"ph\":\"X\",\"pid\":4,\"tid\":2,\"ts\":8,\"dur\":1,\"name\":\"ewb\",\"args\":{\"line\":\"r ewb 9 A 2 8 0000000000000000000000000000000000000000000000000000000000000000\",\"place\":8}},",
    "{\"ph\":\"E\",\"pid\":2,\"tid\":10,\"ts\":9},",
    "{\"ph\":\"E\",\"pid\":2,\"tid\":10,\"ts\":9},",
    "{\"ph\":\"X\",\"pid\":4,\"tid\":2,\"ts\":9,\"dur\":1,\"name\":\"ewb\",\"args\":{\"line\":\"r ewb 1 A 2 9 0000000000000000000000000000000000000000000000000000000000000000\",\"place\":9}},",
    "{\"ph\":\"E\",\"pid\":2,\"tid\":2,\"ts\":10},",
    "{\"ph\":\"E\",\"pid\":3,\"tid\":6,\"ts\":10},",
    "{\"ph\":\"B\",\"pid\":3,\"tid\":6,\"ts\":10,\"name\":\"sealed 9\",\"args\":{\"line\":\"r ewb 1 A 2 9 0000000000000000000000000000000000000000000000000000000000000000\",\"place\":9}},",
    "{\"ph\":\"C\",\"pid\":4,\"tid\":0,\"ts\":10,\"name\":\"frames in use\",\"args\":{\"n\":1}},",
    "{\"ph\":\"C\",\"pid\":4,\"tid\":0,\"ts\":10,\"name\":\"pages outside\",\"args\":{\"n\":1}},",
    "{\"ph\":\"X\",\"pid\":4,\"tid\":2,\"ts\":10,\"dur\":1,\"name\":\"age A 2\",\"args\":{\"line\":\"r age A 2 taken\",\"place\":10}},",
    "{\"ph\":\"X\",\"pid\":4,\"tid\":2,\"ts\":11,\"dur\":1,\"name\":\"kick 3\",\"args\":{\"line\":\"r kick 3\",\"place\":11}},",
    "{\"ph\":\"X\",\"pid\":1,\"tid\":4,\"ts\":12,\"dur\":1,\"name\":\"bus A 2\",\"args\":{\"line\":\"p3 bus A 2 get\",\"place\":12}},",
    "{\"ph\":\"X\",\"pid\":1,\"tid\":4,\"ts\":13,\"dur\":1,\"name\":\"enter\",\"args\":{\"line\":\"p3 enter A 0 2 3 0\",\"place\":13}},",
    "{\"ph\":\"B\",\"pid\":1,\"tid\":4,\"ts\":14,\"name\":\"in A by tcs 0\",\"args\":{\"line\":\"p3 enter A 0 2 3 0\",\"place\":13}},",
    "{\"ph\":\"X\",\"pid\":1,\"tid\":4,\"ts\":14,\"dur\":1,\"name\":\"resume\",\"args\":{\"line\":\"p3 resume B 1 2 3 5\",\"place\":14}},",
    "{\"ph\":\"E\",\"pid\":1,\"tid\":4,\"ts\":15},",
    "{\"ph\":\"B\",\"pid\":1,\"tid\":4,\"ts\":15,\"name\":\"in B by tcs 1\",\"args\":{\"line\":\"p3 resume B 1 2 3 5\",\"place\":14}},",
    "{\"ph\":\"X\",\"pid\":1,\"tid\":4,\"ts\":15,\"dur\":1,\"name\":\"exit\",\"args\":{\"line\":\"p3 exit\",\"place\":15}},",
    "{\"ph\":\"E\",\"pid\":1,\"tid\":4,\"ts\":16},",
    "{\"ph\":\"X\",\"pid\":4,\"tid\":1,\"ts\":16,\"dur\":1,\"name\":\"refused exit\",\"args\":{\"line\":\"b refused exit WrongMode\",\"place\":16}},",
    "{\"ph\":\"I\",\"pid\":4,\"tid\":1,\"ts\":17,\"s\":\"g\",\"name\":\"end\"}",
    "]}",
];

/// No entry.
pub(super) const EMPTY: &[u8] = b"trace 2\nend 0\n";

/// Its picture.
pub(super) const EMPTY_PICTURE: &[&str] = &[
    "{\"traceEvents\":[",
    "{\"ph\":\"M\",\"pid\":1,\"tid\":0,\"name\":\"process_name\",\"args\":{\"name\":\"processors\"}},",
    "{\"ph\":\"M\",\"pid\":2,\"tid\":0,\"name\":\"process_name\",\"args\":{\"name\":\"frames\"}},",
    "{\"ph\":\"M\",\"pid\":3,\"tid\":0,\"name\":\"process_name\",\"args\":{\"name\":\"pages\"}},",
    "{\"ph\":\"M\",\"pid\":4,\"tid\":0,\"name\":\"process_name\",\"args\":{\"name\":\"driver\"}},",
    "{\"ph\":\"I\",\"pid\":4,\"tid\":1,\"ts\":0,\"s\":\"g\",\"name\":\"end\"}",
    "]}",
];
