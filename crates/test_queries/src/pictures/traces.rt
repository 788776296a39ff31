//! Traces of jobs: with a write-out that fails, with kicks, and with sixteen processors.

pub(super) const BUS_PUT: &[u8] =
    b"trace 2\nb epa 0 0\nb create A 1 0x10000 0x10000\nb add A 0 2 tcs - tcs 1 1\nb add A 1 3 reg rw words 0\n\
    b add A 2 4 reg rw words 7\nb add A 3 5 reg rw words 7\nb add A 4 6 reg rw words 7\nr age A 0 taken\nr block 2\n\
    r refused ewbstart 2 0 0 NotTracked 1 0\nr track A\nr ewbstart 2 0 0 1\n\
    r ewb 2 A 0 1 708a1f4f66aa575b983e1da6b02b8230e890fb4d346ab6f9dfbe0e029caccf3a\nb add A 5 2 reg rw words 7\n\
    r age A 1 taken\nr block 3\nr refused ewbstart 3 0 1 NotTracked 2 0\nr track A\nr ewbstart 3 0 1 2\n\
    r ewb 3 A 1 2 b6771e6b5fb6b2e1b2e9727e6cce063fe54f9a852ddacc0da4984f760de30999\nb add A 6 3 reg rw words 7\n\
    r age A 2 taken\nr block 4\nr refused ewbstart 4 0 2 NotTracked 3 0\nr track A\nr ewbstart 4 0 2 3\n\
    r ewb 4 A 2 3 51cbf81d431085457cf336923a4af4f569d6cfc1a14cf28f4f247cd6ac120013\nb add A 7 4 reg rw words 7\n\
    r age A 3 taken\nb init A - fbc4dbd8a3d08faac98b69d98349039a4bfee88bfaed209c44c6d3cddb177098\nr block 5\n\
    r refused ewbstart 5 0 3 NotTracked 4 0\nr track A\nr ewbstart 5 0 3 4\n\
    r ewb 5 A 3 4 d90a262c695f0849dbc2f158103f0a4b72585b8f601cfae4e33351cf96064ff0\np0 eldstart 5 A 0 0 0 1\n\
    p0 eld 5 A 0 1 708a1f4f66aa575b983e1da6b02b8230e890fb4d346ab6f9dfbe0e029caccf3a\nr age A 4 taken\nr block 6\n\
    r refused ewbstart 6 0 0 NotTracked 5 0\nr track A\nr ewbstart 6 0 0 5\n\
    r ewb 6 A 4 5 cbcd82ec9ca3c655ca156e6d66b1957efd5ff63dfb80a7f06c0104a21bb39c97\np0 eldstart 6 A 1 0 1 2\n\
    p0 eld 6 A 1 2 b6771e6b5fb6b2e1b2e9727e6cce063fe54f9a852ddacc0da4984f760de30999\nr age A 5 taken\n\
    p0 enter A 0 5 6 0\nr block 2\np0 aex fault\nr refused ewbstart 2 0 1 NotTracked 6 0\np0 bus A 2 put\nend 51\n";

pub(super) const KICK: &[u8] =
    b"trace 2\nb epa 0 0\nb create A 1 0x10000 0x10000\nb add A 0 2 tcs - tcs 1 1\nb add A 1 3 reg rw words 0\n\
    b add A 2 4 reg rw words 7\nb add A 3 5 reg rw words 7\nb add A 4 6 reg rw words 7\nr age A 0 taken\n\
    r age A 1 taken\nr block 2\nr block 3\nr refused ewbstart 2 0 0 NotTracked 1 0\nr track A\nr ewbstart 2 0 0 1\n\
    r ewb 2 A 0 1 708a1f4f66aa575b983e1da6b02b8230e890fb4d346ab6f9dfbe0e029caccf3a\nr ewbstart 3 0 1 2\n\
    r ewb 3 A 1 2 b6771e6b5fb6b2e1b2e9727e6cce063fe54f9a852ddacc0da4984f760de30999\nr age A 2 taken\n\
    r age A 3 taken\nr block 4\nr block 5\nr refused ewbstart 4 0 2 NotTracked 2 0\nr track A\n\
    b add A 5 2 reg rw words 7\nr ewbstart 4 0 2 3\n\
    r ewb 4 A 2 3 51cbf81d431085457cf336923a4af4f569d6cfc1a14cf28f4f247cd6ac120013\nr ewbstart 5 0 3 4\n\
    r ewb 5 A 3 4 d90a262c695f0849dbc2f158103f0a4b72585b8f601cfae4e33351cf96064ff0\nb add A 6 3 reg rw words 7\n\
    b init A - c8c2e8ef28dd84ca47031b90e86c2b6a86ffa5b4a31095e0aef953c9f792dd5f\np0 eldstart 4 A 0 0 0 1\n\
    p0 eld 4 A 0 1 708a1f4f66aa575b983e1da6b02b8230e890fb4d346ab6f9dfbe0e029caccf3a\np0 eldstart 5 A 1 0 1 2\n\
    p0 eld 5 A 1 2 b6771e6b5fb6b2e1b2e9727e6cce063fe54f9a852ddacc0da4984f760de30999\nr age A 4 taken\n\
    p0 enter A 0 4 5 0\np0 aex fault\nr age A 5 taken\nr block 6\nr block 2\n\
    r refused ewbstart 6 0 0 NotTracked 3 0\nr track A\nr ewbstart 6 0 0 5\n\
    r ewb 6 A 4 5 cbcd82ec9ca3c655ca156e6d66b1957efd5ff63dfb80a7f06c0104a21bb39c97\np0 eldstart 6 A 2 0 2 3\n\
    p0 eld 6 A 2 3 51cbf81d431085457cf336923a4af4f569d6cfc1a14cf28f4f247cd6ac120013\np0 resume A 0 4 5 0\n\
    p0 fill 2 6\np0 load 0x2000 7\nr ewbstart 2 0 1 6\n\
    r ewb 2 A 5 6 f1627c4f364103934699f674572ce9fb2d53be3b94cee38fb5f5148fb28b9a57\nr age A 6 taken\n\
    r age A 0 young\np0 aex fault\nr block 3\nr refused ewbstart 3 0 2 NotTracked 4 0\np0 eldstart 2 A 3 0 3 4\n\
    p0 eld 2 A 3 4 d90a262c695f0849dbc2f158103f0a4b72585b8f601cfae4e33351cf96064ff0\np0 resume A 0 4 5 0\n\
    p0 fill 3 2\np0 load 0x3000 7\np0 aex fault\nr track A\nr ewbstart 3 0 2 7\n\
    r ewb 3 A 6 7 f86e0abbde63ed4819068f7e8fdd3a7f539af0819e0e1cae6ef1beb356d94b3b\np0 eldstart 3 A 4 0 0 5\n\
    p0 eld 3 A 4 5 cbcd82ec9ca3c655ca156e6d66b1957efd5ff63dfb80a7f06c0104a21bb39c97\nr age A 1 held\n\
    r age A 2 young\nr age A 0 held\nr age A 3 young\np0 resume A 0 4 5 0\nr age A 4 held\np0 fill 4 3\n\
    p0 load 0x4000 7\np0 aex fault\nr age A 1 young\nr age A 2 taken\nr age A 0 young\nr block 6\n\
    r refused ewbstart 6 0 0 NotTracked 5 0\nr track A\nr ewbstart 6 0 0 8\n\
    r ewb 6 A 2 8 b44468b319caf28aba6e6527b6bae4a64e2e2598232b0e421a9bd294a3317af9\np0 eldstart 6 A 5 0 1 6\n\
    p0 eld 6 A 5 6 f1627c4f364103934699f674572ce9fb2d53be3b94cee38fb5f5148fb28b9a57\nr age A 3 taken\n\
    r age A 4 young\np0 resume A 0 4 5 0\np0 fill 5 6\nr block 2\nr refused ewbstart 2 0 1 NotTracked 6 1\n\
    r track A\nr refused ewbstart 2 0 1 NotTracked 7 1\nr kick 0\np0 aex kick\nr ewbstart 2 0 1 9\n\
    r ewb 2 A 3 9 9f2e5d654d3405eb99b5e300c2133e783b8248082d1adb38553591c6df89479e\np0 resume A 0 4 5 0\n\
    p0 fill 5 6\nr age A 1 held\np0 load 0x5000 7\np0 aex fault\nr age A 0 young\nr age A 5 young\n\
    p0 eldstart 2 A 6 0 2 7\np0 eld 2 A 6 7 f86e0abbde63ed4819068f7e8fdd3a7f539af0819e0e1cae6ef1beb356d94b3b\n\
    r age A 4 taken\nr block 3\np0 resume A 0 4 5 0\nr refused ewbstart 3 0 2 NotTracked 7 1\nr track A\n\
    p0 fill 6 2\nr refused ewbstart 3 0 2 NotTracked 8 1\nr kick 0\np0 aex kick\np0 resume A 0 4 5 0\n\
    r ewbstart 3 0 2 10\nr ewb 3 A 4 10 49d5183c38468bb451acf43530a93bdcac0ef236ba4e969c26ed6b4562d79b4a\n\
    p0 fill 6 2\np0 load 0x6000 7\np0 aex fault\np0 eldstart 3 A 2 0 0 8\n\
    p0 eld 3 A 2 8 b44468b319caf28aba6e6527b6bae4a64e2e2598232b0e421a9bd294a3317af9\nr age A 1 held\n\
    p0 resume A 0 4 5 0\np0 fill 2 3\nr age A 0 held\np0 load 0x2000 7\nr age A 5 taken\np0 exit\nend 131\n";

pub(super) const SIXTEEN: &[u8] =
    b"trace 2\np0 enter A 0 2 3 0\np1 enter A 1 2 3 0\np2 enter A 2 2 3 0\np3 enter A 3 2 3 0\np4 enter A 4 2 3 0\n\
    p5 enter A 5 2 3 0\np6 enter A 6 2 3 0\np7 enter A 7 2 3 0\np8 enter A 8 2 3 0\np9 enter A 9 2 3 0\n\
    p10 enter A 10 2 3 0\np11 enter A 11 2 3 0\np12 enter A 12 2 3 0\np13 enter A 13 2 3 0\np14 enter A 14 2 3 0\n\
    p15 enter A 15 2 3 0\np0 exit\np1 exit\np2 exit\np3 exit\np4 exit\np5 exit\np6 exit\np7 exit\np8 exit\np9 exit\n\
    p10 exit\np11 exit\np12 exit\np13 exit\np14 exit\np15 exit\nend 32\n";
