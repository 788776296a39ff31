//! Traces that are audited, with their jobs. The reference program made them.

/// A job whose pages do not fit: eight pages of an enclave for seven frames.
pub const RELOAD_JOB: &[u8] = b"epc 7\n\
enclave A 0x10000 0x10000\n\
tcs 0 1 1 plain\n\
reg 1 1 rw 0 plain\n\
reg 2 6 rw 7 plain\n\
cpu 0\n\
eenter A 0\n\
store 0x2000 9\n\
load 0x7000\n\
load 0x2000\n\
eexit\n";

/// A trace of that job up to the end of its first reload.
pub const BEFORE_ELD: &[u8] = b"trace 2\n\
b epa 0 0\n\
b create A 1 0x10000 0x10000\n\
b add A 0 2 tcs - tcs 1 1\n\
b add A 1 3 reg rw words 0\n\
b add A 2 4 reg rw words 7\n\
b add A 3 5 reg rw words 7\n\
b add A 4 6 reg rw words 7\n\
r age A 0 taken\n\
r block 2\n\
r refused ewbstart 2 0 0 NotTracked 1 0\n\
r track A\n\
r ewbstart 2 0 0 1\n\
r ewb 2 A 0 1 708a1f4f66aa575b983e1da6b02b8230e890fb4d346ab6f9dfbe0e029caccf3a\n\
b add A 5 2 reg rw words 7\n\
r age A 1 taken\n\
r block 3\n\
r refused ewbstart 3 0 1 NotTracked 2 0\n\
r track A\n\
r ewbstart 3 0 1 2\n\
r ewb 3 A 1 2 b6771e6b5fb6b2e1b2e9727e6cce063fe54f9a852ddacc0da4984f760de30999\n\
b add A 6 3 reg rw words 7\n\
r age A 2 taken\n\
r block 4\n\
r refused ewbstart 4 0 2 NotTracked 3 0\n\
r track A\n\
r ewbstart 4 0 2 3\n\
r ewb 4 A 2 3 51cbf81d431085457cf336923a4af4f569d6cfc1a14cf28f4f247cd6ac120013\n\
b add A 7 4 reg rw words 7\n\
r age A 3 taken\n\
b init A - fbc4dbd8a3d08faac98b69d98349039a4bfee88bfaed209c44c6d3cddb177098\n\
r block 5\n\
r refused ewbstart 5 0 3 NotTracked 4 0\n\
r track A\n\
r ewbstart 5 0 3 4\n\
r ewb 5 A 3 4 d90a262c695f0849dbc2f158103f0a4b72585b8f601cfae4e33351cf96064ff0\n\
p0 eldstart 5 A 0 0 0 1\n";

/// That entry, at place 36.
pub const ELD: &[u8] =
    b"p0 eld 5 A 0 1 708a1f4f66aa575b983e1da6b02b8230e890fb4d346ab6f9dfbe0e029caccf3a\n";

/// .. with an earlier version.
pub const OLDER_ELD: &[u8] =
    b"p0 eld 5 A 0 0 708a1f4f66aa575b983e1da6b02b8230e890fb4d346ab6f9dfbe0e029caccf3a\n";

/// .. and its line cut.
pub const CUT_ELD: &[u8] = b"p0 eld 5 A 0 1 708a";

/// What stands behind it.
pub const BEHIND_ELD: &[u8] = b"r age A 4 taken\n\
r block 6\n\
r refused ewbstart 6 0 0 NotTracked 5 0\n\
r track A\n\
r ewbstart 6 0 0 5\n\
r ewb 6 A 4 5 cbcd82ec9ca3c655ca156e6d66b1957efd5ff63dfb80a7f06c0104a21bb39c97\n\
p0 eldstart 6 A 1 0 1 2\n\
p0 eld 6 A 1 2 b6771e6b5fb6b2e1b2e9727e6cce063fe54f9a852ddacc0da4984f760de30999\n\
r age A 5 taken\n\
p0 enter A 0 5 6 0\n\
r block 2\n\
p0 aex fault\n\
r refused ewbstart 2 0 1 NotTracked 6 0\n\
r track A\n\
r ewbstart 2 0 1 6\n\
r ewb 2 A 5 6 f1627c4f364103934699f674572ce9fb2d53be3b94cee38fb5f5148fb28b9a57\n\
p0 eldstart 2 A 2 0 2 3\n\
p0 eld 2 A 2 3 51cbf81d431085457cf336923a4af4f569d6cfc1a14cf28f4f247cd6ac120013\n\
r age A 6 taken\n\
p0 resume A 0 5 6 0\n\
r block 3\n\
p0 fill 2 2\n\
r refused ewbstart 3 0 2 NotTracked 7 1\n\
p0 store 0x2000 9\n\
r track A\n\
p0 fill 7 4\n\
r refused ewbstart 3 0 2 NotTracked 8 1\n\
p0 load 0x7000 7\n\
r kick 0\n\
p0 aex kick\n\
r ewbstart 3 0 2 7\n\
r ewb 3 A 6 7 f86e0abbde63ed4819068f7e8fdd3a7f539af0819e0e1cae6ef1beb356d94b3b\n\
p0 resume A 0 5 6 0\n\
r age A 7 young\n\
p0 fill 2 2\n\
r age A 0 held\n\
p0 load 0x2000 9\n\
r age A 1 young\n\
p0 exit\n\
end 76\n";
