//! Worked jobs, with the output and the trace of each. The reference program computed the digests, over the blocks.

use crate::calls::{Call, RUNS};

/// The runs of all but the longest.
pub const WORKED: &[Call] = &[
    TIMER,
    SAVED_STATE,
    FAULTS,
    FROM_OUTSIDE,
    OTHER_DIGEST,
    MEASURED_APART,
];

/// Two interrupts fill the two state save pages, so that a third entry is refused; resumptions take the newest
/// first.
const SAVED_STATE: Call = Call {
    job: b"epc 8\nenclave A 0x10000 0x10000\ntcs 0 1 2\nreg 1 2 rw 0\ncpu 0\neenter A 0\nset 11\ntimer\neenter A 0\nplus 1\ntimer\neenter A 0\neresume A 0\neexit\neresume A 0\neexit\neresume A 0\n",
    out: b"A init\ncpu 0\ncssa 0\nok\ntimer\ncssa 1\n2\ntimer\ngp NoFrame\nacc 2\nexit\nacc 11\nexit\ngp NoSaved\n",
    trace: b"trace 2\nb epa 0 0\nb create A 1 0x10000 0x10000\nb add A 0 2 tcs - tcs 1 2\nb extend 2 0\nb extend 2 1\nb extend 2 2\nb extend 2 3\nb extend 2 4\nb extend 2 5\nb extend 2 6\nb extend 2 7\nb extend 2 8\nb extend 2 9\nb extend 2 10\nb extend 2 11\nb extend 2 12\nb extend 2 13\nb extend 2 14\nb extend 2 15\nb add A 1 3 reg rw words 0\nb extend 3 0\nb extend 3 1\nb extend 3 2\nb extend 3 3\nb extend 3 4\nb extend 3 5\nb extend 3 6\nb extend 3 7\nb extend 3 8\nb extend 3 9\nb extend 3 10\nb extend 3 11\nb extend 3 12\nb extend 3 13\nb extend 3 14\nb extend 3 15\nb add A 2 4 reg rw words 0\nb extend 4 0\nb extend 4 1\nb extend 4 2\nb extend 4 3\nb extend 4 4\nb extend 4 5\nb extend 4 6\nb extend 4 7\nb extend 4 8\nb extend 4 9\nb extend 4 10\nb extend 4 11\nb extend 4 12\nb extend 4 13\nb extend 4 14\nb extend 4 15\nb init A - 5e706437a19f89b22d016424ba587d8020098001a9b52ca2e831ec6849da4a16\np0 enter A 0 2 3 0\np0 set 11\np0 aex timer\np0 enter A 0 2 4 1\np0 plus 1 2\np0 aex timer\np0 refused enter A 0 2 2 NoFrame\np0 resume A 0 2 4 2\np0 exit\np0 resume A 0 2 3 11\np0 exit\np0 refused resume A 0 2 2 NoSaved\nend 66\n",
    ..RUNS
};

/// Accesses that cannot succeed, outside and by what their pages are, between those that can.
const FAULTS: Call = Call {
    job: b"epc 8\nenclave A 0x10000 0x10000\ntcs 0 1 1 plain\nreg 1 1 rw 0 plain\nreg 2 1 rw 7 plain\nreg 3 1 r 5 plain\ncpu 0\nload 0x2000\neenter A 0\nstore 0x3000 1\nload 0x3000\nload 0x4000\nload 0x0\nload 0x2000\neexit\n",
    out: b"A init\ncpu 0\nmode\ncssa 0\npf perm\n5\npf absent\npf type\n7\nexit\n",
    trace: b"trace 2\nb epa 0 0\nb create A 1 0x10000 0x10000\nb add A 0 2 tcs - tcs 1 1\nb add A 1 3 reg rw words 0\nb add A 2 4 reg rw words 7\nb add A 3 5 reg r words 5\nb init A - fcd4a10eaf351013b13a402137eccbaf6c41fb17c2aebbe06b27e14760bf32a4\np0 refused load 0x2000 WrongMode\np0 enter A 0 2 3 0\np0 pf store 0x3000 perm\np0 fill 3 5\np0 load 0x3000 5\np0 pf load 0x4000 absent\np0 pf load 0x0 type\np0 fill 2 4\np0 load 0x2000 7\np0 exit\nend 17\n",
    ..RUNS
};

/// The enclave has another measurement than the expected one, so nobody gets in.
const OTHER_DIGEST: Call = Call {
    job: b"epc 6\nenclave A 0x10000 0x10000\ntcs 0 1 1 plain\nreg 1 1 rw 0 plain\nreg 2 1 rw 7 plain\nexpect 0000000000000000000000000000000000000000000000000000000000000000\ncpu 0\neenter A 0\nload 0x2000\neexit\n",
    out: b"A badmeasure\ncpu 0\ngp NotInit\nmode\nmode\n",
    trace: b"trace 2\nb epa 0 0\nb create A 1 0x10000 0x10000\nb add A 0 2 tcs - tcs 1 1\nb add A 1 3 reg rw words 0\nb add A 2 4 reg rw words 7\nb refused init A 0000000000000000000000000000000000000000000000000000000000000000 BadMeasure 006d518bbd8825da4a0e7d35d418aaf16b7749c62854a6f40d8d58db415a8c31\np0 refused enter A 0 0 0 NotInit\np0 refused load 0x2000 WrongMode\np0 refused exit WrongMode\nend 9\n",
    ..RUNS
};

/// Nothing is read or written from outside; the processor is inside at the end, and leaves.
const FROM_OUTSIDE: Call = Call {
    job: b"epc 6\nenclave A 0x10000 0x10000\ntcs 0 1 1 plain\nreg 1 1 rw 0 plain\nreg 2 1 rw 7 plain\ncpu 0\noutload A 0x2000\noutstore A 0x2000 5\neenter A 0\nxadd 0x2000 5\nload 0x2000\noutload A 0x2000\n",
    out: b"A init\ncpu 0\n18446744073709551615\ndropped\ncssa 0\n7\n12\nmode\n",
    trace: b"trace 2\nb epa 0 0\nb create A 1 0x10000 0x10000\nb add A 0 2 tcs - tcs 1 1\nb add A 1 3 reg rw words 0\nb add A 2 4 reg rw words 7\nb init A - 006d518bbd8825da4a0e7d35d418aaf16b7749c62854a6f40d8d58db415a8c31\np0 outload A 0x2000 18446744073709551615\np0 outstore A 0x2000 5\np0 enter A 0 2 3 0\np0 fill 2 4\np0 xadd 0x2000 5 7\np0 load 0x2000 12\np0 refused outload A 0x2000 WrongMode\np0 aex end\nend 14\n",
    ..RUNS
};

/// An interrupt saves the accumulator and drops the translations; the resumption gives the accumulator back. It is
/// `jobs/timer.job`.
const TIMER: Call = Call {
    job: b"epc 6\nenclave A 0x10000 0x10000\ntcs 0 1 1 plain\nreg 1 1 rw 0 plain\nreg 2 1 rw 7 plain\ncpu 0\neenter A 0\nset 5\nstore 0x2000 8\ntimer\neresume A 0\nplus 1\nload 0x2000\neexit\n",
    out: b"A init\ncpu 0\ncssa 0\nok\nok\ntimer\nacc 5\n6\n8\nexit\n",
    trace: b"trace 2\nb epa 0 0\nb create A 1 0x10000 0x10000\nb add A 0 2 tcs - tcs 1 1\nb add A 1 3 reg rw words 0\nb add A 2 4 reg rw words 7\nb init A - 006d518bbd8825da4a0e7d35d418aaf16b7749c62854a6f40d8d58db415a8c31\np0 enter A 0 2 3 0\np0 set 5\np0 fill 2 4\np0 store 0x2000 8\np0 aex timer\np0 resume A 0 2 3 5\np0 plus 1 6\np0 fill 2 4\np0 load 0x2000 8\np0 exit\nend 16\n",
    ..RUNS
};

/// Loads from one page more than a processor keeps translations, then from the page whose translation it lost, and
/// from the last again: 66 fills for 67 loads.
pub const MANY_PAGES: Call = Call {
    job: b"epc 96\nenclave A 0x80000 0x80000\ntcs 0 1 1 plain\nreg 1 1 rw 0 plain\nreg 2 66 rw 3 plain\ncpu 0\neenter A 0\nload 0x2000\nload 0x3000\nload 0x4000\nload 0x5000\nload 0x6000\nload 0x7000\nload 0x8000\nload 0x9000\nload 0xa000\nload 0xb000\nload 0xc000\nload 0xd000\nload 0xe000\nload 0xf000\nload 0x10000\nload 0x11000\nload 0x12000\nload 0x13000\nload 0x14000\nload 0x15000\nload 0x16000\nload 0x17000\nload 0x18000\nload 0x19000\nload 0x1a000\nload 0x1b000\nload 0x1c000\nload 0x1d000\nload 0x1e000\nload 0x1f000\nload 0x20000\nload 0x21000\nload 0x22000\nload 0x23000\nload 0x24000\nload 0x25000\nload 0x26000\nload 0x27000\nload 0x28000\nload 0x29000\nload 0x2a000\nload 0x2b000\nload 0x2c000\nload 0x2d000\nload 0x2e000\nload 0x2f000\nload 0x30000\nload 0x31000\nload 0x32000\nload 0x33000\nload 0x34000\nload 0x35000\nload 0x36000\nload 0x37000\nload 0x38000\nload 0x39000\nload 0x3a000\nload 0x3b000\nload 0x3c000\nload 0x3d000\nload 0x3e000\nload 0x3f000\nload 0x40000\nload 0x41000\nload 0x42000\nload 0x2000\nload 0x42000\neexit\n",
    out: b"A init\ncpu 0\ncssa 0\n3\n3\n3\n3\n3\n3\n3\n3\n3\n3\n3\n3\n3\n3\n3\n3\n3\n3\n3\n3\n3\n3\n3\n3\n3\n3\n3\n3\n3\n3\n3\n3\n3\n3\n3\n3\n3\n3\n3\n3\n3\n3\n3\n3\n3\n3\n3\n3\n3\n3\n3\n3\n3\n3\n3\n3\n3\n3\n3\n3\n3\n3\n3\n3\n3\n3\n3\nexit\n",
    trace: b"trace 2\nb epa 0 0\nb create A 1 0x80000 0x80000\nb add A 0 2 tcs - tcs 1 1\nb add A 1 3 reg rw words 0\nb add A 2 4 reg rw words 3\nb add A 3 5 reg rw words 3\nb add A 4 6 reg rw words 3\nb add A 5 7 reg rw words 3\nb add A 6 8 reg rw words 3\nb add A 7 9 reg rw words 3\nb add A 8 10 reg rw words 3\nb add A 9 11 reg rw words 3\nb add A 10 12 reg rw words 3\nb add A 11 13 reg rw words 3\nb add A 12 14 reg rw words 3\nb add A 13 15 reg rw words 3\nb add A 14 16 reg rw words 3\nb add A 15 17 reg rw words 3\nb add A 16 18 reg rw words 3\nb add A 17 19 reg rw words 3\nb add A 18 20 reg rw words 3\nb add A 19 21 reg rw words 3\nb add A 20 22 reg rw words 3\nb add A 21 23 reg rw words 3\nb add A 22 24 reg rw words 3\nb add A 23 25 reg rw words 3\nb add A 24 26 reg rw words 3\nb add A 25 27 reg rw words 3\nb add A 26 28 reg rw words 3\nb add A 27 29 reg rw words 3\nb add A 28 30 reg rw words 3\nb add A 29 31 reg rw words 3\nb add A 30 32 reg rw words 3\nb add A 31 33 reg rw words 3\nb add A 32 34 reg rw words 3\nb add A 33 35 reg rw words 3\nb add A 34 36 reg rw words 3\nb add A 35 37 reg rw words 3\nb add A 36 38 reg rw words 3\nb add A 37 39 reg rw words 3\nb add A 38 40 reg rw words 3\nb add A 39 41 reg rw words 3\nb add A 40 42 reg rw words 3\nb add A 41 43 reg rw words 3\nb add A 42 44 reg rw words 3\nb add A 43 45 reg rw words 3\nb add A 44 46 reg rw words 3\nb add A 45 47 reg rw words 3\nb add A 46 48 reg rw words 3\nb add A 47 49 reg rw words 3\nb add A 48 50 reg rw words 3\nb add A 49 51 reg rw words 3\nb add A 50 52 reg rw words 3\nb add A 51 53 reg rw words 3\nb add A 52 54 reg rw words 3\nb add A 53 55 reg rw words 3\nb add A 54 56 reg rw words 3\nb add A 55 57 reg rw words 3\nb add A 56 58 reg rw words 3\nb add A 57 59 reg rw words 3\nb add A 58 60 reg rw words 3\nb add A 59 61 reg rw words 3\nb add A 60 62 reg rw words 3\nb add A 61 63 reg rw words 3\nb add A 62 64 reg rw words 3\nb add A 63 65 reg rw words 3\nb add A 64 66 reg rw words 3\nb add A 65 67 reg rw words 3\nb add A 66 68 reg rw words 3\nb add A 67 69 reg rw words 3\nb init A - ce6c50a0e30b9fa8fdbd0e3b11ae7559842fb2a04df62bfe295ff62355ebea6c\np0 enter A 0 2 3 0\np0 fill 2 4\np0 load 0x2000 3\np0 fill 3 5\np0 load 0x3000 3\np0 fill 4 6\np0 load 0x4000 3\np0 fill 5 7\np0 load 0x5000 3\np0 fill 6 8\np0 load 0x6000 3\np0 fill 7 9\np0 load 0x7000 3\np0 fill 8 10\np0 load 0x8000 3\np0 fill 9 11\np0 load 0x9000 3\np0 fill 10 12\np0 load 0xa000 3\np0 fill 11 13\np0 load 0xb000 3\np0 fill 12 14\np0 load 0xc000 3\np0 fill 13 15\np0 load 0xd000 3\np0 fill 14 16\np0 load 0xe000 3\np0 fill 15 17\np0 load 0xf000 3\np0 fill 16 18\np0 load 0x10000 3\np0 fill 17 19\np0 load 0x11000 3\np0 fill 18 20\np0 load 0x12000 3\np0 fill 19 21\np0 load 0x13000 3\np0 fill 20 22\np0 load 0x14000 3\np0 fill 21 23\np0 load 0x15000 3\np0 fill 22 24\np0 load 0x16000 3\np0 fill 23 25\np0 load 0x17000 3\np0 fill 24 26\np0 load 0x18000 3\np0 fill 25 27\np0 load 0x19000 3\np0 fill 26 28\np0 load 0x1a000 3\np0 fill 27 29\np0 load 0x1b000 3\np0 fill 28 30\np0 load 0x1c000 3\np0 fill 29 31\np0 load 0x1d000 3\np0 fill 30 32\np0 load 0x1e000 3\np0 fill 31 33\np0 load 0x1f000 3\np0 fill 32 34\np0 load 0x20000 3\np0 fill 33 35\np0 load 0x21000 3\np0 fill 34 36\np0 load 0x22000 3\np0 fill 35 37\np0 load 0x23000 3\np0 fill 36 38\np0 load 0x24000 3\np0 fill 37 39\np0 load 0x25000 3\np0 fill 38 40\np0 load 0x26000 3\np0 fill 39 41\np0 load 0x27000 3\np0 fill 40 42\np0 load 0x28000 3\np0 fill 41 43\np0 load 0x29000 3\np0 fill 42 44\np0 load 0x2a000 3\np0 fill 43 45\np0 load 0x2b000 3\np0 fill 44 46\np0 load 0x2c000 3\np0 fill 45 47\np0 load 0x2d000 3\np0 fill 46 48\np0 load 0x2e000 3\np0 fill 47 49\np0 load 0x2f000 3\np0 fill 48 50\np0 load 0x30000 3\np0 fill 49 51\np0 load 0x31000 3\np0 fill 50 52\np0 load 0x32000 3\np0 fill 51 53\np0 load 0x33000 3\np0 fill 52 54\np0 load 0x34000 3\np0 fill 53 55\np0 load 0x35000 3\np0 fill 54 56\np0 load 0x36000 3\np0 fill 55 57\np0 load 0x37000 3\np0 fill 56 58\np0 load 0x38000 3\np0 fill 57 59\np0 load 0x39000 3\np0 fill 58 60\np0 load 0x3a000 3\np0 fill 59 61\np0 load 0x3b000 3\np0 fill 60 62\np0 load 0x3c000 3\np0 fill 61 63\np0 load 0x3d000 3\np0 fill 62 64\np0 load 0x3e000 3\np0 fill 63 65\np0 load 0x3f000 3\np0 fill 64 66\np0 load 0x40000 3\np0 fill 65 67\np0 load 0x41000 3\np0 fill 66 68\np0 load 0x42000 3\np0 fill 2 4\np0 load 0x2000 3\np0 load 0x42000 3\np0 exit\nend 206\n",
    ..RUNS
};

/// Two enclaves at the same base, the first measured and the second plain.
const MEASURED_APART: Call = Call {
    job: b"epc 16\nenclave A 0x10000 0x4000\ntcs 0 1 1\nreg 1 1 rw 0\nreg 2 1 rw 7\nenclave B 0x10000 0x4000\ntcs 0 1 1 plain\nreg 1 1 rw 0 plain\nreg 2 1 rw 9 plain\ncpu 0\neenter B 0\nload 0x2000\neexit\n",
    out: b"A init\nB init\ncpu 0\ncssa 0\n9\nexit\n",
    trace: b"trace 2\nb epa 0 0\nb create A 1 0x10000 0x4000\nb add A 0 2 tcs - tcs 1 1\nb extend 2 0\nb extend 2 1\nb extend 2 2\nb extend 2 3\nb extend 2 4\nb extend 2 5\nb extend 2 6\nb extend 2 7\nb extend 2 8\nb extend 2 9\nb extend 2 10\nb extend 2 11\nb extend 2 12\nb extend 2 13\nb extend 2 14\nb extend 2 15\nb add A 1 3 reg rw words 0\nb extend 3 0\nb extend 3 1\nb extend 3 2\nb extend 3 3\nb extend 3 4\nb extend 3 5\nb extend 3 6\nb extend 3 7\nb extend 3 8\nb extend 3 9\nb extend 3 10\nb extend 3 11\nb extend 3 12\nb extend 3 13\nb extend 3 14\nb extend 3 15\nb add A 2 4 reg rw words 7\nb extend 4 0\nb extend 4 1\nb extend 4 2\nb extend 4 3\nb extend 4 4\nb extend 4 5\nb extend 4 6\nb extend 4 7\nb extend 4 8\nb extend 4 9\nb extend 4 10\nb extend 4 11\nb extend 4 12\nb extend 4 13\nb extend 4 14\nb extend 4 15\nb init A - 4cc1a8261c56659b2834a4a4c0ca6c2629b84d5b3452cdf42b5f0121bf5999fe\nb create B 5 0x10000 0x4000\nb add B 0 6 tcs - tcs 1 1\nb add B 1 7 reg rw words 0\nb add B 2 8 reg rw words 9\nb init B - e0b9deefd6933652fbe9ac93734f2622628268a7cfd6a42ad52e32789b2f2329\np0 enter B 0 6 7 0\np0 fill 2 8\np0 load 0x2000 9\np0 exit\nend 63\n",
    ..RUNS
};
