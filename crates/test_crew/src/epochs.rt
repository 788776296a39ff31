//! The words of an enclave's epochs, row by row.

ghost use Rattle.std.specs.Prelude.{◌≡◌, ◌≤◌};
ghost use Rattle.epoch_words.specs.inner.Known.{enclaves};

use epoch_words::seen::Seen;
use epoch_words::words::{HardwareSeat, Pass, Words};
use job_grammar::jobs::Job;
use job_text::reader::read_job;
use sgx_types::names::{LAST_EPOCH, PROCESSORS};
use std::alloc::Global;
use std::process::Abort;
use std::test::Fail;
use std::thread::{Threads, join};

const ONE_ENCLAVE: &[u8] =
    b"epc 6\nenclave A 0x10000 0x10000\ntcs 0 1 1 plain\nreg 1 1 rw 0 plain\nreg 2 1 rw 7 plain\ncpu 0\neenter A 0\nload 0x2000\neexit\n";

const TWO_ENCLAVES: &[u8] =
    b"epc 16\nenclave A 0x10000 0x4000\ntcs 0 1 1\nreg 1 1 rw 0\nreg 2 1 rw 7\nenclave B 0x10000 0x4000\n\
    tcs 0 1 1 plain\nreg 1 1 rw 0 plain\nreg 2 1 rw 9 plain\ncpu 0\neenter B 0\nload 0x2000\neexit\n";

#[derive(Clone, Copy, Debug)]
enum Change {
    Entered,
    Left(u64),
    Tracked,
}

use Change::{Entered, Left, Tracked};

#[derive(Clone, Copy, Debug)]
enum Row {
    // The change of an enclave can happen, and does.
    Does(u16, Change),
    // It cannot.
    Cannot(u16, Change),
    // The second pass is split from the first.
    Split,
    // Both passes see an epoch, older and newer processors of an enclave.
    Sees(u16, u64, u16, u16),
}

use Row::{Cannot, Does, Sees, Split};

const ONE_AFTER_ANOTHER: &[Row] = &[
    Does(1, Entered),
    Does(1, Entered),
    Does(1, Tracked),
    Does(1, Left(1)),
    Split,
    Sees(1, 2, 1, 0),
    Does(1, Entered),
    Sees(1, 2, 1, 1),
    Cannot(1, Tracked),
    Does(1, Left(1)),
    Sees(1, 2, 0, 1),
    Does(1, Tracked),
    Sees(1, 3, 1, 0),
    Cannot(1, Left(3)),
    Does(1, Left(2)),
    Sees(1, 3, 0, 0),
];

const ENCLAVES_ARE_APART: &[Row] = &[
    Sees(2, 1, 0, 0),
    Does(2, Entered),
    Does(2, Tracked),
    Does(1, Entered),
    Sees(1, 1, 0, 1),
    Sees(2, 2, 1, 0),
    Cannot(1, Left(2)),
    Does(2, Left(1)),
    Does(1, Left(1)),
    Sees(1, 1, 0, 0),
    Sees(2, 2, 0, 0),
];

// Makes a change where it can happen, and says whether it did.
fn make(seat: &mut HardwareSeat, words: &Words, enclave: u16, change: Change) -> bool
    requires words { seat.old.words ≡ words.now }
    requires first { 1 ≤ enclave }
    requires last { enclave ≤ enclaves words.now }
    ensures { seat.new.words ≡ seat.old.words }
{
    let Seen {
        epoch,
        older,
        newer,
    } = seat.known(enclave);
    match change {
        Entered => {
            let can = u32::from(older + newer) < PROCESSORS;
            if can {
                seat.entered(words, enclave);
            }
            can
        }
        Left(at) => {
            let can = (at == epoch && newer > 0) || (at < epoch && at + 1 == epoch && older > 0);
            if can {
                seat.left(words, enclave, at);
            }
            can
        }
        Tracked => {
            let can = older == 0 && epoch < LAST_EPOCH;
            if can {
                seat.tracked(words, enclave);
            }
            can
        }
    }
}

// The words of a job, with its number of enclaves.
#[derive(Drop)]
struct World {
    words: Words,
    seat: HardwareSeat,
    pass: Pass,
    other: Pass,
    count: usize,
    ghost seat_is_theirs: { seat.words ≡ words },
    ghost pass_is_theirs: { pass.words ≡ words },
    ghost other_is_theirs: { other.words ≡ words },
    ghost counted: { enclaves words ≡ count },
}

impl World {
    fn new(alloc: Global, job: &Job) -> Result<World, Fail> {
        let (words, seat, mut pass) = Words::new(alloc, job)?;
        let other = words.split_pass(&mut pass);
        let count = words.enclaves();
        Ok(World {
            words,
            seat,
            pass,
            other,
            count,
        })
    }

    fn take(&mut self, rt: &impl Abort, row: Row) {
        match row {
            Does(enclave, what) => self.make(rt, enclave, what, true),
            Cannot(enclave, what) => self.make(rt, enclave, what, false),
            Split => self.other = self.words.split_pass(&mut self.pass),
            Sees(enclave, epoch, older, newer) => {
                let seen = Seen {
                    epoch,
                    older,
                    newer,
                };
                self.see(rt, enclave, seen);
            }
        }
    }

    fn make(&mut self, rt: &impl Abort, enclave: u16, what: Change, can: bool) {
        assert!(rt; 1 <= enclave && usize::from(enclave) <= self.count);
        let did = make(&mut self.seat, &self.words, enclave, what);
        assert_eq!(rt; did, can, "{what:?} of enclave {enclave}");
    }

    fn see(&mut self, rt: &impl Abort, enclave: u16, seen: Seen) {
        assert!(rt; 1 <= enclave && usize::from(enclave) <= self.count);
        assert_eq!(rt;
            self.words.observe(&mut self.pass, enclave),
            seen,
            "enclave {enclave}"
        );
        assert_eq!(rt;
            self.words.observe(&mut self.other, enclave),
            seen,
            "enclave {enclave}"
        );
    }
}

#[test]
fn each_row_holds(rt: HostRuntime) -> Result<(), Fail> {
    for (text, rows) in [
        (ONE_ENCLAVE, ONE_AFTER_ANOTHER),
        (TWO_ENCLAVES, ENCLAVES_ARE_APART),
    ] {
        let job = read_job(rt.alloc(), text)?;
        let mut world = World::new(rt.alloc(), &job)?;
        for row in rows {
            world.take(&rt, *row);
        }
    }
    Ok(())
}

const ROUNDS: u64 = 1000;

// Two processors enter enclave 1 at an epoch, it is tracked, and they leave. Says whether each could.
fn round(seat: &mut HardwareSeat, words: &Words, epoch: u64) -> bool
    requires words { seat.old.words ≡ words.now }
    requires some { 1 ≤ enclaves words.now }
    ensures { seat.new.words ≡ seat.old.words }
{
    make(seat, words, 1, Entered)
        && make(seat, words, 1, Entered)
        && make(seat, words, 1, Tracked)
        && make(seat, words, 1, Left(epoch))
        && make(seat, words, 1, Left(epoch))
}

fn write(words: &Words, mut seat: HardwareSeat) -> bool
    requires words { seat.words ≡ words.now }
    requires some { 1 ≤ enclaves words.now }
{
    for epoch in 1..=ROUNDS {
        if !round(&mut seat, words, epoch) {
            return false;
        }
    }
    true
}

// Looks at enclave 1 until the rounds are done, and says whether what it sees never goes back.
fn watch(words: &Words, mut pass: Pass) -> bool
    requires words { pass.words ≡ words.now }
    requires some { 1 ≤ enclaves words.now }
{
    let mut last = words.observe(&mut pass, 1);
    for _ in 0..1_000_000_000u64 {
        let seen = words.observe(&mut pass, 1);
        if seen.epoch < last.epoch || (seen.epoch == last.epoch && seen.older > last.older) {
            return false;
        }
        if seen.epoch > ROUNDS && seen.older == 0 {
            return true;
        }
        last = seen;
    }
    false
}

// A thread looks while another one writes.
fn beside<R: Threads>(rt: &R, words: &Words, seat: HardwareSeat, pass: Pass) -> (bool, bool)
    requires seat { seat.words ≡ words.now }
    requires pass { pass.words ≡ words.now }
    requires some { 1 ≤ enclaves words.now }
{
    join(
        rt,
        || -> bool
            requires { (pass.words ≡ words.now) × (1 ≤ enclaves words.now) }
        { watch(words, pass) },
        || -> bool
            requires { (seat.words ≡ words.now) × (1 ≤ enclaves words.now) }
        { write(words, seat) },
    )
}

#[test]
fn a_pass_is_never_led_back(rt: HostRuntime) -> Result<(), Fail> {
    let job = read_job(rt.alloc(), ONE_ENCLAVE)?;
    let (words, seat, pass) = Words::new(rt.alloc(), &job)?;
    assert!(rt; !job.enclaves().is_empty());
    let (forward, done) = beside(&rt, &words, seat, pass);
    assert!(rt; done, "each step was allowed");
    assert!(rt; forward, "no look went back");
    Ok(())
}
