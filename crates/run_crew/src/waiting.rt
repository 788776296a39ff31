//! How a worker waits that had nothing to do.

ghost use Rattle.std.specs.Prelude.{◌≡◌, ◌≤◌};

use epoch_words::words::{Pass, Words};
use std::sync::Wait;
use std::sync::atomic::{AtomicBool, AtomicU64, Ordering};
use std::thread;
use std::time::Duration;

// How often a worker that waits looks, at most.
const LOOKS: u32 = 64;

// After how many turns with nothing to do, one after another, a worker sleeps between two turns. So it takes neither a processor nor the
// lock from those who work.
const AWAKE: u32 = 7;

// The shortest sleep, in microseconds. Each further one is twice as long.
const NAP: u64 = 50;

// How often the sleep may double.
const LONGER: u32 = 4;

// Who waits for processors to leave an enclave looks at its word so often at most.
const WORD_LOOKS: u32 = 1000;

/// How many turns made something. A worker that was answered that it has to wait looks at it in place of the lock, so that those who have
/// something to do find the lock free.
#[derive(Drop)]
pub(crate) struct Made {
    turns: AtomicU64,
    /// How many workers ended.
    ended: AtomicU64,
    given_up: AtomicBool,
}

impl Made {
    pub(crate) fn new() -> Made {
        Made {
            turns: AtomicU64::new(0),
            ended: AtomicU64::new(0),
            given_up: AtomicBool::new(false),
        }
    }

    /// Some worker has no thread, so nobody is to wait for it.
    pub(crate) fn give_up(&self) {
        self.given_up.store(true, Ordering::SeqCst);
    }

    pub(crate) fn is_given_up(&self) -> bool {
        self.given_up.load(Ordering::SeqCst)
    }

    /// A turn made something.
    pub(crate) fn note(&self) {
        self.turns.fetch_add(1, Ordering::SeqCst);
    }

    /// A worker ended, so those who sleep are to see what is left to them.
    pub(crate) fn end(&self) {
        self.ended.fetch_add(1, Ordering::SeqCst);
        self.ended.wake_all();
    }

    /// How many turns made something.
    pub(crate) fn turns(&self) -> u64 {
        self.turns.load(Ordering::SeqCst)
    }

    /// Waits after so many turns in vain one after another: the longer the more there were, and a short while at most.
    pub(crate) fn wait<R: Wait>(&self, rt: &R, vain: u32) {
        if vain > AWAKE {
            self.nap(rt, vain - AWAKE);
        } else {
            self.look(vain);
        }
    }

    // Looks until others made some turns.
    fn look(&self, vain: u32)
        requires { vain ≤ 7 }
    {
        let first = self.turns();
        let wanted = 1u64 << vain;
        for _ in 0..LOOKS {
            if self.turns().wrapping_sub(first) >= wanted {
                return;
            }
            thread::yield_now();
        }
    }

    /// Sleeps until the time is over or a worker ends, the longer the more often it slept before.
    pub(crate) fn nap<R: Wait>(&self, rt: &R, times: u32) {
        let ended = self.ended.load(Ordering::SeqCst);
        let nap = Duration::from_micros(NAP << times.min(LONGER));
        self.ended.park_timeout(rt, (ended % (1 << 32)) as u32, nap);
    }
}

/// Looks at the word of an enclave until no processor is inside since before its last track, and a short while at most. It takes no lock. A
/// number that no enclave has is not looked at.
pub(crate) fn watch(words: &Words, pass: &mut Pass, enclave: u16)
    requires { pass.old.words ≡ words.now }
    ensures { pass.new.words ≡ pass.old.words }
{
    if enclave == 0 || usize::from(enclave) > words.enclaves() {
        return;
    }
    for _ in 0..WORD_LOOKS {
        if words.observe(pass, enclave).older == 0 {
            return;
        }
        thread::yield_now();
    }
}
