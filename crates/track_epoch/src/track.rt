//! The tracking of one enclave.

ghost use Rattle.std.specs.Prelude.{◌≡◌, ◌==◌, ◌&&◌, ◌+◌, ◌<◌, ◌≤◌, ◌↔◌, if◌then◌else◌, IsTrue};
ghost use Rattle.std.specs.Prelude.{OnOk, OnErr, Contains, length, nat_lt};
ghost use Rattle.std.specs.Prelude.{nat_le};
ghost use Rattle.track_epoch.specs.inner.Tracking.{starting_at, entered, left, tracked, track_answer, number_older, number_newer};
ghost use Rattle.track_epoch.specs.inner.Tracking.{number_up_to};
ghost use Rattle.track_epoch.specs.inner.Tracking.{IsDrained, IsTracking};

use sgx_rules::refusals::Refusal;
use sgx_types::names::{LAST_EPOCH, PROCESSORS};
use std::marker::Model;

/// The tracking of one enclave, which Intel SDM volume 3D leaves to the processor (ETRACK, EWB); this one, by epochs,
/// is this project's own. A processor notes the enclave's epoch when it enters. Each track begins a new epoch, and
/// is refused while a processor inside has an older one: so each noted epoch is the present one or the one before,
/// and two counts are all that has to be kept. Contracts see the epoch and the noted epochs as a rising list.
#[derive(Drop)]
pub struct Track {
    epoch: u64,
    older: u32,
    newer: u32,
}

impl Model for Track {
    ghost use Rattle.track_epoch.specs.inner.Tracking.{Tracking};

    ghost Value = { Tracking };

    ghost use Rattle.track_epoch.specs.inner.Counters.{tracking_of, IsCounters};

    ghost view = { tracking_of };

    ghost invariant = { IsCounters };
}

impl Track {
    /// A track at an epoch, with no processor inside.
    pub fn new(epoch: u64) -> Track
        requires positive { 1 ≤ epoch }
        requires limited { epoch ≤ LAST_EPOCH }
        ensures { result ≡ starting_at epoch }
    {
        Track {
            epoch,
            older: 0,
            newer: 0,
        }
    }

    pub fn epoch(&self) -> u64
        ensures value { result ≡ self.now.epoch }
        ensures tracking { IsTracking self.now }
    {
        self.epoch
    }

    /// How many processors inside have an older epoch than the enclave's.
    pub fn older(&self) -> u32
        ensures { result ≡ number_older self.now }
    {
        self.older
    }

    /// How many processors inside have an epoch at or below that of a block.
    pub fn at_or_below(&self, block: u64) -> u32
        ensures { result ≡ number_up_to self.now block }
    {
        if self.epoch <= block {
            self.older + self.newer
        } else if self.epoch - 1 <= block {
            self.older
        } else {
            0
        }
    }

    /// Whether no processor can hold a translation any more of a page that was blocked at an epoch.
    pub fn drained(&self, block: u64) -> bool
        ensures value { IsTrue result ↔ IsDrained self.now block }
        ensures counted { result ≡ (nat_lt block self.now.epoch && (number_up_to self.now block == 0)) }
    {
        self.epoch > block && self.at_or_below(block) == 0
    }

    /// Counts one processor more inside, and answers the epoch that it notes.
    pub fn enter(&mut self) -> u64
        requires { length self.old.noted < PROCESSORS }
        ensures epoch { result ≡ self.old.epoch }
        ensures entered { self.new ≡ entered self.old }
        ensures older { number_older self.new ≡ number_older self.old }
        ensures newer { number_newer self.new ≡ number_newer self.old + 1 }
        ensures tracking { IsTracking self.new }
    {
        self.newer += 1;
        self.epoch
    }

    /// Counts one processor fewer inside, of those that noted an epoch.
    pub fn leave(&mut self, epoch: u64)
        requires { Contains self.old.noted epoch }
        ensures left { self.new ≡ left self.old epoch }
        ensures older { number_older self.new + (if nat_lt epoch self.old.epoch then 1 else 0) ≡ number_older self.old }
        ensures newer { number_newer self.new + (if nat_le self.old.epoch epoch then 1 else 0) ≡ number_newer self.old }
        ensures tracking { IsTracking self.new }
    {
        if epoch < self.epoch {
            self.older -= 1;
        } else {
            self.newer -= 1;
        }
    }

    /// Begins a new epoch and answers it (ETRACK). It is refused while a processor inside has an older epoch, with
    /// the number of these, and then at the last epoch.
    pub fn track(&mut self) -> Result<u64, Refusal>
        ensures answer { result ≡ track_answer self.old }
        ensures done { OnOk result (self.new ≡ tracked self.old) }
        ensures refused { OnErr result (self.new ≡ self.old) }
        ensures older { OnOk result (number_older self.new ≡ number_newer self.old) }
        ensures newer { OnOk result (number_newer self.new ≡ 0) }
        ensures tracking { IsTracking self.new }
    {
        if self.older != 0 {
            return Err(Refusal::PrevTrk { older: self.older });
        }
        if self.epoch == LAST_EPOCH {
            return Err(Refusal::EpochSpent);
        }
        self.epoch += 1;
        self.older = self.newer;
        self.newer = 0;
        Ok(self.epoch)
    }
}
