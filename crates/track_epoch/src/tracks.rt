//! The tracking of all enclaves.

ghost use Rattle.std.specs.Prelude.{◌≡◌, ◌≤◌, length, replicate, Some};
ghost use Rattle.std.specs.Borrow.{sem};
ghost use Rattle.track_epoch.specs.inner.Tracking.{starting_at};
ghost use Rattle.track_epoch.specs.inner.Tracks.{track_of, LendsTrack};

use crate::track::Track;
use sgx_types::names::LAST_EPOCH;
use std::marker::Model;

/// How many enclaves there are at most (this project's own). They are numbered from 1.
pub const ENCLAVES: usize = 8;

/// The tracks of all enclaves. Contracts see them as a list, enclave 1 first.
#[derive(Drop)]
pub struct Tracks {
    each: [Track; ENCLAVES],
}

impl Model for Tracks {
    ghost use Rattle.std.specs.Prelude.{List};
    ghost use Rattle.track_epoch.specs.inner.Tracking.{Tracking};

    ghost Value = { List Tracking };

    ghost view = { λ tracks. tracks.each };
}

impl Tracks {
    /// Eight tracks at an epoch, with no processor inside.
    pub fn new(epoch: u64) -> Tracks
        requires positive { 1 ≤ epoch }
        requires limited { epoch ≤ LAST_EPOCH }
        ensures { result ≡ replicate ENCLAVES (starting_at epoch) }
    {
        Tracks {
            each: std::array::from_fn(|_| Track::new(epoch)),
        }
    }

    /// The track of an enclave.
    pub fn get(&self, enclave: u16) -> &Track
        requires first { 1 ≤ enclave }
        requires last { enclave ≤ ENCLAVES }
        ensures value { track_of self.now enclave ≡ Some result.now }
        ensures count { length self.now ≡ ENCLAVES }
    {
        &self.each[usize::from(enclave) - 1]
    }

    /// The track of an enclave, to be changed.
    pub fn get_mut(&mut self, enclave: u16) -> &mut Track
        requires first { 1 ≤ enclave }
        requires last { enclave ≤ ENCLAVES }
        ensures* writes_back { sem 𝓛 (LendsTrack self.entry enclave result) }
        ensures value { track_of self.old enclave ≡ Some result.now }
    {
        &mut self.each[usize::from(enclave) - 1]
    }
}
