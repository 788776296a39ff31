//! What befell frames since they were blocked.

ghost use Rattle.std.specs.Prelude.{◌≡◌, ◌==◌, [], ℕ, if◌then◌else◌, OnOk};
ghost use Rattle.trace_tally.specs.Tests.{blocked_by, untracked_by};
ghost use Rattle.trace_tally.specs.inner.Blocks.{blocked_in, blocked_after, numbered, BlocksFollow};

use crate::counts::more;
use sgx_rules::entries::{Action, Event};
use sgx_rules::refusals::Refusal;
use sgx_types::names::{Frame, Memory};
use std::alloc::Global;
use std::collections::HashMap;

/// A frame since it was blocked: whether a processor was inside the enclave of its page then, and how often its write-out was refused as
/// not tracked since.
#[derive(Clone, Copy)]
pub(crate) struct Blocked {
    pub entered: bool,
    pub untracked: u64,
}

/// The frames that were blocked, along entries that were pushed one by one.
#[derive(Drop)]
pub(crate) struct Blocks {
    frames: HashMap<u32, Blocked>,
}

impl Blocks {
    /// No entry was pushed.
    pub(crate) fn new(alloc: Global) -> Blocks
        ensures { BlocksFollow result [] }
    {
        Blocks {
            frames: HashMap::new(alloc),
        }
    }

    /// A frame, since it was blocked last.
    pub(crate) fn of(&self, frame: Frame) -> Blocked
        ensures { result ≡ blocked_in self.now frame.0 }
    {
        match self.frames.get(&frame.0) {
            Some(blocked) => *blocked,
            None => Blocked {
                entered: false,
                untracked: 0,
            },
        }
    }

    /// Takes an event more. Where it blocks a frame, it is told whether a processor is inside the enclave of its page.
    pub(crate) fn push(&mut self, event: &Event, is_entered: bool) -> Result<(), Memory>
        ensures { OnOk result ((n : ℕ) → blocked_in self.new n ≡ blocked_after event.now is_entered n (blocked_in self.old n)) }
    {
        if let Some(frame) = blocked_by(event) {
            return self.put(frame, is_entered, 0);
        }
        if let Some(frame) = untracked_by(event) {
            let before = self.of(frame);
            return self.put(frame, before.entered, more(before.untracked)?);
        }
        Ok(())
    }

    fn put(&mut self, frame: Frame, entered: bool, untracked: u64) -> Result<(), Memory>
        ensures { OnOk result ((n : ℕ) → blocked_in self.new n
            ≡ (if frame.0 == n then record { entered = entered; untracked = untracked } else blocked_in self.old n)) }
    {
        self.frames.insert(frame.0, Blocked { entered, untracked })?;
        Ok(())
    }
}

/// The frame that an event blocks.
pub(crate) fn blocked_by(event: &Event) -> Option<Frame>
    ensures { numbered result ≡ blocked_by event.now }
{
    match event {
        Event::Did {
            action: Action::Block { frame },
            ..
        } => Some(*frame),
        _ => None,
    }
}

/// The frame whose write-out an event refuses as not tracked.
pub(crate) fn untracked_by(event: &Event) -> Option<Frame>
    ensures { numbered result ≡ untracked_by event.now }
{
    match event {
        Event::Refused {
            action: Action::EwbStart { frame, .. },
            why: Refusal::NotTracked { .. },
        } => Some(*frame),
        _ => None,
    }
}
