//! Of each frame whether what is in it was blocked, and whether it is on its way out.

ghost use Rattle.std.specs.Prelude.{◌≡◌, ◌==◌, ℕ, false, true, OnOk};
ghost use Rattle.sgx_types.specs.declared.names.Frame.{Frame};
ghost use Rattle.picture_text.specs.Events.{frame_in, frame_touched};
ghost use Rattle.picture_text.specs.inner.Following.{is_on, leaving_in, leaving_after, staying};

use sgx_rules::entries::{Action, Answer, Event};
use sgx_types::names::{Frame, Memory};
use std::alloc::Global;
use std::collections::HashMap;

/// How far what is in a frame is on its way out.
#[derive(Clone, Copy)]
pub(crate) struct Leaving {
    pub blocked: bool,
    pub sealing: bool,
}

/// The frame that an event is on.
pub(crate) fn frame_in(event: &Event) -> Option<Frame>
    ensures { result ≡ frame_in event.now }
{
    match event {
        Event::Did { action, .. } => frame_of(action),
        Event::Refused {
            action: Action::Eld { frame },
            ..
        } => Some(*frame),
        _ => None,
    }
}

fn frame_of(action: &Action) -> Option<Frame>
    ensures { result ≡ frame_touched action.now }
{
    match *action {
        Action::Epa { frame } => Some(frame),
        Action::Create { frame, .. } => Some(frame),
        Action::Add { frame, .. } => Some(frame),
        Action::Block { frame } => Some(frame),
        Action::EwbStart { frame, .. } => Some(frame),
        Action::Ewb { frame } => Some(frame),
        Action::EldStart { frame, .. } => Some(frame),
        Action::Eld { frame } => Some(frame),
        _ => None,
    }
}

// How far what is in the frame of an event is on its way out from now on.
fn leaving_after(event: &Event, before: Leaving) -> Leaving
    ensures { (n : ℕ) → is_on (frame_in event.now) n ≡ true → result ≡ leaving_after event.now n before }
{
    match event {
        Event::Did { action, answer } => done_after(action, answer, before),
        _ => put(before),
    }
}

// .. and of an instruction that was done.
fn done_after(action: &Action, answer: &Answer, before: Leaving) -> Leaving
    ensures { (n : ℕ) → is_on (frame_touched action.now) n ≡ true → result ≡ leaving_after (Event.Did action.now answer.now) n before }
{
    match action {
        Action::Block { .. } => Leaving {
            blocked: true,
            sealing: before.sealing,
        },
        Action::EwbStart { .. } => Leaving {
            blocked: before.blocked,
            sealing: true,
        },
        Action::Ewb { .. } => Leaving {
            blocked: false,
            sealing: false,
        },
        Action::Eld { .. } => loaded_after(answer, before),
        _ => put(before),
    }
}

fn loaded_after(answer: &Answer, before: Leaving) -> Leaving
    ensures { (f : Frame) (n : ℕ) → (f.0 == n) ≡ true → result ≡ leaving_after (Event.Did (Action.Eld f) answer.now) n before }
{
    match answer {
        Answer::Moved { .. } => put(before),
        _ => before,
    }
}

// Something else is in the frame, or nothing.
fn put(before: Leaving) -> Leaving
    ensures { result ≡ record { blocked = false; sealing = before.sealing } }
{
    Leaving {
        blocked: false,
        sealing: before.sealing,
    }
}

/// How far what is in each frame is on its way out.
#[derive(Drop)]
pub(crate) struct Leavings {
    frames: HashMap<u32, Leaving>,
}

impl Leavings {
    /// Nothing is blocked, and nothing is on its way out.
    pub(crate) fn new(alloc: Global) -> Leavings
        ensures { (n : ℕ) → leaving_in result n ≡ staying }
    {
        Leavings {
            frames: HashMap::new(alloc),
        }
    }

    /// How far what is in a frame is on its way out.
    pub(crate) fn of(&self, frame: Frame) -> Leaving
        ensures { result ≡ leaving_in self.now frame.0 }
    {
        match self.frames.get(&frame.0) {
            Some(leaving) => *leaving,
            None => Leaving {
                blocked: false,
                sealing: false,
            },
        }
    }

    /// Takes an event more.
    pub(crate) fn push(&mut self, event: &Event) -> Result<(), Memory>
        ensures { OnOk result ((n : ℕ) → leaving_in self.new n ≡ leaving_after event.now n (leaving_in self.old n)) }
    {
        if let Some(frame) = frame_in(event) {
            let leaving = leaving_after(event, self.of(frame));
            self.frames.insert(frame.0, leaving)?;
        }
        Ok(())
    }
}
