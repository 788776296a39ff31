//! The rule that the words and the seats of a gate keep, and the kinds of step.

use crate::view::View;
use atomic_table::{Play, Split, TableRule};

/// The rule of a gate. The key is the number of its frames.
pub struct GateRule;

impl TableRule<(), View, u32> for GateRule {
    ghost use Rattle.frame_gate.specs.inner.Views.{first_view};
    ghost use Rattle.frame_gate.specs.inner.Rule.{AreFramesKept};

    ghost holds = { AreFramesKept };

    ghost first = { first_view };
}

/// A processor enters, as by the machine's `enter` and `resume`: one atomic addition to word 0.
pub struct Enter;

impl Play<(), View> for Enter {
    ghost use Rattle.frame_gate.specs.inner.Rule.{Enters};

    ghost then = { Enters };
}

/// A processor leaves, as by `exit` and `aex`: one atomic addition to the leave word of its epoch.
pub struct Leave;

impl Play<(), View> for Leave {
    ghost use Rattle.frame_gate.specs.inner.Rule.{Leaves};

    ghost then = { Leaves };
}

/// A processor takes a translation, as by `fill`: one load of the frame's word.
pub struct Fill;

impl Play<(), View> for Fill {
    ghost use Rattle.frame_gate.specs.inner.Rule.{Fills};

    ghost then = { Fills };
}

/// A processor uses a translation, as each access inside does: one load of the frame's word.
pub struct Touch;

impl Play<(), View> for Touch {
    ghost use Rattle.frame_gate.specs.inner.Rule.{Touches};

    ghost then = { Touches };
}

/// The pager asks whether the epoch before is empty, as `ewbstart` does: one load of its leave word.
pub struct Settle;

impl Play<(), View> for Settle {
    ghost use Rattle.frame_gate.specs.inner.Rule.{Settles};

    ghost then = { Settles };
}

/// The pager makes that leave word ready for the next epoch, the first half of a `track`: one store of 0.
pub struct SetBack;

impl Play<(), View> for SetBack {
    ghost use Rattle.frame_gate.specs.inner.Rule.{SetsBack};

    ghost then = { SetsBack };
}

/// The pager begins the next epoch, the second half of a `track`: one swap of word 0.
pub struct Track;

impl Play<(), View> for Track {
    ghost use Rattle.frame_gate.specs.inner.Rule.{Tracks};

    ghost then = { Tracks };
}

/// The pager writes a frame's word: a swap to block it, as by `block`, a store to free it, as by `ewb`, and a store to place a
/// page there, as by `eld`.
pub struct WriteFrame;

impl Play<(), View> for WriteFrame {
    ghost use Rattle.frame_gate.specs.inner.Rule.{WritesFrame};

    ghost then = { WritesFrame };
}

/// One more processor seat is split from the pager's.
pub struct NewProcessor;

impl Split<View> for NewProcessor {
    ghost use Rattle.frame_gate.specs.inner.Views.{view, role_split, newcomer};

    ghost left = { λ v. view (role_split v.role) v.counter };

    ghost right = { λ _. newcomer };
}
