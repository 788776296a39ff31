//! The rule that the words, their seat and the passes keep.

use crate::seen::Seen;
use atomic_table::{Play, Split, TableRule};
use std::collections::LinkedList;

/// What a seat knows: whether it is the hardware seat, and what it last saw of each enclave. No value of it is made.
pub struct View {
    pub is_hardware: bool,
    pub seen: LinkedList<Seen>,
}

/// The rule that the words, the hardware seat and the passes keep.
pub struct EpochRule;

impl TableRule<(), View, Vec<Seen>> for EpochRule {
    ghost use Rattle.epoch_words.specs.inner.Rule.{AreWordsKept, hardware};

    ghost holds = { λ _ table. AreWordsKept table };

    ghost first = { λ start. hardware start.items };
}

/// The hardware seat's step: a processor entered or left an enclave, or a new epoch began.
pub struct Write;

impl Play<(), View> for Write {
    ghost use Rattle.epoch_words.specs.inner.Rule.{Writes};

    ghost then = { Writes };
}

/// A pass's step: it looks at a word.
pub struct Observe;

impl Play<(), View> for Observe {
    ghost use Rattle.epoch_words.specs.inner.Rule.{Observes};

    ghost then = { Observes };
}

/// A new pass has seen what the seat has from which it is split, and that seat knows what it knew.
pub struct Tell;

impl Split<View> for Tell {
    ghost use Rattle.epoch_words.specs.inner.Rule.{pass};

    ghost left = { λ view. view };

    ghost right = { λ view. pass view.seen };
}
