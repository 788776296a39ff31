//! Why a text was not given.

use io_edges::faults::Failed;
use sgx_types::names::Memory;

/// Why a text was not given, or not the whole of it.
#[derive(Clone, Copy, Debug, PartialEq, Eq)]
pub enum Ungiven {
    /// The sink failed.
    Failed,

    /// Memory was refused.
    Memory,
}

impl From<Memory> for Ungiven {
    ghost use Rattle.std.specs.Prelude.{◌≡◌};
    ghost use Rattle.trace_pieces.specs.declared.ungiven.Ungiven.TheVariants as ends;

    ghost from_gives = { λ _ end. end ≡ ends.Memory };

    fn from(_error: Memory) -> Ungiven {
        Ungiven::Memory
    }
}

impl From<Failed> for Ungiven {
    ghost use Rattle.std.specs.Prelude.{◌≡◌};
    ghost use Rattle.trace_pieces.specs.declared.ungiven.Ungiven.TheVariants as ends;

    ghost from_gives = { λ _ end. end ≡ ends.Failed };

    fn from(_error: Failed) -> Ungiven {
        Ungiven::Failed
    }
}
