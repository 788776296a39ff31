//! Why a trace was not read.

use sgx_types::names::Memory;

/// Why a text was not read as a trace.
#[derive(Clone, Copy, Debug, PartialEq, Eq)]
pub enum TraceRefusal {
    /// The first line with which no trace goes on, from 1.
    Fault { line: u64 },

    /// Memory was refused.
    Memory,
}

impl From<Memory> for TraceRefusal {
    ghost use Rattle.std.specs.Prelude.{◌≡◌};
    ghost use Rattle.trace_reader.specs.declared.refusals.TraceRefusal.TheVariants as refusals;

    ghost from_gives = { λ memory refusal. refusal ≡ refusals.Memory };

    fn from(_memory: Memory) -> TraceRefusal {
        TraceRefusal::Memory
    }
}
