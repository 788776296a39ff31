//! Why an instruction that takes memory was not done.

ghost use Rattle.std.specs.Prelude.{◌≡◌};
ghost use Rattle.enclave_build.specs.declared.build_refusal.BuildRefusal.TheVariants as ends;

use sgx_rules::refusals::Refusal;
use sgx_types::names::Memory;

/// Why an instruction that takes memory was not done: the first case of its row that holds, or want of memory.
#[derive(Clone, Copy, Debug, PartialEq, Eq)]
pub enum BuildRefusal {
    Refused(Refusal),
    Memory,
}

impl From<Memory> for BuildRefusal {
    ghost from_gives = { λ _ end. end ≡ ends.Memory };

    fn from(_memory: Memory) -> BuildRefusal {
        BuildRefusal::Memory
    }
}
