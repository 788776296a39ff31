//! Laws of the definitions. Each is the contract of a function without arguments, and so holds for every list of entries.

ghost use Rattle.std.specs.Prelude.{ℕ, List};
ghost use Rattle.sgx_rules.specs.declared.entries.Entry.{Entry};
ghost use Rattle.sgx_rules.specs.inner.ByEpochs.{EpochsTellPlaces};

/// When a blocked page may go out is defined by places in the trace: each processor that was inside at the first track
/// behind the block has left. A processor of this kind keeps no trace: it notes the enclave's epoch at each entry and each
/// block, and compares epochs. Both agree, whatever was done in whatever order.
#[tactic(auto, using(crate::proofs::Keystone::epochs_tell))]
pub fn epochs_tell_places()
    ensures { (first : ℕ) (past : List Entry) → EpochsTellPlaces first past }
{}
