//! A processor: where it executes, its accumulator and its translations.

ghost use Rattle.std.specs.Prelude.{◌≡◌, [], IfOk};
ghost use Rattle.cached_translations.specs.declared.processor.Mode.TheVariants.{Outside};
ghost use Rattle.cached_translations.specs.inner.Modes.{is_inside, enclave_inside};

use crate::cache::Cache;
use sgx_types::names::{Frame, Memory};
use std::alloc::Global;

/// Where a processor executes. Inside, it has entered by the thread control structure at page `tcs`; that page and
/// the state save page stand in the two frames until it leaves, and `epoch` is the enclave's epoch at the entry.
#[derive(Clone, Copy, Debug, PartialEq, Eq)]
pub enum Mode {
    Outside,
    Inside {
        enclave: u16,
        tcs: u32,
        tcs_frame: Frame,
        ssa_frame: Frame,
        epoch: u64,
    },
}

impl Mode {
    pub fn is_inside(self) -> bool
        ensures { result ≡ is_inside self }
    {
        matches!(self, Mode::Inside { .. })
    }

    /// The enclave that the processor is inside.
    pub fn enclave(self) -> Option<u16>
        ensures { result ≡ enclave_inside self }
    {
        match self {
            Mode::Outside => None,
            Mode::Inside { enclave, .. } => Some(enclave),
        }
    }
}

/// A logical processor: its mode, the accumulator that enclave code works on, and its translations. The translations
/// of the pages that its mode names stand there and not in the cache.
#[derive(Drop)]
pub struct Processor {
    pub mode: Mode,
    pub acc: u64,
    pub cache: Cache,
}

impl Processor {
    /// A processor outside, with accumulator 0 and no translation.
    pub fn new(alloc: Global) -> Result<Processor, Memory>
        ensures { IfOk result (λ cpu. cpu ≡ record { mode = Mode.Outside; acc = 0; cache = [] }) }
    {
        Ok(Processor {
            mode: Mode::Outside,
            acc: 0,
            cache: Cache::new(alloc)?,
        })
    }
}
