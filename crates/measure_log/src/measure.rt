//! The measurement of an enclave while it is built.

ghost use Rattle.std.specs.Prelude.{ℕ, List, ◌++◌};
ghost use Rattle.std.specs.Int.{w64, to_le_bytes};
ghost use Rattle.measure_log.specs.Blocks.{ecreate_block, eadd_block, eextend_block};
ghost use Rattle.measure_log.specs.inner.Measure.{HoldsLog, TakesIn, FinishesTo};

use sha2::{Digest, Sha256};

/// The measurement of an enclave while it is built: SHA-256 (FIPS 180-4) of the blocks that its build appended. The
/// layout of the blocks is this project's own, after Intel SDM volume 3D, ECREATE, EADD and EEXTEND.
#[derive(Drop)]
pub struct Measure {
    hasher: Sha256,
}

impl Measure {
    /// The log of an enclave of `size` bytes, which ECREATE begins.
    pub fn create(size: u64) -> Measure
        ensures { HoldsLog result (ecreate_block size) }
    {
        let mut hasher = Sha256::new();
        hasher.update(b"ECREATE\0");
        hasher.update(1u32.to_le_bytes());
        hasher.update(size.to_le_bytes());
        hasher.update([0; 44]);
        Measure { hasher }
    }

    /// Appends the block of EADD: the page at `offset` bytes from the enclave's base was added with these
    /// SECINFO.FLAGS.
    pub fn add(&mut self, offset: u64, flags: u64)
        ensures { TakesIn self.old (eadd_block offset flags) self.new }
    {
        self.begin(b"EADD\0\0\0\0", offset);
        self.hasher.update(flags.to_le_bytes());
        self.hasher.update([0; 40]);
    }

    /// Appends the block of EEXTEND: these 256 bytes stand at `offset` bytes from the enclave's base.
    pub fn extend(&mut self, offset: u64, chunk: &[u8; 256])
        ensures { TakesIn self.old (eextend_block offset chunk.now) self.new }
    {
        self.begin(b"EEXTEND\0", offset);
        self.hasher.update([0; 48]);
        self.hasher.update(chunk);
    }

    fn begin(&mut self, name: &[u8; 8], offset: u64)
        ensures { (log : List ℕ) → HoldsLog self.old log → HoldsLog self.new (log ++ name.now ++ to_le_bytes w64 offset) }
    {
        self.hasher.update(name);
        self.hasher.update(offset.to_le_bytes());
    }

    /// The measurement so far.
    pub fn finish(&self) -> [u8; 32]
        ensures { FinishesTo self.now result }
    {
        let hasher = self.hasher.clone().unwrap();
        hasher.finalize()
    }
}
