//! The 512 words of a page.

ghost use Rattle.std.specs.Prelude.{◌≡◌, ◌<◌, length, replicate, slice_index, slice_set, IfOk};
ghost use Rattle.sgx_rules.specs.Flat.{first_words};
ghost use Rattle.sgx_types.specs.Layouts.{bytes_of};

use sgx_types::lawful::PageInit;
use sgx_types::names::Memory;
use std::alloc::Global;
use std::marker::Model;

/// How many words of 8 bytes a page has.
pub(crate) const WORDS: usize = 512;

/// The words of a page.
#[derive(Drop)]
pub(crate) struct Words {
    items: Box<[u64; WORDS]>,
}

impl Model for Words {
    ghost use Rattle.std.specs.Prelude.{◌≡◌, ℕ, List, length};

    ghost Value = { List ℕ };

    ghost view = { λ w. w.items.value };

    ghost invariant = { λ w. length w.items.value ≡ 512 };
}

impl Words {
    /// A page of zeros.
    pub fn new(alloc: Global) -> Result<Words, Memory>
        ensures { IfOk result (λ words. words ≡ replicate 512 0) }
    {
        Ok(Words {
            items: Box::new(alloc, [0; WORDS])?,
        })
    }

    /// The word at an index.
    pub fn get(&self, index: usize) -> u64
        requires { index < 512 }
        ensures { result ≡ slice_index self.now index }
    {
        self.items[index]
    }

    /// Writes the word at an index.
    pub fn set(&mut self, index: usize, value: u64)
        requires { index < 512 }
        ensures { self.new ≡ slice_set self.old index value }
    {
        self.items[index] = value;
    }

    /// Writes the words with which a page is added.
    pub fn write(&mut self, init: PageInit)
        ensures { self.new ≡ first_words init }
    {
        match init {
            PageInit::Words(value) => self.items.fill(value),
            PageInit::Tcs { ossa, nssa } => {
                self.items.fill(0);
                self.items[2] = u64::from(ossa) * 4096;
                self.items[3] = u64::from(nssa) * (1 << 32);
            }
        }
    }

    /// Writes the page's bytes, each word low byte first.
    pub fn copy_to(&self, into: &mut [u8; 4096])
        ensures { into.new ≡ bytes_of self.now }
    {
        let mut page = [[0; 8]; WORDS];
        for i in 0..WORDS {
            page[i] = self.items[i].to_le_bytes();
        }
        into.copy_from_slice(page.as_flattened());
    }
}
