//! The pages of one enclave, by their numbers.

ghost use Rattle.std.specs.Prelude.{◌≡◌, ◌≤◌, ◌<◌, length, replicate, slice_index, slice_set, slice_index_or, is_some};
ghost use Rattle.std.specs.Prelude.{IfOk, None, Some};
ghost use Rattle.std.specs.Option.{option_copied};
ghost use Rattle.flat_machine.specs.inner.Parts.{added_in, busy_of, page_of, words_in, with_word, with_busy_mark};
ghost use Rattle.flat_machine.specs.inner.Bytes.{bytes_in};
ghost use Rattle.flat_words.specs.Words.{word_of};

use crate::words::Words;
use sgx_types::names::{Kind, Memory, Perm};
use std::alloc::Global;
use std::marker::Model;

/// With which type and permissions a page was added.
#[derive(Clone, Copy)]
pub(crate) struct Added {
    pub kind: Kind,
    pub perm: Perm,
}

/// A page that was added, and whether a processor is inside by it.
#[derive(Drop)]
pub(crate) struct PlainPage {
    pub kind: Kind,
    pub perm: Perm,
    pub words: Words,
    pub is_busy: bool,
}

/// The pages of an enclave by their numbers.
#[derive(Drop)]
pub(crate) struct Table {
    pages: Vec<Option<PlainPage>>,
}

impl Model for Table {
    ghost use Rattle.std.specs.Prelude.{List, Option};
    ghost use Rattle.flat_machine.specs.declared.table.PlainPage.{PlainPage};

    ghost Value = { List (Option PlainPage) };

    ghost view = { λ t. t.pages.items };
}

impl Table {
    /// A place for each of so many pages.
    pub fn new(alloc: Global, count: u64) -> Result<Table, Memory>
        requires { count ≤ 4096 }
        ensures { IfOk result (λ table. table ≡ replicate count None) }
    {
        Ok(Table {
            pages: no_pages(alloc, count as usize)?,
        })
    }

    fn page(&self, number: u64) -> Option<&PlainPage>
        ensures { option_copied result ≡ slice_index_or self.now number None }
    {
        if number < self.pages.len() as u64 {
            self.pages[number as usize].as_ref()
        } else {
            None
        }
    }

    /// How a page was added.
    pub fn added(&self, number: u64) -> Option<Added>
        ensures { result ≡ added_in (slice_index_or self.now number None) }
    {
        let page = self.page(number)?;
        Some(Added {
            kind: page.kind,
            perm: page.perm,
        })
    }

    /// Whether a processor is inside by a page.
    pub fn is_busy(&self, number: u64) -> bool
        ensures { result ≡ busy_of (slice_index_or self.now number None) }
    {
        match self.page(number) {
            Some(page) => page.is_busy,
            None => false,
        }
    }

    /// A word of a page, 0 where it was not added.
    pub fn word(&self, number: u64, index: usize) -> u64
        requires { index < 512 }
        ensures { result ≡ slice_index (words_in (slice_index_or self.now number None)) index }
    {
        match self.page(number) {
            Some(page) => page.words.get(index),
            None => 0,
        }
    }

    /// A word of a page, None where it was not added.
    pub fn added_word(&self, number: u64, index: usize) -> Option<u64>
        requires { index < 512 }
        ensures { result ≡ word_of (page_of (slice_index_or self.now number None)) index }
    {
        let page = self.page(number)?;
        Some(page.words.get(index))
    }

    /// Writes the bytes of a page, if it was added, and tells whether it was.
    pub fn copy_to(&self, number: u64, into: &mut [u8; 4096]) -> bool
        ensures added { result ≡ is_some (page_of (slice_index_or self.now number None)) }
        ensures bytes { into.new ≡ bytes_in (page_of (slice_index_or self.now number None)) into.old }
    {
        match self.page(number) {
            Some(page) => {
                page.words.copy_to(into);
                true
            }
            None => false,
        }
    }

    /// Puts a page into its place.
    pub fn put(&mut self, number: u32, page: PlainPage)
        requires { number < length self.old }
        ensures { self.new ≡ slice_set self.old number (Some page) }
    {
        self.pages[number as usize] = Some(page);
    }

    /// Writes a word of a page, if it was added.
    pub fn set_word(&mut self, number: u64, index: usize, value: u64)
        requires { index < 512 }
        ensures { self.new ≡ slice_set self.old number (with_word (slice_index_or self.old number None) index value) }
    {
        if number < self.pages.len() as u64 {
            set_word(&mut self.pages[number as usize], index, value);
        }
    }

    /// Marks a page busy or not, if it was added.
    pub fn set_busy(&mut self, number: u64, is_busy: bool)
        ensures { self.new ≡ slice_set self.old number (with_busy_mark (slice_index_or self.old number None) is_busy) }
    {
        if number < self.pages.len() as u64 {
            set_busy(&mut self.pages[number as usize], is_busy);
        }
    }
}

#[tactic(auto, using(crate::proofs::Lists::replicate_more))]
fn no_pages(alloc: Global, count: usize) -> Result<Vec<Option<PlainPage>>, Memory>
    ensures { IfOk result (λ pages. pages.items ≡ replicate count None) }
{
    let mut pages = Vec::with_capacity(alloc, count)?;
    for _ in 0..count {
        pages.push(None)?;
    }
    Ok(pages)
}

fn set_word(place: &mut Option<PlainPage>, index: usize, value: u64)
    requires { index < 512 }
    ensures { place.new ≡ with_word place.old index value }
{
    if let Some(page) = place {
        page.words.set(index, value);
    }
}

fn set_busy(place: &mut Option<PlainPage>, is_busy: bool)
    ensures { place.new ≡ with_busy_mark place.old is_busy }
{
    if let Some(page) = place {
        page.is_busy = is_busy;
    }
}
