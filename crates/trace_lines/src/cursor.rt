//! The words of a line, read from the front.

ghost use Rattle.std.specs.Prelude.{◌≡◌, drop};
ghost use Rattle.trace_lines.specs.inner.Reading.{first, init_in, is_none, left, page_in, slot_in, texts};
ghost use Rattle.trace_text.specs.Fields.{AllFit, init_fields};

use crate::words::{enclave, frame, number, page_number, short, small};
use sgx_types::lawful::PageInit;
use sgx_types::names::{Page, SlotAt};

/// The words of a line that are still to be read.
#[derive(Drop)]
pub(crate) struct Cursor<'a> {
    rest: &'a [&'a [u8]],
}

impl<'a> Cursor<'a> {
    pub(crate) fn new(words: &'a [&'a [u8]]) -> Cursor<'a>
        ensures { left result ≡ texts words.now }
    {
        Cursor { rest: words }
    }

    /// The next word, or behind the last one an empty word, which tells nothing.
    pub(crate) fn next(&mut self) -> &'a [u8]
        ensures word { result.now ≡ first (left self.old) }
        ensures behind { left self.new ≡ drop 1 (left self.old) }
    {
        let [word, rest @ ..] = self.rest else {
            return b"";
        };
        self.rest = rest;
        *word
    }

    pub(crate) fn is_at_end(&self) -> bool
        ensures { result ≡ is_none (left self.now) }
    {
        self.rest.is_empty()
    }
}

/// A page, by its enclave and its number there, in either edition.
pub(crate) fn page(words: &mut Cursor) -> Page
    ensures read { page_in (left words.old) ≡ (result, left words.new) }
{
    Page {
        enclave: enclave(words.next()),
        number: page_number(words.next()),
    }
}

/// A slot, by the frame of its version array and its place there.
pub(crate) fn slot(words: &mut Cursor) -> SlotAt
    ensures { slot_in (left words.old) ≡ (result, left words.new) }
{
    SlotAt {
        frame: frame(words.next()),
        index: short(words.next()),
    }
}

/// With what a page is added.
#[tactic(auto, unfolding(crate::specs::inner::Reading::init_in))]
pub(crate) fn init(words: &mut Cursor) -> PageInit
    ensures read { init_in (left words.old) ≡ (result, left words.new) }
    ensures fits { AllFit (init_fields result) }
{
    if words.next() == b"tcs".as_slice() {
        PageInit::Tcs {
            ossa: small(words.next()),
            nssa: small(words.next()),
        }
    } else {
        PageInit::Words(number(words.next()))
    }
}
