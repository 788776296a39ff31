//! Laws of the definitions. Each is the contract of a function without arguments, and so holds for every flat memory and every entry.

ghost use Rattle.std.specs.Prelude.{◌≡◌, ℕ, true, false, is_some, Some, None};
ghost use Rattle.sgx_types.specs.declared.names.Page.{Page};
ghost use Rattle.sgx_types.specs.Pages.{page_at};
ghost use Rattle.sgx_rules.specs.declared.entries.Entry.{Entry};
ghost use Rattle.sgx_rules.specs.Flat.{FlatMemory, event_after};
ghost use Rattle.flat_words.specs.declared.writes.NewPage.{NewPage};
ghost use Rattle.flat_words.specs.Words.{word_in};
ghost use Rattle.flat_words.specs.Writes.{touched, is_touched, page_added, word_with};

/// What flat memory takes of an entry writes at most two words of the pages that were added: each other word of theirs stays as it was.
#[tactic(auto, using(crate::proofs::WriteLaws::added_words_stay))]
pub fn other_words_stay()
    ensures { (m : FlatMemory) (e : Entry) (g : Page) (k : ℕ) → is_some (m.pages g) ≡ true
        → is_touched (touched m e.actor e.event) g k ≡ false
        → word_in (event_after e.actor e.event m) g k ≡ word_in m g k }
{}

/// Each word that an entry doesn't write is as it was, but in the page that the entry adds: there it is the page's first.
#[tactic(auto, using(crate::proofs::WriteLaws::words_after))]
pub fn words_are_first_or_stay()
    ensures { (m : FlatMemory) (e : Entry) (g : Page) (k : ℕ) → is_touched (touched m e.actor e.event) g k ≡ false
        → word_in (event_after e.actor e.event m) g k ≡ word_with (page_added m e.actor e.event) g k (word_in m g k) }
{}

/// A page is there behind an entry exactly where it was there before it, or the entry adds it.
#[tactic(auto, using(crate::proofs::WriteLaws::added_or_kept))]
pub fn pages_are_added_or_stay()
    ensures { (m : FlatMemory) (e : Entry) (g : Page) (k : ℕ) → is_some (word_in (event_after e.actor e.event m) g k)
        ≡ is_some (word_with (page_added m e.actor e.event) g k (word_in m g k)) }
{}

/// A page is added only where there was none.
#[tactic(auto, using(crate::proofs::WriteLaws::none_before))]
pub fn added_pages_are_new()
    ensures { (m : FlatMemory) (e : Entry) (x : NewPage) → page_added m e.actor e.event ≡ Some x
        → m.pages (page_at x.enclave x.number) ≡ None }
{}
