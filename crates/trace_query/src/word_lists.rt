//! The changes of each word, by the places at which they were made.

ghost use Rattle.std.specs.Prelude.{◌≡◌, ◌+◌, ◌≤◌, ◌++◌, ◌∷◌, [], ℕ, if◌then◌else◌, OnOk, vec_len, vec_capacity};
ghost use Rattle.flat_words.specs.declared.writes.WordAt.{WordAt};
ghost use Rattle.trace_query.specs.inner.WordLists.{same_word, changes_in, value_at, HasWordList, HasWordRoom, ChangesRise};

use flat_words::writes::WordAt;
use sgx_types::names::Memory;
use std::alloc::Global;
use std::collections::HashMap;

/// A change of a word: behind how many entries it was made, and what the word is from then on.
#[derive(Clone, Copy)]
pub(crate) struct Change {
    pub place: u64,
    pub value: u64,
}

/// For each word its changes, oldest first.
#[derive(Drop)]
pub(crate) struct WordLists {
    lists: HashMap<WordAt, Vec<Change>>,
}

impl WordLists {
    /// No word changed.
    pub(crate) fn new(alloc: Global) -> WordLists
        ensures { (w : WordAt) → changes_in result w ≡ [] }
    {
        WordLists {
            lists: HashMap::new(alloc),
        }
    }

    /// Makes room for two changes more of a word.
    pub(crate) fn reserve(&mut self, alloc: Global, at: WordAt) -> Result<(), Memory>
        ensures same { (w : WordAt) → changes_in self.new w ≡ changes_in self.old w }
        ensures kept { (w : WordAt) (k : ℕ) → HasWordRoom self.old w k → HasWordRoom self.new w k }
        ensures room { OnOk result (HasWordRoom self.new at 2) }
    {
        self.begin(alloc, at)?;
        if let Some(list) = self.lists.get_mut(&at) {
            list.reserve(2)?;
        }
        Ok(())
    }

    // Sees to it that a word has a list, be it an empty one.
    fn begin(&mut self, alloc: Global, at: WordAt) -> Result<(), Memory>
        ensures same { (w : WordAt) → changes_in self.new w ≡ changes_in self.old w }
        ensures kept { (w : WordAt) (k : ℕ) → HasWordRoom self.old w k → HasWordRoom self.new w k }
        ensures begun { OnOk result (HasWordList self.new at) }
    {
        if !self.lists.contains_key(&at) {
            self.lists.insert(at, Vec::new(alloc))?;
        }
        Ok(())
    }

    /// A word changed once more.
    pub(crate) fn push(&mut self, at: WordAt, change: Change)
        requires room { HasWordRoom self.old at 1 }
        ensures changes { (w : WordAt) → changes_in self.new w
            ≡ (if same_word at w then changes_in self.old w ++ change ∷ [] else changes_in self.old w) }
        ensures room { (w : WordAt) (k : ℕ) → HasWordRoom self.old w (k + 1) → HasWordRoom self.new w k }
    {
        if let Some(list) = self.lists.get_mut(&at) {
            add(list, change);
        }
    }

    /// What a word, which had this value first, is behind its last change up to a place.
    pub(crate) fn at(&self, n: u64, at: WordAt, first: u64) -> u64
        ensures { ChangesRise (changes_in self.now at) → result ≡ value_at first (changes_in self.now at) n }
    {
        match self.lists.get(&at) {
            Some(list) => last_to(list, n, first),
            None => first,
        }
    }
}

fn add(list: &mut Vec<Change>, change: Change)
    requires { vec_len list.old + 1 ≤ vec_capacity list.old }
    ensures items { list.new.items ≡ list.old.items ++ change ∷ [] }
    ensures len { vec_len list.new ≡ vec_len list.old + 1 }
    ensures capacity { vec_capacity list.old ≤ vec_capacity list.new }
{
    let kept: Result<_, _> = list.push(change);
    kept.unwrap();
}

// The changes rise by place, so those up to a place stand first.
fn last_to(list: &[Change], n: u64, first: u64) -> u64
    ensures { ChangesRise list.now → result ≡ value_at first list.now n }
{
    let count = list.partition_point(|change| change.place <= n);
    if count == 0 {
        return first;
    }
    list[count - 1].value
}
