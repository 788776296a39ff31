//! How the notes of a run begin. A law is the contract of a function without arguments.

ghost use Rattle.std.specs.Prelude.{ℕ, [], None, replicate};
ghost use Rattle.epoch_words.specs.inner.Known.{enclaves};
ghost use Rattle.epoch_words.specs.inner.Seen.{starting_at};
ghost use Rattle.epoch_notes.specs.inner.Notes.{TableId, TellsEntries};

/// Words at the first epoch with no processor inside say what no entry says.
pub fn words_begin()
    ensures { (first cpus : ℕ) (words : TableId) → TellsEntries first []
        (record { words = words; seen = replicate (enclaves words) (starting_at first); inside = replicate cpus None }) }
{}
