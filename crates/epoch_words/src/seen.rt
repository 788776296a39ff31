//! What a tracking word says.

ghost use Rattle.std.specs.Prelude.{◌≡◌};
ghost use Rattle.epoch_words.specs.inner.Seen.{IsLawful, word_of, seen_in};

/// In a word bits 11 to 0 are the newer processors, bits 23 to 12 the older ones and bits 63 to 24 the epoch.
const OLDER: u64 = 1 << 12;

const EPOCH: u64 = 1 << 24;

/// What the word of an enclave says: its epoch, how many processors are inside that entered before its last track, and how
/// many that entered since.
#[derive(Clone, Copy, Debug, PartialEq, Eq)]
pub struct Seen {
    pub epoch: u64,
    pub older: u16,
    pub newer: u16,
}

impl Seen {
    /// The word that says this.
    pub(crate) fn word(self) -> u64
        requires { IsLawful self }
        ensures value { result ≡ word_of self }
        ensures back { seen_in result ≡ self }
    {
        self.epoch * EPOCH + u64::from(self.older) * OLDER + u64::from(self.newer)
    }

    /// What a word says.
    pub(crate) fn in_word(word: u64) -> Seen
        ensures { result ≡ seen_in word }
    {
        Seen {
            epoch: word / EPOCH,
            older: (word / OLDER % OLDER) as u16,
            newer: (word % OLDER) as u16,
        }
    }
}
