//! Words that are read, in any spelling of their numbers. A word that tells none is read as 0: who prints again what was read sees
//! that the word was another.

ghost use Rattle.std.specs.Prelude.{◌≡◌, IfSome};
ghost use Rattle.sgx_types.specs.Digests.{IsDigest};
ghost use Rattle.trace_text.specs.Fields.{Fits, expect_field};
ghost use Rattle.trace_text.specs.Readable.{FitsActor};
ghost use Rattle.trace_lines.specs.inner.WordReading.{actor_of, byte_in, cpu_of, enclave_in, expect_in, frame_in, number_in};
ghost use Rattle.trace_lines.specs.inner.WordReading.{page_number_in, short_in, small_in, tag_in};

use sgx_types::names::{Actor, Cpu, Frame};
use text_words::readers;

/// A number of 64 bits.
#[tactic(auto, unfolding(crate::specs::inner::WordReading::number_in))]
pub fn number(word: &[u8]) -> u64
    ensures { result ≡ number_in word.now }
{
    readers::number(word).unwrap_or(0)
}

/// A number of 32 bits.
#[tactic(auto, unfolding(crate::specs::inner::WordReading::small_in))]
pub fn small(word: &[u8]) -> u32
    ensures { result ≡ small_in word.now }
{
    readers::small(word).unwrap_or(0)
}

/// The number of a page in its enclave. That of a SECS page is a name, too.
#[tactic(auto, unfolding(crate::specs::inner::WordReading::page_number_in))]
pub fn page_number(word: &[u8]) -> u32
    ensures { result ≡ page_number_in word.now }
{
    match word {
        b"secs" => u32::MAX,
        _ => small(word),
    }
}

/// A number of 16 bits.
#[tactic(auto, unfolding(crate::specs::inner::WordReading::short_in))]
pub fn short(word: &[u8]) -> u16
    ensures { result ≡ short_in word.now }
{
    u16::try_from(number(word)).unwrap_or(0)
}

/// A number of 8 bits.
#[tactic(auto, unfolding(crate::specs::inner::WordReading::byte_in))]
pub fn byte(word: &[u8]) -> u8
    ensures { result ≡ byte_in word.now }
{
    u8::try_from(number(word)).unwrap_or(0)
}

/// An enclave by its letter, or by its digits. Enclave 0 is also `va`, which tells no number.
#[tactic(auto, unfolding(crate::specs::inner::WordReading::enclave_in))]
pub fn enclave(word: &[u8]) -> u16
    ensures { result ≡ enclave_in word.now }
{
    match readers::letter(word) {
        Some(enclave) => enclave,
        None => short(word),
    }
}

#[tactic(auto, unfolding(crate::specs::inner::WordReading::frame_in))]
pub fn frame(word: &[u8]) -> Frame
    ensures { result ≡ frame_in word.now }
{
    Frame(small(word))
}

/// A processor from 0 to 15.
#[tactic(auto, unfolding(crate::specs::inner::WordReading::cpu_of))]
pub fn cpu(word: &[u8]) -> Option<Cpu>
    ensures read { result ≡ cpu_of word.now }
    ensures fits { IfSome result (λ cpu. FitsActor (Actor.Cpu cpu)) }
{
    let number = readers::number(word)?;
    if number < 16 {
        Some(Cpu(number as u8))
    } else {
        None
    }
}

#[tactic(auto, unfolding(crate::specs::inner::WordReading::actor_of))]
pub fn actor(word: &[u8]) -> Option<Actor>
    ensures read { result ≡ actor_of word.now }
    ensures fits { IfSome result FitsActor }
{
    match word {
        b"b" => Some(Actor::Builder),
        b"r" => Some(Actor::Reclaimer),
        _ => {
            let digits = word.strip_prefix(b"p")?;
            Some(Actor::Cpu(cpu(digits)?))
        }
    }
}

/// A digest or a tag.
#[tactic(auto, using(crate::proofs::DigestLaws::zeros_fit), unfolding(crate::specs::inner::WordReading::tag_in))]
pub fn tag(word: &[u8]) -> [u8; 32]
    ensures read { result ≡ tag_in word.now }
    ensures fits { IsDigest result }
{
    match readers::digest(word) {
        Some(digest) => digest,
        None => [0; 32],
    }
}

/// A digest that is expected, or a dash.
#[tactic(auto, unfolding(crate::specs::inner::WordReading::expect_in))]
pub fn expect(word: &[u8]) -> Option<[u8; 32]>
    ensures read { result ≡ expect_in word.now }
    ensures fits { Fits (expect_field result) }
{
    match word {
        b"-" => None,
        _ => Some(tag(word)),
    }
}
