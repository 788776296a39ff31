//! Words that are read.

ghost use Rattle.std.specs.Prelude.{◌≡◌, ◌≤◌, ◌^◌, ◌<◌, SomeIff};
ghost use Rattle.std.specs.Str.Parse.{IsNumeral, digits_value};
ghost use Rattle.text_words.specs.Reading.{digest_of, letter_of, number_of};
ghost use Rattle.text_words.specs.inner.Reading.{small_of};

use hex::FromHex;

/// The value of the digits of a base, where they are one or more and the value is below 2^64.
fn numeral(digits: &[u8], radix: u32) -> Option<u64>
    requires low { 2 ≤ radix }
    requires high { radix ≤ 16 }
    ensures { SomeIff result (IsNumeral radix digits.now × (digits_value radix digits.now < 2 ^ 64))
        (digits_value radix digits.now) }
{
    if digits.is_empty() {
        return None;
    }
    let mut value: u64 = 0;
    for digit in digits {
        let digit = char::from(*digit).to_digit(radix)?;
        value = value
            .checked_mul(u64::from(radix))?
            .checked_add(u64::from(digit))?;
    }
    Some(value)
}

/// A number, with a value below 2^64: decimal digits, or `0x` and hexadecimal digits in either case.
pub fn number(word: &[u8]) -> Option<u64>
    ensures { result ≡ number_of word.now }
{
    match word.strip_prefix(b"0x") {
        Some(digits) => numeral(digits, 16),
        None => numeral(word, 10),
    }
}

/// A number below 2^32.
#[tactic(auto, unfolding(crate::specs::inner::Reading::small_of))]
pub fn small(word: &[u8]) -> Option<u32>
    ensures { result ≡ small_of word.now }
{
    u32::try_from(number(word)?).ok()
}

/// The number of the enclave that a letter stands for, from 1 for A to 8 for H.
#[tactic(auto, unfolding(crate::specs::Reading::letter_of))]
pub fn letter(word: &[u8]) -> Option<u16>
    ensures { result ≡ letter_of word.now }
{
    match word {
        [letter @ b'A'..=b'H'] => Some(u16::from(letter - b'A') + 1),
        _ => None,
    }
}

/// The 32 bytes of 64 hexadecimal digits, in either case.
#[tactic(auto, unfolding(crate::specs::Reading::digest_of))]
pub fn digest(word: &[u8]) -> Option<[u8; 32]>
    ensures { result ≡ digest_of word.now }
{
    <[u8; 32] as FromHex>::from_hex(word).ok()
}
