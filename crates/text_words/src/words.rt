//! Words that are printed: into room that was taken before, or with memory asked for.

ghost use Rattle.std.specs.Prelude.{◌≡◌, ◌+◌, ◌≤◌, ◌<◌, [], ◌∷◌, ◌++◌, false, length, map, OnErr, OnOk};
ghost use Rattle.std.specs.Fmt.{decimal, digits, digit_glyph};
ghost use Rattle.text_words.specs.Words.{digest_word, enclave_word, hexadecimal, line_text};
ghost use Rattle.text_words.specs.inner.Words.{with_words, word_text};
ghost use Rattle.text_words.specs.inner.Room.{HasRoom, LacksRoom, UsesRoom, word_room, words_room};

use sgx_types::names::{Frame, Memory};

/// A word of a line: a name as it stands, a number in one of two spellings, an enclave by its letter, or a digest.
#[derive(Clone, Copy)]
pub enum Word {
    Name(&'static str),
    Decimal(u64),
    Hexadecimal(u64),
    Enclave(u64),
    Digest([u8; 32]),
}

impl From<Frame> for Word {
    ghost use Rattle.text_words.specs.declared.words.Word.TheVariants as variants;

    ghost from_gives = { λ frame word. word ≡ variants.Decimal frame.0 };

    fn from(frame: Frame) -> Word {
        Word::Decimal(frame.0.into())
    }
}

#[inline(always)]
fn digit(value: u64) -> u8
    requires { value < 16 }
    ensures { result ≡ digit_glyph false value }
{
    if value < 10 {
        b'0' + value as u8
    } else {
        b'a' + (value - 10) as u8
    }
}

// A word is short: its bytes are written sooner one by one than by a copy of them all.
#[inline(always)]
fn write_bytes(bytes: &[u8], onto: &mut Vec<u8>)
    requires { HasRoom (length bytes.now) onto.old }
    ensures text { onto.new.items ≡ onto.old.items ++ bytes.now }
    ensures room { UsesRoom (length bytes.now) onto.old onto.new }
{
    for byte in bytes {
        onto.push_reserved(*byte);
    }
}

// The digits are made from the last to the first. Base 2 has the most, 64. Where the base is known, no division by it is left: so this
// function, and what writes one word by it, stand in their callers.
#[inline(always)]
#[tactic(auto, using(crate::proofs::Digits::one_more, crate::proofs::Digits::last_one, crate::proofs::Digits::all_written))]
fn write_digits(number: u64, base: u64, onto: &mut Vec<u8>)
    requires least { 2 ≤ base }
    requires most { base ≤ 16 }
    requires room { HasRoom 64 onto.old }
    ensures text { onto.new.items ≡ onto.old.items ++ digits base false number }
    ensures room { UsesRoom 64 onto.old onto.new }
{
    let mut digits = [0; 64];
    let mut start = digits.len();
    let mut rest = number;
    while start > 0 {
        start -= 1;
        digits[start] = digit(rest % base);
        rest /= base;
        if rest == 0 {
            break;
        }
    }
    write_bytes(&digits[start..], onto);
}

// Most numbers of a text have one digit.
#[inline(always)]
#[tactic(auto, using(crate::proofs::Digits::digits_one))]
fn write_decimal(number: u64, onto: &mut Vec<u8>)
    requires { HasRoom 64 onto.old }
    ensures text { onto.new.items ≡ onto.old.items ++ decimal number }
    ensures room { UsesRoom 64 onto.old onto.new }
{
    if number < 10 {
        onto.push_reserved(digit(number));
    } else {
        write_digits(number, 10, onto);
    }
}

#[inline(always)]
fn write_hexadecimal(number: u64, onto: &mut Vec<u8>)
    requires { HasRoom 66 onto.old }
    ensures text { onto.new.items ≡ onto.old.items ++ hexadecimal number }
    ensures room { UsesRoom 66 onto.old onto.new }
{
    onto.push_reserved(b'0');
    onto.push_reserved(b'x');
    write_digits(number, 16, onto);
}

fn write_enclave(enclave: u64, onto: &mut Vec<u8>)
    requires { HasRoom 64 onto.old }
    ensures text { onto.new.items ≡ onto.old.items ++ enclave_word enclave }
    ensures room { UsesRoom 64 onto.old onto.new }
{
    match enclave {
        1..=8 => onto.push_reserved(b'A' + (enclave - 1) as u8),
        _ => write_decimal(enclave, onto),
    }
}

fn write_digest(digest: [u8; 32], onto: &mut Vec<u8>)
    requires { HasRoom 64 onto.old }
    ensures text { onto.new.items ≡ onto.old.items ++ digest_word digest }
    ensures room { UsesRoom 64 onto.old onto.new }
{
    let mut digits = [0; 64];
    hex::encode_to_slice(digest, &mut digits).unwrap();
    write_bytes(&digits, onto);
}

/// Writes a word, with no space before it, into room for it.
#[inline(always)]
pub fn write_word(word: Word, onto: &mut Vec<u8>)
    requires { HasRoom (word_room word) onto.old }
    ensures text { onto.new.items ≡ onto.old.items ++ word_text word }
    ensures room { UsesRoom (word_room word) onto.old onto.new }
{
    match word {
        Word::Name(name) => write_bytes(name.as_bytes(), onto),
        Word::Decimal(number) => write_decimal(number, onto),
        Word::Hexadecimal(number) => write_hexadecimal(number, onto),
        Word::Enclave(enclave) => write_enclave(enclave, onto),
        Word::Digest(digest) => write_digest(digest, onto),
    }
}

/// Writes a word with a space before it, into room for both.
#[inline(always)]
pub fn write_spaced(word: Word, onto: &mut Vec<u8>)
    requires { HasRoom (1 + word_room word) onto.old }
    ensures text { onto.new.items ≡ with_words onto.old.items (word_text word ∷ []) }
    ensures room { UsesRoom (1 + word_room word) onto.old onto.new }
{
    onto.push_reserved(b' ');
    write_word(word, onto);
}

/// Writes words with a space before each, into room for them.
#[tactic(auto, using(crate::proofs::LineLaws::with_words_more, crate::proofs::RoomLaws::room_laws))]
pub fn write_words(words: &[Word], onto: &mut Vec<u8>)
    requires { HasRoom (words_room words.now) onto.old }
    ensures text { onto.new.items ≡ with_words onto.old.items (map word_text words.now) }
    ensures room { UsesRoom (words_room words.now) onto.old onto.new }
{
    for word in words {
        onto.push_reserved(b' ');
        write_word(*word, onto);
    }
}

/// Writes a line of words, the first of which is given by itself, into room for it.
#[inline(always)]
#[tactic(auto, using(crate::proofs::LineLaws::line_text_cons))]
pub fn write_line(first: Word, others: &[Word], onto: &mut Vec<u8>)
    requires { HasRoom (words_room (first ∷ others.now)) onto.old }
    ensures text { onto.new.items ≡ onto.old.items ++ line_text (word_text first ∷ map word_text others.now) }
    ensures room { UsesRoom (words_room (first ∷ others.now)) onto.old onto.new }
{
    write_word(first, onto);
    write_words(others, onto);
    onto.push_reserved(b'\n');
}

/// How many bytes a word has at most.
#[inline(always)]
fn word_room(word: Word) -> usize
    ensures { result ≡ word_room word }
{
    match word {
        Word::Name(name) => name.len(),
        _ => 66,
    }
}

/// Writes a word, with no space before it.
pub fn push_word(word: Word, onto: &mut Vec<u8>) -> Result<(), Memory>
    ensures text { OnOk result (onto.new.items ≡ onto.old.items ++ word_text word) }
    ensures full { OnErr result (LacksRoom (word_room word) onto.old) }
    ensures room { OnOk result (UsesRoom (word_room word) onto.old onto.new) }
{
    onto.reserve(word_room(word))?;
    write_word(word, onto);
    Ok(())
}

/// Writes words with a space before each.
#[tactic(auto, using(crate::proofs::LineLaws::with_words_more, crate::proofs::RoomLaws::room_laws))]
pub fn push_words(words: &[Word], onto: &mut Vec<u8>) -> Result<(), Memory>
    ensures text { OnOk result (onto.new.items ≡ with_words onto.old.items (map word_text words.now)) }
    ensures full { OnErr result (LacksRoom (words_room words.now) onto.old) }
    ensures room { OnOk result (UsesRoom (words_room words.now) onto.old onto.new) }
{
    for word in words {
        onto.push(b' ')?;
        push_word(*word, onto)?;
    }
    Ok(())
}

/// Writes a line of words, the first of which is given by itself.
#[tactic(auto, using(crate::proofs::LineLaws::line_text_cons))]
pub fn push_line(first: Word, others: &[Word], onto: &mut Vec<u8>) -> Result<(), Memory>
    ensures text { OnOk result (
        onto.new.items ≡ onto.old.items ++ line_text (word_text first ∷ map word_text others.now)) }
    ensures full { OnErr result (LacksRoom (words_room (first ∷ others.now)) onto.old) }
    ensures room { OnOk result (UsesRoom (words_room (first ∷ others.now)) onto.old onto.new) }
{
    push_word(first, onto)?;
    push_words(others, onto)?;
    onto.push(b'\n')?;
    Ok(())
}
