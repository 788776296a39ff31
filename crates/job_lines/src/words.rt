//! The words of a line, and each in its place.

ghost use Rattle.std.specs.Prelude.{◌≡◌, ◌==◌, ◌||◌, ◌≤◌, true, map, IfOk, take};
ghost use Rattle.sgx_types.specs.Digests.{IsDigest};
ghost use Rattle.job_lines.specs.Words.{without_return, words_of, is_skipped, keyword_of, plan_word_of, call_word_of, as_number};
ghost use Rattle.job_lines.specs.Words.{as_letter};
ghost use Rattle.job_lines.specs.Words.{as_perm, as_hash, as_plain};

use crate::keywords::{CallWord, Keyword, PlanWord};
use crate::kinds::JobKind;
use sgx_types::names::Perm;
use std::alloc::AllocError;
use text_words::names::by_name;
use text_words::readers;

/// A line without the carriage return at its end.
pub fn without_return(line: &[u8]) -> &[u8]
    ensures { result.now ≡ without_return line.now }
{
    let Some((last, front)) = line.split_last() else {
        return line;
    };
    if *last == b'\r' { front } else { line }
}

// Whether a byte stands between two words. Most bytes of a line do not, and are above both that do.
fn is_blank(byte: u8) -> bool
    ensures { result ≡ ((byte == 32) || (byte == 9)) }
{
    byte <= b' ' && (byte == b' ' || byte == b'\t')
}

/// Puts the words of a line in place of those that stand, as many as tell what it says: no line of a job has more than six.
pub fn read_words<'a>(line: &'a [u8], words: &mut Vec<&'a [u8]>) -> Result<(), AllocError>
    ensures { IfOk result (λ _. map (λ word. word.now) words.new.items ≡ take 7 (words_of line.now)) }
{
    words.clear();
    for word in line
        .split(|byte| is_blank(*byte))
        .filter(|word| !word.is_empty())
        .take(7)
    {
        words.push(word)?;
    }
    Ok(())
}

/// Whether a line of these words is skipped.
pub fn is_skipped(words: &[&[u8]]) -> bool
    ensures { result ≡ is_skipped (map (λ word. word.now) words.now) }
{
    match words {
        [] => true,
        [first, ..] => first.first() == Some(&b'#'),
    }
}

const KEYWORDS: &[(&[u8], Keyword)] = &[
    (b"epc", Keyword::Epc),
    (b"marks", Keyword::Marks),
    (b"key", Keyword::Key),
    (b"start", Keyword::Start),
    (b"enclave", Keyword::Enclave),
    (b"tcs", Keyword::Tcs),
    (b"reg", Keyword::Reg),
    (b"expect", Keyword::Expect),
    (b"store", Keyword::Store),
    (b"cpu", Keyword::Cpu),
    (b"eenter", Keyword::Enter),
    (b"eresume", Keyword::Resume),
    (b"eexit", Keyword::Exit),
    (b"timer", Keyword::Timer),
    (b"load", Keyword::Load),
    (b"xadd", Keyword::Xadd),
    (b"set", Keyword::Set),
    (b"plus", Keyword::Plus),
    (b"outload", Keyword::OutLoad),
    (b"outstore", Keyword::OutStore),
];

#[tactic(auto, unfolding(crate::specs::Words::keyword_of))]
pub fn keyword_of(word: &[u8]) -> Option<Keyword>
    ensures { result ≡ keyword_of word.now }
{
    by_name(KEYWORDS, word)
}

const PLAN_WORDS: &[(&[u8], PlanWord)] = &[
    (b"fail", PlanWord::Fail),
    (b"drop", PlanWord::Drop),
    (b"flip", PlanWord::Flip),
    (b"replay", PlanWord::Replay),
    (b"swap", PlanWord::Swap),
];

#[tactic(auto, unfolding(crate::specs::Words::plan_word_of))]
pub fn plan_word_of(word: &[u8]) -> Option<PlanWord>
    ensures { result ≡ plan_word_of word.now }
{
    by_name(PLAN_WORDS, word)
}

const CALL_WORDS: &[(&[u8], CallWord)] = &[
    (b"room", CallWord::Room),
    (b"put", CallWord::Put),
    (b"get", CallWord::Get),
];

#[tactic(auto, unfolding(crate::specs::Words::call_word_of))]
pub fn call_word_of(word: &[u8]) -> Option<CallWord>
    ensures { result ≡ call_word_of word.now }
{
    by_name(CALL_WORDS, word)
}

/// The number that a word is.
pub fn number(word: &[u8]) -> Result<u64, JobKind>
    ensures { result ≡ as_number word.now }
{
    readers::number(word).ok_or(JobKind::Number)
}

/// The number of the enclave that a letter stands for, from 1 for A to 8 for H.
#[tactic(auto, unfolding(text_words::specs::Reading::letter_of))]
pub fn letter(word: &[u8]) -> Result<u16, JobKind>
    ensures reads { result ≡ as_letter word.now }
    ensures few { IfOk result (λ enclave. enclave ≤ 8) }
{
    match word {
        [letter @ b'A'..=b'H'] => Ok(u16::from(letter - b'A') + 1),
        _ => Err(JobKind::Word),
    }
}

// Whether W and X stand in permissions, beside R.
const PERMS: &[(&[u8], (bool, bool))] = &[
    (b"r", (false, false)),
    (b"rw", (true, false)),
    (b"rx", (false, true)),
    (b"rwx", (true, true)),
];

#[tactic(auto, unfolding(crate::specs::Words::perm_of))]
pub fn perm(word: &[u8]) -> Result<Perm, JobKind>
    ensures reads { result ≡ as_perm word.now }
    ensures readable { IfOk result (λ perm. perm.r ≡ true) }
{
    let (w, x) = by_name(PERMS, word).ok_or(JobKind::Word)?;
    Ok(Perm { r: true, w, x })
}

/// The 32 bytes of 64 hexadecimal digits, in either case.
pub fn hash(word: &[u8]) -> Result<[u8; 32], JobKind>
    ensures reads { result ≡ as_hash word.now }
    ensures digest { IfOk result IsDigest }
{
    let Some(digest) = readers::digest(word) else {
        return Err(JobKind::Word);
    };
    Ok(digest)
}

/// Whether a line of pages ends in `plain`.
#[tactic(auto, unfolding(crate::specs::Words::as_plain))]
pub fn plain(words: &[&[u8]]) -> Result<bool, JobKind>
    ensures { result ≡ as_plain (map (λ word. word.now) words.now) }
{
    match words {
        [] => Ok(false),
        [word] if *word == b"plain".as_slice() => Ok(true),
        _ => Err(JobKind::Word),
    }
}
