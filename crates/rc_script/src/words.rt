//! The words of a line, and numbers among them.
ghost use Rattle.std.specs.Prelude.{◌≡◌, ◌==◌, ◌||◌, ◌<◌, map, filter};
ghost use Rattle.std.specs.Prelude.{All, IfOk, MatchOption};
ghost use Rattle.std.specs.Str.{IsUtf8, all_ascii_digits};
ghost use Rattle.rc_script.specs.Words.{is_blank, words_in, is_silent, is_digits, limit_of};

use rc_names::NoMem;
use std::alloc::Global;

/// The most digits of a limit.
const MAX_DIGITS: usize = 10;

/// Splits a line into its words, at spaces and tabs.
pub fn words_of<'a>(alloc: Global, line: &'a [u8]) -> Result<Vec<&'a [u8]>, NoMem>
    ensures { IfOk result (λ words. map (λ word. word.now) words.items ≡ words_in line.entry.now) }
{
    line.split(|byte| is_blank(*byte))
        .filter(|word| word.len() > 0)
        .collect(alloc)
}

/// Returns true if a byte is a space or a tab.
fn is_blank(byte: u8) -> bool
    ensures { result ≡ is_blank byte }
{
    byte == b' ' || byte == b'\t'
}

/// Returns true if the words are those of an empty line or a comment.
pub(crate) fn is_silent(words: &[&[u8]]) -> bool
    ensures { result ≡ is_silent (map (λ word. word.now) words.now) }
{
    match words {
        [] => true,
        [first, ..] => matches!(first, [b'#', ..]),
    }
}

/// Returns the words as texts, or `None` if one of them is not UTF-8.
pub fn texts_of<'a>(alloc: Global, words: &[&'a [u8]]) -> Result<Option<Vec<&'a str>>, NoMem>
    ensures { IfOk result (λ texts. MatchOption texts
        (All IsUtf8 (map (λ word. word.now) words.entry.now) → ⊥)
        (λ texts. (map (λ text. text.now) texts.items ≡ map (λ word. word.now) words.entry.now)
        × All IsUtf8 (map (λ word. word.now) words.entry.now))) }
{
    let mut texts = Vec::new(alloc);
    for word in words {
        match str::from_utf8(word) {
            Ok(text) => texts.push(text)?,
            Err(_) => return Ok(None),
        }
    }
    Ok(Some(texts))
}

/// Parses a limit in milliseconds.
pub(crate) fn limit_of(word: &str) -> Option<u32>
    ensures { result ≡ limit_of word.now }
{
    if is_digits(word) && word.len() <= MAX_DIGITS {
        word.parse().ok()
    } else {
        None
    }
}

/// Returns true if a word consists of one digit or more.
pub fn is_digits(word: &str) -> bool
    ensures { result ≡ is_digits word.now }
{
    !word.is_empty() && are_digits(word.as_bytes())
}

/// Returns true if all bytes are digits.
fn are_digits(bytes: &[u8]) -> bool
    ensures { result ≡ all_ascii_digits bytes.now }
{
    for byte in bytes {
        if !byte.is_ascii_digit() {
            return false;
        }
    }
    true
}
