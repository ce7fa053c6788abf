//! The words of lines, and what they may be: names and numbers.
ghost use Rattle.std.specs.Prelude.{◌≡◌, ◌≢◌, ◌<◌, ◌≤◌, ◌↔◌};
ghost use Rattle.std.specs.Prelude.{ℕ, List, ◌∷◌, ◌++◌, All};
ghost use Rattle.std.specs.Prelude.{IsTrue, IfSome, IfNone, MatchOption};
ghost use Rattle.std.specs.Fmt.{decimal};
ghost use Rattle.std.specs.Str.{IsUtf8};
ghost use Rattle.std.specs.Str.Parse.{digits_value};
ghost use Rattle.rc_dbtext.specs.Words.{BeginsWith, IsNumber, line_of_words};

use crate::lexer::line_words::Words;
use memchr::memchr;

/// Reads the line at the beginning. Returns its words and what follows it, or `None` if no whole
/// line of text stands there.
pub fn words_of(bytes: &[u8]) -> Option<(Words<'_>, &[u8])>
    ensures { MatchOption result
        ((words : List (List ℕ)) (rest : List ℕ) → All IsUtf8 words
        → bytes.now ≡ line_of_words words ++ rest → ⊥)
        (λ read. BeginsWith bytes.now read.0 read.1.now) }
{
    let Some((line, rest)) = cut(bytes) else {
        return None;
    };
    match str::from_utf8(line) {
        Ok(line) => Some((Words::of(line), rest)),
        Err(_) => None,
    }
}

// Splits off the line at the beginning. Returns it without its newline, and what follows it.
fn cut(bytes: &[u8]) -> Option<(&[u8], &[u8])>
    ensures line { IfSome result (λ cut. (bytes.now ≡ cut.0.now ++ 10 ∷ cut.1.now)
        × All (λ byte. byte ≢ 10) cut.0.now) }
    ensures none { IfNone result (All (λ byte. byte ≢ 10) bytes.now) }
{
    let end = memchr(b'\n', bytes)?;
    Some((&bytes[..end], &bytes[end + 1..]))
}

/// Returns true if a word is `text`.
pub fn is(word: &str, text: &str) -> bool
    ensures { IsTrue result ↔ (word.now ≡ text.now) }
{
    word == text
}

/// Returns the number that a word writes, if it is at most `most`.
pub fn number_of(word: &str, most: u32) -> Option<u32>
    ensures { MatchOption result ((n : ℕ) → n ≤ most → word.now ≡ decimal n → ⊥)
        (λ n. (n ≤ most) × (word.now ≡ decimal n)) }
{
    if is_number(word) {
        value_of(word, most)
    } else {
        None
    }
}

/// Returns true if a word is a number in decimal, without a sign and without leading zeros.
pub fn is_number(word: &str) -> bool
    ensures { IsTrue result ↔ IsNumber word.now }
{
    are_number(word.as_bytes())
}

// Returns true if bytes are a number in decimal, without a sign and without leading zeros.
fn are_number(digits: &[u8]) -> bool
    ensures { IsTrue result ↔ IsNumber digits.now }
{
    let is_plain = digits.len() == 1 || digits.first() != Some(&b'0');
    !digits.is_empty() && is_plain && digits.iter().all(u8::is_ascii_digit)
}

/// Returns the number that digits write, if it is at most `most`.
pub fn value_of(digits: &str, most: u32) -> Option<u32>
    requires { IsNumber digits.now }
    ensures { MatchOption result (most < digits_value 10 digits.now)
        (λ n. (n ≤ most) × (n ≡ digits_value 10 digits.now)) }
{
    value_in(digits.as_bytes(), most)
}

// Returns the number that digits write, if it is at most `most`.
fn value_in(digits: &[u8], most: u32) -> Option<u32>
    requires { IsNumber digits.now }
    ensures { MatchOption result (most < digits_value 10 digits.now)
        (λ n. (n ≤ most) × (n ≡ digits_value 10 digits.now)) }
{
    let mut value: u64 = 0;
    for digit in digits {
        value = 10 * value + u64::from(digit - b'0');
        let above = value > u64::from(most);
        if above {
            return None;
        }
    }
    Some(value as u32)
}
