//! The words and texts of lines, and where they are missing.
ghost use Rattle.std.specs.Prelude.{◌≡◌, ℕ, List, [], ◌∷◌, ◌++◌, length};
ghost use Rattle.std.specs.Prelude.{IfOk, IfErr, MatchOption};
ghost use Rattle.rc_db.specs.Service.{IsScript};
ghost use Rattle.rc_dbtext.specs.Text.{line_of_words};
ghost use Rattle.rc_dbtext.specs.Reading.{IsNumber, IsNoNumber};
ghost use Rattle.rc_dbtext.specs.LineValues.{BeginsWith, IsPlain, IsNoLine};

use crate::lexer::Words;
use crate::syntax::fault::FormFault;

/// The most bytes of a oneshot's text.
pub(crate) const MAX_TEXT: u32 = 65_536;

/// Reads the line at the beginning. Returns its words and what follows it.
pub(crate) fn words_of(bytes: &[u8]) -> Result<(Words<'_>, &[u8]), FormFault>
    ensures ok { IfOk result (λ read. BeginsWith bytes.now read.0 read.1.now) }
    ensures fault { IfErr result (λ fault. IsNoLine bytes.now fault) }
{
    match crate::lexer::words_of(bytes) {
        Some((words, rest)) => Ok((words, rest)),
        None => Err(FormFault::Bad(bytes.len())),
    }
}

/// Reads a line of two words at the beginning: `word`, and a number. Returns the number and what
/// follows that line.
pub(crate) fn number_line<'a>(bytes: &'a [u8], word: &str) -> Result<(&'a str, &'a [u8]), FormFault>
    requires { IsPlain word.now }
    ensures ok { IfOk result (λ read. IsNumber read.0.now
        × (bytes.now ≡ line_of_words (word.now ∷ read.0.now ∷ []) ++ read.1.now)) }
    ensures fault { IfErr result (IsNoNumber word.now bytes.now) }
{
    match crate::lexer::number_line(bytes, word) {
        Some((number, rest)) => Ok((number, rest)),
        None => Err(FormFault::Bad(bytes.len())),
    }
}

/// Reads a text of `long` bytes with its newline, if one stands here. Returns it and what follows
/// it.
pub(crate) fn text_of(bytes: &[u8], long: u32) -> Option<(&str, &[u8])>
    ensures { MatchOption result
        ((text rest : List ℕ) → IsScript text → length text ≡ long → bytes.now
        ≡ text ++ 10 ∷ [] ++ rest → ⊥)
        (λ read. IsScript read.0.now × (length read.0.now ≡ long) × (bytes.now
        ≡ read.0.now ++ 10 ∷ [] ++ read.1.now)) }
{
    let Some((text, rest)) = cut(bytes, long as usize) else {
        return None;
    };
    match script_of(text) {
        Some(text) => Some((text, rest)),
        None => None,
    }
}

// Splits off the first `long` bytes, if a newline follows them. Returns them and what follows the
// newline.
fn cut(bytes: &[u8], long: usize) -> Option<(&[u8], &[u8])>
    ensures { MatchOption result
        ((text rest : List ℕ) → length text ≡ long → bytes.now ≡ text ++ 10 ∷ [] ++ rest → ⊥)
        (λ cut. (length cut.0.now ≡ long) × (bytes.now ≡ cut.0.now ++ 10 ∷ [] ++ cut.1.now)) }
{
    if bytes.len() <= long || bytes[long] != b'\n' {
        return None;
    }
    Some((&bytes[..long], &bytes[long + 1..]))
}

// Returns the bytes as the text of a oneshot, if they are one.
fn script_of(bytes: &[u8]) -> Option<&str>
    ensures { MatchOption result (IsScript bytes.now → ⊥)
        (λ text. (text.now ≡ bytes.now) × IsScript bytes.now) }
{
    if bytes.len() > MAX_TEXT as usize || bytes.contains(&0) {
        return None;
    }
    match str::from_utf8(bytes) {
        Ok(text) => Some(text),
        Err(_) => None,
    }
}
