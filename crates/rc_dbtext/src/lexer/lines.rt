//! What lines have in common: a word with what follows it, and bundles.
ghost use Rattle.std.specs.Prelude.{◌≡◌, ℕ, List, [], ◌∷◌, ◌++◌, MatchOption};
ghost use Rattle.rc_dbtext.specs.Words.{IsNumber, IsPlain, HasNumber, line_of_words};

use crate::lexer::line_words::Words;
use crate::lexer::name_word::NameWord;
use crate::lexer::words::{is, is_number, words_of};
use std::marker::Model;

/// A bundle as a text gives it.
#[derive(Drop)]
pub struct BundleForm<'a> {
    pub name: NameWord<'a>,
    pub members: Vec<NameWord<'a>>,
}

impl<'a> Model for BundleForm<'a> {
    ghost use Rattle.rc_dbtext.specs.Words.{BundleText};

    ghost Value = { BundleText };

    ghost view = { λ b. record { name = b.name; members = b.members.items } };
}

/// Reads a line of two words at the beginning: `word`, and a number. Returns the number and what
/// follows that line.
pub fn number_line<'a>(bytes: &'a [u8], word: &str) -> Option<(&'a str, &'a [u8])>
    requires { IsPlain word.now }
    ensures { MatchOption result
        (HasNumber word.now (λ _. Unit {0}) bytes.now → ⊥)
        (λ read. IsNumber read.0.now
        × (bytes.now ≡ line_of_words (word.now ∷ read.0.now ∷ []) ++ read.1.now)) }
{
    let Some((words, rest)) = words_of(bytes) else {
        return None;
    };
    let Some(number) = argument(words, word) else {
        return None;
    };
    if is_number(number) {
        Some((number, rest))
    } else {
        None
    }
}

/// Returns the one word after `word`, if these two are all the words.
pub fn argument<'a>(words: Words<'a>, word: &str) -> Option<&'a str>
    ensures { MatchOption result ((other : List ℕ) → words.entry ≡ word.now ∷ other ∷ [] → ⊥)
        (λ other. words.entry ≡ word.now ∷ other.now ∷ []) }
{
    let mut others = arguments(words, word)?;
    let argument = others.next_word()?;
    match others.next_word() {
        Some(_) => None,
        None => Some(argument),
    }
}

/// Returns the words after `word`, if it is the first.
pub fn arguments<'a>(words: Words<'a>, word: &str) -> Option<Words<'a>>
    ensures { MatchOption result ((others : List (List ℕ)) → words.entry ≡ word.now ∷ others → ⊥)
        (λ others. words.entry ≡ word.now ∷ others) }
{
    let mut others = words;
    let first = others.next_word()?;
    if is(first, word) { Some(others) } else { None }
}
