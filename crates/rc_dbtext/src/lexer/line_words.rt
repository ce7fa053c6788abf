//! The words of a line, taken one by one.
ghost use Rattle.std.specs.Prelude.{◌≡◌, ◌≢◌, ◌==◌, [], ◌∷◌, ◌++◌, All};
ghost use Rattle.std.specs.Prelude.{IfSome, IfNone, MatchOption};
ghost use Rattle.std.specs.List.{slice_split};

use memchr::{memchr, memchr_iter};
use std::marker::Model;

/// The words of a line that were not taken yet. Each is a slice of the line, and nothing is copied.
#[derive(Drop)]
pub struct Words<'a> {
    // The line from the next word on, where there is one.
    rest: Option<&'a str>,
}

impl<'a> Model for Words<'a> {
    ghost use Rattle.std.specs.Prelude.{ℕ, List};
    ghost use Rattle.std.specs.Option.{option_map};
    ghost use Rattle.rc_dbtext.specs.Words.{words_left};

    ghost Value = { List (List ℕ) };

    ghost view = { λ words. words_left (option_map (λ text. text.now) words.rest) };
}

impl<'a> Words<'a> {
    /// Returns the words of a line, which is given without its newline.
    pub(crate) fn of(line: &'a str) -> Words<'a>
        ensures { result ≡ slice_split (λ byte. byte == 32) line.now }
    {
        Words { rest: Some(line) }
    }

    /// Takes the next word, if one is left.
    pub fn next_word(&mut self) -> Option<&'a str>
        ensures { MatchOption result ((self.old ≡ []) × (self.new ≡ []))
            (λ word. self.old ≡ word.now ∷ self.new) }
    {
        let line = self.rest?;
        match cut(line) {
            Some((word, others)) => {
                self.rest = Some(others);
                Some(word)
            }
            None => {
                self.rest = None;
                Some(line)
            }
        }
    }

    /// Returns the number of words that are left, to reserve room in advance.
    pub fn count(&self) -> usize {
        match self.rest {
            Some(line) => memchr_iter(b' ', line.as_bytes()).count().saturating_add(1),
            None => 0,
        }
    }
}

// Splits a line that has more than one word. Returns the first word and the line of the others.
fn cut(line: &str) -> Option<(&str, &str)>
    ensures some { IfSome result (λ cut. (line.now ≡ cut.0.now ++ 32 ∷ cut.1.now)
        × All (λ byte. byte ≢ 32) cut.0.now) }
    ensures none { IfNone result (All (λ byte. byte ≢ 32) line.now) }
{
    let end = memchr(b' ', line.as_bytes())?;
    Some((&line[..end], &line[end + 1..]))
}
