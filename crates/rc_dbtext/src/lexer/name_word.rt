//! Names as words of the text that they stand in.
ghost use Rattle.std.specs.Prelude.{◌≡◌, All, IfOk, MatchOption};
ghost use Rattle.rc_model.specs.Names.{IsName};

use crate::lexer::line_words::Words;
use rc_names::{Name, is_name};
use std::alloc::{AllocError, Global};
use std::marker::Model;

/// A word that is a name. It is a slice of the text that it stands in, and nothing is copied.
#[derive(Drop)]
pub struct NameWord<'a> {
    text: &'a str,
}

impl<'a> Model for NameWord<'a> {
    ghost use Rattle.std.specs.Prelude.{ℕ, List};
    ghost use Rattle.rc_model.specs.Names.{IsName};

    ghost Value = { List ℕ };

    ghost view = { λ word. word.text.now };

    ghost invariant = { λ word. IsName word.text.now };
}

impl<'a> NameWord<'a> {
    /// Returns the word as a name, if it is one.
    pub fn read(word: &'a str) -> Option<NameWord<'a>>
        ensures { MatchOption result (IsName word.now → ⊥)
            (λ name. (name ≡ word.now) × IsName word.now) }
    {
        if is_name(word) {
            Some(NameWord { text: word })
        } else {
            None
        }
    }

    /// Returns the name as text.
    pub fn text(&self) -> &str
        ensures bytes { result.now ≡ self.now }
        ensures name { IsName self.now }
    {
        self.text
    }

    /// Returns a copy of the name that stands by itself.
    pub fn copy(&self, alloc: Global) -> Result<Name, AllocError>
        ensures { IfOk result (λ name. name ≡ self.now) }
    {
        Name::of(alloc, self.text())
    }
}

/// Returns the words as names, if each is one.
pub fn names_of<'a>(
    alloc: Global,
    words: Words<'a>,
) -> Result<Option<Vec<NameWord<'a>>>, AllocError>
    ensures { IfOk result (λ names. MatchOption names (All IsName words.entry → ⊥)
        (λ names. (names.items ≡ words.entry) × All IsName names.items)) }
{
    let mut left = words;
    let mut names = Vec::with_capacity(alloc, left.count())?;
    while let Some(word) = left.next_word() {
        match NameWord::read(word) {
            Some(name) => names.push(name)?,
            None => return Ok(None),
        }
    }
    Ok(Some(names))
}
