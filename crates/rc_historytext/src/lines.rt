//! The lines of a history's text, a function for each kind of line.
ghost use Rattle.std.specs.Prelude.{◌≡◌, ◌≤◌, ◌<◌, ℕ, Bool, List, [], ◌∷◌, ◌++◌, length};
ghost use Rattle.std.specs.Prelude.{IfOk, IfErr, MatchOption, codes};
ghost use Rattle.std.specs.Fmt.{decimal};
ghost use Rattle.rc_dbtext.specs.Words.{IsPlain};
ghost use Rattle.rc_historytext.specs.Text.{First, IsRename, IsShort, Last, OfMarks, OfPlace};
ghost use Rattle.rc_historytext.specs.Text.{OfRename, RenameCount, RenameText, mark_word};
ghost use Rattle.rc_historytext.specs.Faults.{IsHistoryFault};
ghost use Rattle.rc_historytext.specs.Due.{AtCount, AtLast, AtMarks, AtPlace, AtRename, NoneDue};
ghost use Rattle.rc_historytext.specs.Due.{most_renames};
ghost use Rattle.rc_historytext.specs.Standing.{HasNoBlock, Stands, block};

use crate::fault::HistoryFault;
use crate::forms::RenameForm;
use rc_dbtext::lexer::{
    NameWord, Words, argument, arguments, is, number_line, number_of, words_of,
};

/// The maximum number of generations.
pub(crate) const MAX_GENERATIONS: u32 = 8;

/// Why reading ends early.
pub enum LineFault {
    /// A line that is due is missing. Holds the number of bytes from there to the end.
    Missing(usize),
    Memory,
}

/// Reads the first line and returns the bytes after it.
pub(crate) fn first_line(bytes: &[u8]) -> Result<&[u8], HistoryFault>
    ensures ok { IfOk result (λ rest. Stands bytes.now First rest.now) }
    ensures fault { IfErr result (IsHistoryFault bytes.now) }
{
    let Some((number, rest)) = number_line(bytes, "undorc-history") else {
        return Err(HistoryFault::Bad(0));
    };
    if is(number, "1") {
        Ok(rest)
    } else {
        Err(HistoryFault::Version)
    }
}

/// Reads the line of the present generation's place. Returns the place, the number of generations,
/// and the bytes after the line.
pub(crate) fn place_line(bytes: &[u8]) -> Option<(u32, u32, &[u8])>
    ensures { MatchOption result (NoneDue AtPlace bytes.now)
        (λ read. (read.0 < read.1) × (read.1 ≤ 8)
        × Stands bytes.now (OfPlace read.0 read.1) read.2.now) }
{
    let Some((words, rest)) = words_of(bytes) else {
        return None;
    };
    let Some((present, count)) = place_of(words) else {
        return None;
    };
    Some((present, count, rest))
}

// Parses words into the place of the present generation and the number of generations.
fn place_of(words: Words<'_>) -> Option<(u32, u32)>
    ensures { MatchOption result
        ((present count : ℕ) → present < count → count ≤ 8
        → words.entry ≡ codes "at" ∷ decimal present ∷ codes "of" ∷ decimal count ∷ [] → ⊥)
        (λ place. (place.0 < place.1) × (place.1 ≤ 8)
        × (words.entry ≡ codes "at" ∷ decimal place.0 ∷ codes "of" ∷ decimal place.1 ∷ [])) }
{
    let Some(mut others) = arguments(words, "at") else {
        return None;
    };
    let Some(present) = others.next_word() else {
        return None;
    };
    let Some(count) = argument(others, "of") else {
        return None;
    };
    below(present, count)
}

// Parses two numbers, of which the first must be below the second.
fn below(present: &str, count: &str) -> Option<(u32, u32)>
    ensures { MatchOption result
        ((n m : ℕ) → n < m → m ≤ 8 → present.now ≡ decimal n → count.now ≡ decimal m → ⊥)
        (λ place. (place.0 < place.1) × (place.1 ≤ 8)
        × (present.now ≡ decimal place.0) × (count.now ≡ decimal place.1)) }
{
    let Some(count) = number_of(count, MAX_GENERATIONS) else {
        return None;
    };
    let Some(present) = number_of(present, MAX_GENERATIONS) else {
        return None;
    };
    let is_there = present < count;
    if is_there {
        Some((present, count))
    } else {
        None
    }
}

/// Reads the line of a generation's marks. Returns whether its first and its last state are passed,
/// and the bytes after the line.
pub(crate) fn marks_line(bytes: &[u8]) -> Option<(bool, bool, &[u8])>
    ensures { MatchOption result
        ((oldest : Bool) (more : ℕ) → NoneDue (AtMarks oldest more) bytes.now)
        (λ read. Stands bytes.now (OfMarks read.0 read.1) read.2.now) }
{
    let Some((words, rest)) = words_of(bytes) else {
        return None;
    };
    let Some((first, last)) = two_arguments(words, "generation") else {
        return None;
    };
    let Some((first, last)) = both_marks(first, last) else {
        return None;
    };
    Some((first, last, rest))
}

// Parses the words of two marks.
fn both_marks(first: &str, last: &str) -> Option<(bool, bool)>
    ensures { MatchOption result
        ((a b : Bool) → first.now ≡ mark_word a → last.now ≡ mark_word b → ⊥)
        (λ marks. (first.now ≡ mark_word marks.0) × (last.now ≡ mark_word marks.1)) }
{
    let Some(first) = mark_of(first) else {
        return None;
    };
    let Some(last) = mark_of(last) else {
        return None;
    };
    Some((first, last))
}

// Parses the word of a mark. Returns true for a passed state and false for a stop.
fn mark_of(word: &str) -> Option<bool>
    ensures { MatchOption result ((passed : Bool) → word.now ≡ mark_word passed → ⊥)
        (λ passed. word.now ≡ mark_word passed) }
{
    if is(word, "passed") {
        Some(true)
    } else if is(word, "stop") {
        Some(false)
    } else {
        None
    }
}

/// Reads a line of the given word and a length, and the text of that length after it. Returns the
/// text and the bytes after it.
pub(crate) fn text_line<'a>(bytes: &'a [u8], word: &str) -> Option<(&'a [u8], &'a [u8])>
    requires { IsPlain word.now }
    ensures { MatchOption result (HasNoBlock word.now bytes.now)
        (λ read. IsShort read.0.now × (bytes.now ≡ block word.now read.0.now ++ read.1.now)) }
{
    let Some((words, rest)) = words_of(bytes) else {
        return None;
    };
    let Some(long) = argument(words, word) else {
        return None;
    };
    let Some(long) = number_of(long, u32::MAX) else {
        return None;
    };
    let Some((text, behind)) = cut(rest, long as usize) else {
        return None;
    };
    Some((text, behind))
}

// Splits bytes after the given length, if there are that many.
fn cut(bytes: &[u8], long: usize) -> Option<(&[u8], &[u8])>
    ensures { MatchOption result
        ((text rest : List ℕ) → length text ≡ long → bytes.now ≡ text ++ rest → ⊥)
        (λ cut. (length cut.0.now ≡ long) × (bytes.now ≡ cut.0.now ++ cut.1.now)) }
{
    if bytes.len() < long {
        return None;
    }
    Some((&bytes[..long], &bytes[long..]))
}

/// Reads the line of a generation's number of renames. Returns the number and the bytes after the
/// line. The oldest generation has no renames.
pub(crate) fn count_line(bytes: &[u8], is_oldest: bool) -> Option<(u32, &[u8])>
    ensures { MatchOption result ((more : ℕ) → NoneDue (AtCount is_oldest more) bytes.now)
        (λ read. (read.0 ≤ most_renames is_oldest)
        × Stands bytes.now (RenameCount read.0) read.1.now) }
{
    let Some((words, rest)) = words_of(bytes) else {
        return None;
    };
    let Some(count) = argument(words, "renames") else {
        return None;
    };
    let Some(count) = number_of(count, most_renames(is_oldest)) else {
        return None;
    };
    Some((count, rest))
}

// Returns the maximum number of renames of a generation.
fn most_renames(is_oldest: bool) -> u32
    ensures { result ≡ most_renames is_oldest }
{
    if is_oldest { 0 } else { 4096 }
}

/// Reads the line of a rename. Returns the rename and the bytes after the line.
pub(crate) fn rename_line(bytes: &[u8]) -> Option<(RenameForm<'_>, &[u8])>
    ensures { MatchOption result ((left more : ℕ) → NoneDue (AtRename left more) bytes.now)
        (λ read. IsRename read.0 × Stands bytes.now (OfRename read.0) read.1.now) }
{
    let Some((words, rest)) = words_of(bytes) else {
        return None;
    };
    let Some((old, new)) = two_arguments(words, "rename") else {
        return None;
    };
    let Some(rename) = rename_of(old, new) else {
        return None;
    };
    Some((rename, rest))
}

// Parses two words into a rename.
fn rename_of<'a>(old: &'a str, new: &'a str) -> Option<RenameForm<'a>>
    ensures { MatchOption result
        ((r : RenameText) → IsRename r → old.now ≡ r.old → new.now ≡ r.new → ⊥)
        (λ rename. IsRename rename × (rename.old ≡ old.now) × (rename.new ≡ new.now)) }
{
    let Some(old) = NameWord::read(old) else {
        return None;
    };
    let Some(new) = NameWord::read(new) else {
        return None;
    };
    Some(RenameForm { old, new })
}

// Returns the two words after the given first word, if there are exactly two.
fn two_arguments<'a>(words: Words<'a>, word: &str) -> Option<(&'a str, &'a str)>
    ensures { MatchOption result
        ((a b : List ℕ) → words.entry ≡ word.now ∷ a ∷ b ∷ [] → ⊥)
        (λ two. words.entry ≡ word.now ∷ two.0.now ∷ two.1.now ∷ []) }
{
    let mut others = arguments(words, word)?;
    let first = others.next_word()?;
    let second = others.next_word()?;
    match others.next_word() {
        Some(_) => None,
        None => Some((first, second)),
    }
}

/// Reads the last line and returns the bytes after it.
pub(crate) fn last_line(bytes: &[u8]) -> Option<&[u8]>
    ensures { MatchOption result (NoneDue AtLast bytes.now)
        (λ rest. Stands bytes.now Last rest.now) }
{
    let Some((words, rest)) = words_of(bytes) else {
        return None;
    };
    let Some(mut others) = arguments(words, "end") else {
        return None;
    };
    match others.next_word() {
        Some(_) => None,
        None => Some(rest),
    }
}
