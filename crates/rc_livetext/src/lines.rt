//! The lines of a live text, each parsed by itself, wherever it stands.
ghost use Rattle.std.specs.Prelude.{◌≡◌, ℕ, List, [], ◌∷◌, ◌++◌, Bool, codes};
ghost use Rattle.std.specs.Prelude.{IfOk, MatchOption};
ghost use Rattle.std.specs.Fmt.{decimal};
ghost use Rattle.rc_livetext.specs.Text as text;
ghost use Rattle.rc_livetext.specs.Text.{AreAscending, IsBound, version_word, spell};
ghost use Rattle.rc_livetext.specs.Saying.{IsSaid, Says, SaysNone};
ghost use Rattle.rc_livetext.specs.FormText.{line_text};

use rc_dbtext::lexer::{BundleForm, NameWord, Words, ascend, is, names_of, number_of, words_of};
use std::alloc::{AllocError, Global};

/// A line of a live text.
#[derive(Drop)]
pub enum LineForm<'a> {
    First(bool),
    Services(Vec<NameWord<'a>>),
    Bound(u32),
    State(bool, Vec<NameWord<'a>>),
    Bundle(BundleForm<'a>),
    Last,
}

/// Reads the line at the front of bytes. Returns it and the bytes after it, or `None` if no line of
/// a live text stands there.
pub(crate) fn line_of<'a>(
    alloc: Global,
    bytes: &'a [u8],
) -> Result<Option<(LineForm<'a>, &'a [u8])>, AllocError>
    ensures { IfOk result (λ read. MatchOption read
        ((l : text.Line) (tail : List ℕ) → IsSaid l → bytes.now ≡ spell l ++ tail → ⊥)
        (λ read. IsSaid (line_text read.0)
        × (bytes.now ≡ spell (line_text read.0) ++ read.1.now))) }
{
    let Some((words, rest)) = words_of(bytes) else {
        return Ok(None);
    };
    match said(alloc, words)? {
        Some(line) => Ok(Some((line, rest))),
        None => Ok(None),
    }
}

// Parses words into a line, if they are those of a line.
fn said<'a>(alloc: Global, words: Words<'a>) -> Result<Option<LineForm<'a>>, AllocError>
    ensures { IfOk result (λ line. MatchOption line
        (SaysNone words.entry) (λ line. Says words.entry (line_text line))) }
{
    let mut others = words;
    let Some(first) = others.next_word() else {
        return Ok(None);
    };
    if is(first, "now") {
        said_state(alloc, true, others)
    } else if is(first, "up") {
        said_state(alloc, false, others)
    } else if is(first, "bundle") {
        said_bundle(alloc, others)
    } else if is(first, "services") {
        said_services(alloc, others)
    } else {
        Ok(said_plainly(first, others))
    }
}

// Parses the words after the first one into the line of a state.
fn said_state<'a>(
    alloc: Global,
    current: bool,
    others: Words<'a>,
) -> Result<Option<LineForm<'a>>, AllocError>
    ensures { IfOk result (λ line. MatchOption line
        (SaysNone (text.state_word current ∷ others.entry))
        (λ line. Says (text.state_word current ∷ others.entry)
        (line_text line))) }
{
    match ascending(alloc, others)? {
        Some(names) => Ok(Some(LineForm::State(current, names))),
        None => Ok(None),
    }
}

// Parses the words after the first one into the line of services.
fn said_services<'a>(alloc: Global, others: Words<'a>) -> Result<Option<LineForm<'a>>, AllocError>
    ensures { IfOk result (λ line. MatchOption line
        (SaysNone (codes "services" ∷ others.entry))
        (λ line. Says (codes "services" ∷ others.entry) (line_text line))) }
{
    match ascending(alloc, others)? {
        Some(names) => Ok(Some(LineForm::Services(names))),
        None => Ok(None),
    }
}

// Parses the words after the first one into the line of a bundle.
fn said_bundle<'a>(alloc: Global, others: Words<'a>) -> Result<Option<LineForm<'a>>, AllocError>
    ensures { IfOk result (λ line. MatchOption line
        (SaysNone (codes "bundle" ∷ others.entry))
        (λ line. Says (codes "bundle" ∷ others.entry) (line_text line))) }
{
    let mut members = others;
    let Some(name) = members.next_word() else {
        return Ok(None);
    };
    let Some(name) = NameWord::read(name) else {
        return Ok(None);
    };
    match ascending(alloc, members)? {
        Some(members) => Ok(Some(LineForm::Bundle(BundleForm { name, members }))),
        None => Ok(None),
    }
}

// Parses a first word and others into a line that has no names.
fn said_plainly<'a>(first: &str, others: Words<'_>) -> Option<LineForm<'a>>
    requires now { first.now ≡ codes "now" → ⊥ }
    requires up { first.now ≡ codes "up" → ⊥ }
    requires bundle { first.now ≡ codes "bundle" → ⊥ }
    requires services { first.now ≡ codes "services" → ⊥ }
    ensures { MatchOption result (SaysNone (first.now ∷ others.entry))
        (λ line. Says (first.now ∷ others.entry) (line_text line)) }
{
    let mut left = others;
    let Some(other) = left.next_word() else {
        return said_alone(first);
    };
    match left.next_word() {
        Some(_) => None,
        None => said_of_two(first, other),
    }
}

// Parses one word into a line that has no names.
fn said_alone<'a>(first: &str) -> Option<LineForm<'a>>
    requires now { first.now ≡ codes "now" → ⊥ }
    requires up { first.now ≡ codes "up" → ⊥ }
    requires bundle { first.now ≡ codes "bundle" → ⊥ }
    requires services { first.now ≡ codes "services" → ⊥ }
    ensures { MatchOption result (SaysNone (first.now ∷ []))
        (λ line. Says (first.now ∷ []) (line_text line)) }
{
    if is(first, "end") {
        Some(LineForm::Last)
    } else {
        None
    }
}

// Parses two words into a line that has no names.
fn said_of_two<'a>(first: &str, other: &str) -> Option<LineForm<'a>>
    requires now { first.now ≡ codes "now" → ⊥ }
    requires up { first.now ≡ codes "up" → ⊥ }
    requires bundle { first.now ≡ codes "bundle" → ⊥ }
    requires services { first.now ≡ codes "services" → ⊥ }
    ensures { MatchOption result (SaysNone (first.now ∷ other.now ∷ []))
        (λ line. Says (first.now ∷ other.now ∷ []) (line_text line)) }
{
    if is(first, "bound") {
        let bound = bound_of(other)?;
        Some(LineForm::Bound(bound))
    } else if is(first, "undorc-live") {
        let bounded = version_of(other)?;
        Some(LineForm::First(bounded))
    } else {
        None
    }
}

// Parses a word into a bound.
fn bound_of(word: &str) -> Option<u32>
    ensures { MatchOption result ((n : ℕ) → IsBound n → word.now ≡ decimal n → ⊥)
        (λ n. IsBound n × (word.now ≡ decimal n)) }
{
    let bound = number_of(word, u32::MAX)?;
    let is_enough = bound >= 3;
    if is_enough { Some(bound) } else { None }
}

/// Parses the word of a version. Returns true if a text of that version has a bound.
pub(crate) fn version_of(word: &str) -> Option<bool>
    ensures { MatchOption result ((bounded : Bool) → word.now ≡ version_word bounded → ⊥)
        (λ bounded. word.now ≡ version_word bounded) }
{
    if is(word, "2") {
        Some(true)
    } else if is(word, "1") {
        Some(false)
    } else {
        None
    }
}

// Parses words into names, if each is a name and they ascend.
fn ascending<'a>(alloc: Global, words: Words<'a>) -> Result<Option<Vec<NameWord<'a>>>, AllocError>
    ensures { IfOk result (λ names. MatchOption names
        (AreAscending words.entry → ⊥)
        (λ names. (names.items ≡ words.entry) × AreAscending words.entry)) }
{
    let Some(names) = names_of(alloc, words)? else {
        return Ok(None);
    };
    if ascend(names.as_slice()) {
        Ok(Some(names))
    } else {
        Ok(None)
    }
}
