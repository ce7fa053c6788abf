//! The list of transitions that are to fail, as words: `none`, or `up:NAME` and
//! `down:NAME` with commas between them.

ghost use Rattle.std.specs.Prelude.{◌≡◌, ◌≢◌, ◌++◌, ◌∷◌, ◌↔◌, ℕ, List, [], map, codes, IsTrue};
ghost use Rattle.std.specs.Prelude.{IfOk, OnOk, IfSome, IfNone};
ghost use Rattle.rc_args.specs.Listed.{Listed, AreSpelled, IsSpelled, SpellsList, words_in};
ghost use Rattle.rc_args.specs.Reading.{listed_of};

use rc_graph::Way;
use std::alloc::{AllocError, Global};
use thiserror::Error;

/// A transition as it is named: which way the service of this name goes.
#[derive(Clone, Copy)]
pub struct Transition<'a> {
    pub way: Way,
    pub name: &'a [u8],
}

/// Why a text is no list of transitions.
#[derive(Clone, Copy, PartialEq, Eq, Debug, Error)]
pub enum ListFault {
    /// The text is malformed.
    #[error("no list of transitions")]
    Form,
    #[error("out of memory")]
    Memory,
}

impl From<AllocError> for ListFault {
    ghost use Rattle.std.specs.Prelude.{◌≡◌};
    ghost use Rattle.rc_args.specs.declared.transitions.ListFault.TheVariants.{Memory};

    ghost from_gives = { λ _ fault. fault ≡ Memory };

    fn from(_: AllocError) -> ListFault {
        ListFault::Memory
    }
}

/// Parses a list of transitions: `none`, or `up:NAME` and `down:NAME` with commas between them.
pub fn transitions_of<'a>(alloc: Global, list: &'a [u8]) -> Result<Vec<Transition<'a>>, ListFault>
    ensures list { IfOk result (λ all. SpellsList list.entry.now (map listed_of all.items)) }
    ensures wrong { result ≡ Err ListFault.Form → (all : List Listed) →
        SpellsList list.entry.now all → ⊥ }
{
    if is_none(list) {
        return Ok(Vec::new(alloc));
    }
    let words = words_of(alloc, list)?;
    listed(alloc, &words)
}

/// Parses one transition from each word.
fn listed<'a>(alloc: Global, words: &[&'a [u8]]) -> Result<Vec<Transition<'a>>, ListFault>
    ensures list { IfOk result (λ all. AreSpelled (map (λ word. word.now) words.now)
        (map listed_of all.items)) }
    ensures wrong { result ≡ Err ListFault.Form → (all : List Listed) →
        AreSpelled (map (λ word. word.now) words.now) all → ⊥ }
{
    let mut all = Vec::new(alloc);
    for word in words {
        match transition_of(word) {
            Some(transition) => add(&mut all, transition)?,
            None => return Err(ListFault::Form),
        }
    }
    Ok(all)
}

/// Appends a transition to others.
fn add<'a>(all: &mut Vec<Transition<'a>>, transition: Transition<'a>) -> Result<(), AllocError>
    ensures { OnOk result (all.new.items ≡ all.old.items ++ transition.entry ∷ []) }
{
    Ok(all.push(transition)?)
}

/// Splits a list at its commas.
fn words_of<'a>(alloc: Global, list: &'a [u8]) -> Result<Vec<&'a [u8]>, AllocError>
    ensures { IfOk result (λ words. map (λ word. word.now) words.items ≡ words_in list.entry.now) }
{
    list.split(|byte| *byte == b',').collect(alloc)
}

/// Returns true if the list is `none`, which stands for the empty list.
fn is_none(list: &[u8]) -> bool
    ensures { IsTrue result ↔ (list.now ≡ codes "none") }
{
    list == b"none".as_slice()
}

/// Returns the transition that a word names, or `None` if it names none.
fn transition_of<'a>(word: &'a [u8]) -> Option<Transition<'a>>
    ensures some { IfSome result (λ one. IsSpelled word.entry.now (listed_of one)) }
    ensures none { IfNone result ((one : Listed) → IsSpelled word.entry.now one → ⊥) }
{
    if let Some(name) = behind(word, b"up:") {
        return Some(Transition {
            way: Way::Raise,
            name,
        });
    }
    match behind(word, b"down:") {
        Some(name) => Some(Transition {
            way: Way::Lower,
            name,
        }),
        None => None,
    }
}

/// Returns what follows the prefix of a word. Returns `None` if the word lacks the prefix or
/// nothing follows it.
fn behind<'a>(word: &'a [u8], front: &[u8]) -> Option<&'a [u8]>
    ensures some { IfSome result (λ rest.
        (word.entry.now ≡ front.now ++ rest.now) × (rest.now ≢ [])) }
    ensures none { IfNone result ((rest : List ℕ) → word.entry.now ≡ front.now ++ rest →
        rest ≡ []) }
{
    match word.strip_prefix(front) {
        Some(rest) => { if rest.is_empty() { None } else { Some(rest) } }
        None => None,
    }
}
