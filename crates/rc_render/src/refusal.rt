//! Refusals as text.
ghost use Rattle.std.specs.Prelude.{◌≡◌, [], ◌∷◌, ◌++◌, map, string_bytes, codes, slice_index_or};
ghost use Rattle.std.specs.Prelude.{IfOk};
ghost use Rattle.rc_render.specs.Lines.{line};
ghost use Rattle.rc_session.specs.Commands.{command_of};
ghost use Rattle.rc_render.specs.AnswerText.{words_of};
ghost use Rattle.rc_render.specs.RefusalText.{place_of, refusal_words, refusal_text};
ghost use Rattle.rc_render.specs.UnknownWord.{unknown_word};

use rc_names::Name;
use rc_session::{Refusal, Step};
use rc_set::NoMem;
use std::alloc::Global;

/// Returns the answer to a refused command, by its words.
pub fn refusal_text(alloc: Global, words: &[String], refusal: Refusal) -> Result<Vec<u8>, NoMem>
    ensures { IfOk result (λ text. text.items ≡ refusal_text (map string_bytes words.now) refusal) }
{
    refused(alloc, word_at(words, place_of(refusal)), refusal)
}

/// Returns the answer to a refused step.
pub fn step_refusal_text(alloc: Global, step: &Step, refusal: Refusal) -> Result<Vec<u8>, NoMem>
    ensures { IfOk result (λ text. text.items
        ≡ refusal_text (words_of (command_of step.now)) refusal) }
{
    match step {
        Step::Change(request, _) => refusal_text(alloc, &request.names, refusal),
        Step::Undo(_, _) | Step::Redo(_, _) => refusal_text(alloc, &[], refusal),
        Step::Add(name, contents, _) => add_refusal_text(alloc, name, contents, refusal),
        Step::Delete(names, _) => refusal_text(alloc, names, refusal),
    }
}

/// Returns the answer to a refused definition. Its name is its first word.
pub fn add_refusal_text(
    alloc: Global,
    name: &Name,
    contents: &[String],
    refusal: Refusal,
) -> Result<Vec<u8>, NoMem>
    ensures { IfOk result (λ text. text.items
        ≡ refusal_text (name.now ∷ map string_bytes contents.now) refusal) }
{
    let word = match place_of(refusal) {
        0 => name.text().as_bytes(),
        place => word_at(contents, place - 1),
    };
    refused(alloc, word, refusal)
}

/// Returns the line of a refusal, with the word that it is about.
fn refused(alloc: Global, word: &[u8], refusal: Refusal) -> Result<Vec<u8>, NoMem>
    ensures { IfOk result (λ text. text.items
        ≡ line (codes "refused " ++ refusal_words word.now refusal)) }
{
    let told = words(alloc, word, refusal)?;
    let mut text = Vec::from_slice(alloc, b"refused ")?;
    text.extend_from_slice(&told)?;
    text.push(b'\n')?;
    Ok(text)
}

/// Returns the name of a refusal, with the word or the number that it reports.
fn words(alloc: Global, word: &[u8], refusal: Refusal) -> Result<Vec<u8>, NoMem>
    ensures { IfOk result (λ text. text.items ≡ refusal_words word.now refusal) }
{
    match refusal {
        Refusal::BadEvent(place) => Ok(format!(in alloc; "BadEvent {place}")?.into_bytes()),
        Refusal::NotSettled(place) => Ok(format!(in alloc; "NotSettled {place}")?.into_bytes()),
        Refusal::PruneNeedsUp => Vec::from_slice(alloc, b"PruneNeedsUp"),
        Refusal::Unknown(_) => joined(alloc, b"Unknown ", word),
        Refusal::IsAtomic(_) => joined(alloc, b"IsAtomic ", word),
        Refusal::Exists => joined(alloc, b"Exists ", word),
        Refusal::Missing(_) => joined(alloc, b"Missing ", word),
        Refusal::Full => Vec::from_slice(alloc, b"Full"),
        Refusal::NothingToUndo => Vec::from_slice(alloc, b"NothingToUndo"),
        Refusal::NothingToRedo => Vec::from_slice(alloc, b"NothingToRedo"),
        Refusal::NotEdit => Vec::from_slice(alloc, b"NotEdit"),
        Refusal::Strange => Vec::from_slice(alloc, b"Strange"),
        Refusal::Memory => Vec::from_slice(alloc, b"Memory"),
    }
}

fn joined(alloc: Global, front: &[u8], word: &[u8]) -> Result<Vec<u8>, NoMem>
    ensures { IfOk result (λ text. text.items ≡ front.now ++ word.now) }
{
    let mut text = Vec::from_slice(alloc, front)?;
    text.extend_from_slice(word)?;
    Ok(text)
}

/// Returns the place of the word that a refusal is about.
fn place_of(refusal: Refusal) -> usize
    ensures { result ≡ place_of refusal }
{
    match refusal {
        Refusal::Unknown(place) | Refusal::IsAtomic(place) | Refusal::Missing(place) => place,
        _ => 0,
    }
}

/// Returns the word at a place, or an empty word after the last one.
fn word_at(words: &[String], place: usize) -> &[u8]
    ensures { result.now ≡ slice_index_or (map string_bytes words.now) place [] }
{
    match words.get(place) {
        Some(word) => word.as_bytes(),
        None => b"",
    }
}

/// Returns the refusal of an unknown name in words, with the name.
pub fn unknown_word(alloc: Global, name: &[u8]) -> Result<Vec<u8>, NoMem>
    ensures { IfOk result (λ text. text.items ≡ unknown_word name.now) }
{
    let mut text = Vec::from_slice(alloc, b"Unknown ")?;
    text.extend_from_slice(name)?;
    Ok(text)
}
