//! From a history to its text.
ghost use Rattle.std.specs.Prelude.{◌≡◌, [], ◌∷◌, ◌++◌, map, IfOk, OnOk};
ghost use Rattle.std.specs.List.{flat_map};
ghost use Rattle.rc_dbtext.specs.Words.{line_of_words};
ghost use Rattle.rc_dbtext.specs.Form.{spells};
ghost use Rattle.rc_historytext.specs.Text.{First, OfMarks, OfPlace, OfRename, generation_lines};
ghost use Rattle.rc_historytext.specs.Text.{history_text, mark_word, spell};
ghost use Rattle.rc_historytext.specs.Standing.{block};

use crate::forms::{GenerationForm, HistoryForm, RenameForm};
use rc_dbtext::{push_line, push_word};
use std::alloc::{AllocError, Global};

/// Returns the text of a history.
pub fn write_history(alloc: Global, form: &HistoryForm<'_>) -> Result<Vec<u8>, AllocError>
    ensures { IfOk result (λ text. text.items ≡ history_text form.now) }
{
    let mut out = Vec::new(alloc);
    push_place(alloc, &mut out, form.present, form.generations.len())?;
    push_generations(alloc, &mut out, form.generations.as_slice())?;
    out.extend_from_slice(b"end\n")?;
    Ok(out)
}

/// Appends the first line and the line of the present generation's place.
pub(crate) fn push_place(
    alloc: Global,
    out: &mut Vec<u8>,
    present: u32,
    count: usize,
) -> Result<(), AllocError>
    ensures { OnOk result (out.new.items
        ≡ out.old.items ++ spells spell (First ∷ OfPlace present count ∷ [])) }
{
    let present = present.to_string(alloc)?;
    let count = count.to_string(alloc)?;
    push_line(out, b"undorc-history", b"1")?;
    push_words(out, b"at", &[present.as_bytes(), b"of", count.as_bytes()])?;
    Ok(())
}

/// Appends the lines of generations.
pub(crate) fn push_generations(
    alloc: Global,
    out: &mut Vec<u8>,
    generations: &[GenerationForm<'_>],
) -> Result<(), AllocError>
    ensures { OnOk result (out.new.items
        ≡ out.old.items ++ spells spell (flat_map generation_lines generations.now)) }
{
    for generation in generations {
        push_generation(alloc, out, generation)?;
    }
    Ok(())
}

// Appends the lines of a generation.
fn push_generation(
    alloc: Global,
    out: &mut Vec<u8>,
    generation: &GenerationForm<'_>,
) -> Result<(), AllocError>
    ensures { OnOk result (out.new.items
        ≡ out.old.items ++ spells spell (generation_lines generation.now)) }
{
    push_marks(out, generation)?;
    push_text(alloc, out, b"database", generation.database)?;
    push_text(alloc, out, b"session", generation.session)?;
    let count = generation.renames.len().to_string(alloc)?;
    push_line(out, b"renames", count.as_bytes())?;
    push_renames(out, generation.renames.as_slice())?;
    Ok(())
}

/// Appends the line of a generation's marks.
pub(crate) fn push_marks(
    out: &mut Vec<u8>,
    generation: &GenerationForm<'_>,
) -> Result<(), AllocError>
    ensures { OnOk result (out.new.items ≡ out.old.items
        ++ spell (OfMarks generation.now.first_passed generation.now.last_passed)) }
{
    let first = mark(generation.first_passed);
    push_words(out, b"generation", &[first, mark(generation.last_passed)])?;
    Ok(())
}

// Returns the word of a mark.
fn mark(is_passed: bool) -> &'static [u8]
    ensures { result.now ≡ mark_word is_passed }
{
    if is_passed { b"passed" } else { b"stop" }
}

/// Appends a line with the length of a text, and then the text.
pub(crate) fn push_text(
    alloc: Global,
    out: &mut Vec<u8>,
    word: &[u8],
    text: &[u8],
) -> Result<(), AllocError>
    ensures { OnOk result (out.new.items ≡ out.old.items ++ block word.now text.now) }
{
    let long = text.len().to_string(alloc)?;
    push_line(out, word, long.as_bytes())?;
    out.extend_from_slice(text)?;
    Ok(())
}

// Appends the lines of renames.
fn push_renames(out: &mut Vec<u8>, renames: &[RenameForm<'_>]) -> Result<(), AllocError>
    ensures { OnOk result (out.new.items
        ≡ out.old.items ++ spells spell (map OfRename renames.now)) }
{
    for rename in renames {
        let old = rename.old.text().as_bytes();
        push_words(out, b"rename", &[old, rename.new.text().as_bytes()])?;
    }
    Ok(())
}

// Appends a line of a first word and others.
fn push_words(out: &mut Vec<u8>, first: &[u8], others: &[&[u8]]) -> Result<(), AllocError>
    ensures { OnOk result (out.new.items
        ≡ out.old.items ++ line_of_words (first.now ∷ map (λ word. word.now) others.now)) }
{
    out.extend_from_slice(first)?;
    for word in others {
        push_word(out, word)?;
    }
    out.extend_from_slice(b"\n")?;
    Ok(())
}
