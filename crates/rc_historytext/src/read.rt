//! From bytes to a history.
ghost use Rattle.std.specs.Prelude.{◌≡◌, ◌≤◌, ◌++◌, ◌∷◌, [], ℕ, Bool, true, length, All};
ghost use Rattle.std.specs.Prelude.{IfOk, IfErr, map};
ghost use Rattle.std.specs.List.{flat_map};
ghost use Rattle.rc_dbtext.specs.Form.{spells};
ghost use Rattle.rc_historytext.specs.Text.{IsGenerationText, IsHistoryText, RenameCount};
ghost use Rattle.rc_historytext.specs.Text.{First, generation_lines, history_lines, history_text};
ghost use Rattle.rc_historytext.specs.Text.{OfRename, oldest_renames, spell};
ghost use Rattle.rc_historytext.specs.Faults.{IsHistoryFault};
ghost use Rattle.rc_historytext.specs.Due.{AtCount, AtMarks, AtPlace, Stops, before_all};
ghost use Rattle.rc_historytext.specs.Due.{before_renames, most_renames};
ghost use Rattle.rc_historytext.specs.Standing.{AreRenames, GenerationsStand, RenamesStand, Stands};

use crate::fault::HistoryFault;
use crate::forms::{GenerationForm, HistoryForm, RenameForm};
use crate::lines::{
    LineFault, count_line, first_line, last_line, marks_line, place_line, rename_line, text_line,
};
use std::alloc::Global;

/// Parses the text of a history, which must be all of the bytes.
pub fn read_history<'a>(alloc: Global, bytes: &'a [u8]) -> Result<HistoryForm<'a>, HistoryFault>
    ensures ok { IfOk result (λ form. IsHistoryText form × (bytes.now ≡ history_text form)) }
    ensures fault { IfErr result (IsHistoryFault bytes.now) }
{
    let first = match first_line(bytes) {
        Ok(first) => first,
        Err(fault) => return Err(fault),
    };
    let (form, rest) = match history_after(alloc, first) {
        Ok(read) => read,
        Err(LineFault::Missing(left)) => return Err(HistoryFault::Bad(bytes.len() - left)),
        Err(LineFault::Memory) => return Err(HistoryFault::Memory),
    };
    if rest.is_empty() {
        Ok(form)
    } else {
        Err(HistoryFault::Bad(bytes.len() - rest.len()))
    }
}

// Parses the lines of a history after the first one. Returns the history and the bytes after it.
fn history_after<'a>(
    alloc: Global,
    bytes: &'a [u8],
) -> Result<(HistoryForm<'a>, &'a [u8]), LineFault>
    ensures ok { IfOk result (λ read. IsHistoryText read.0
        × (spell First ++ bytes.now ≡ history_text read.0 ++ read.1.now)) }
    ensures fault { IfErr result (Stops AtPlace bytes.now) }
{
    let Some((present, count, rest)) = place_line(bytes) else {
        return Err(LineFault::Missing(bytes.len()));
    };
    let (generations, rest) = generations_of(alloc, rest, count)?;
    let Some(behind) = last_line(rest) else {
        return Err(LineFault::Missing(rest.len()));
    };
    Ok((
        HistoryForm {
            present,
            generations,
        },
        behind,
    ))
}

// Parses `count` generations, of which the first is the oldest. Returns them and the bytes after
// them.
fn generations_of<'a>(
    alloc: Global,
    bytes: &'a [u8],
    count: u32,
) -> Result<(Vec<GenerationForm<'a>>, &'a [u8]), LineFault>
    ensures count { IfOk result (λ read. length read.0.items ≡ count) }
    ensures each { IfOk result (λ read. All IsGenerationText read.0.items) }
    ensures oldest { IfOk result (λ read. oldest_renames read.0.items ≡ []) }
    ensures front { IfOk result (λ read. GenerationsStand bytes.now read.0.items read.1.now) }
    ensures fault { IfErr result (Stops (before_all count) bytes.now) }
{
    let mut generations = Vec::new(alloc);
    let mut rest = bytes;
    for place in 0..count {
        let (generation, behind) = generation_of(alloc, rest, place == 0)?;
        if generations.push(generation).is_err() {
            return Err(LineFault::Memory);
        }
        rest = behind;
    }
    Ok((generations, rest))
}

// Parses a generation. Returns it and the bytes after it.
fn generation_of<'a>(
    alloc: Global,
    bytes: &'a [u8],
    is_oldest: bool,
) -> Result<(GenerationForm<'a>, &'a [u8]), LineFault>
    ensures is { IfOk result (λ read. IsGenerationText read.0) }
    ensures few { IfOk result (λ read. length read.0.renames ≤ most_renames is_oldest) }
    ensures front { IfOk result (λ read.
        bytes.now ≡ spells spell (generation_lines read.0) ++ read.1.now) }
    ensures fault { IfErr result (λ fault. (more : ℕ) →
        Stops (AtMarks is_oldest more) bytes.now fault) }
{
    let Some((first_passed, last_passed, rest)) = marks_line(bytes) else {
        return Err(LineFault::Missing(bytes.len()));
    };
    let Some((database, behind)) = text_line(rest, "database") else {
        return Err(LineFault::Missing(rest.len()));
    };
    let Some((session, last)) = text_line(behind, "session") else {
        return Err(LineFault::Missing(behind.len()));
    };
    let (renames, end) = renames_of(alloc, last, is_oldest)?;
    Ok((
        GenerationForm {
            first_passed,
            last_passed,
            database,
            session,
            renames,
        },
        end,
    ))
}

// Parses the number of renames of a generation, and the renames after it. Returns them and the
// bytes after them.
fn renames_of<'a>(
    alloc: Global,
    bytes: &'a [u8],
    is_oldest: bool,
) -> Result<(Vec<RenameForm<'a>>, &'a [u8]), LineFault>
    ensures ok { IfOk result (λ read. (length read.0.items ≤ most_renames is_oldest)
        × AreRenames (length read.0.items) read.0.items
        × (bytes.now ≡ spell (RenameCount (length read.0.items))
        ++ (spells spell (map OfRename read.0.items) ++ read.1.now))) }
    ensures fault { IfErr result (λ fault. (more : ℕ) →
        Stops (AtCount is_oldest more) bytes.now fault) }
{
    let Some((count, rest)) = count_line(bytes, is_oldest) else {
        return Err(LineFault::Missing(bytes.len()));
    };
    let (renames, behind) = so_many_renames(alloc, rest, count)?;
    Ok((renames, behind))
}

// Parses `count` renames. Returns them and the bytes after them.
fn so_many_renames<'a>(
    alloc: Global,
    bytes: &'a [u8],
    count: u32,
) -> Result<(Vec<RenameForm<'a>>, &'a [u8]), LineFault>
    ensures ok { IfOk result (λ read. AreRenames count read.0.items
        × RenamesStand bytes.now read.0.items read.1.now) }
    ensures fault { IfErr result (λ fault. (more : ℕ) →
        Stops (before_renames count more) bytes.now fault) }
{
    let mut renames = Vec::new(alloc);
    let mut rest = bytes;
    for _ in 0..count {
        let Some((rename, behind)) = rename_line(rest) else {
            return Err(LineFault::Missing(rest.len()));
        };
        if renames.push(rename).is_err() {
            return Err(LineFault::Memory);
        }
        rest = behind;
    }
    Ok((renames, rest))
}
