//! The file of the renames: under which names services go on in another database.
ghost use Rattle.std.specs.Prelude.{◌≡◌, ◌==◌, Ok, Some, None, map, option_map, IfErr, IfOk, OnOk};
ghost use Rattle.std.specs.Prelude.{if◌then◌else◌};
ghost use Rattle.std.specs.List.{slice_split};
ghost use Rattle.std.specs.Str.{bytes_eq};
ghost use Rattle.rc_script.specs.Words.{is_silent, words_in};
ghost use Rattle.rc_args.specs.Renames.{AreRenames, IsRenameFault, IsSaidWrong, behind};
ghost use Rattle.rc_args.specs.Renames.{conversion_by, line_says, says_from};
ghost use Rattle.rc_update.specs.Conversions.{conversion_of, conversions_of};

use rc_script::words_of;
use rc_update::{Conversion, first_twice};
use std::alloc::{AllocError, Global};

/// Why the conversions of an update are refused.
#[derive(Clone, Copy, Drop)]
pub enum RenameFault<'a> {
    /// The line of this number, counted from 1, states no conversion.
    BadLine(usize),
    /// Two of them have this old name, or this new name.
    Twice(&'a [u8]),
    Memory,
}

/// Returns the conversions of the arguments, followed by those of a text.
pub fn renames_in<'a>(
    alloc: Global,
    restarts: &[Conversion<'a>],
    text: &'a [u8],
) -> Result<Vec<Conversion<'a>>, RenameFault<'a>>
    ensures read { IfOk result (λ list.
        AreRenames (conversions_of restarts.now) text.now (conversions_of list.items)) }
    ensures fault { IfErr result (IsRenameFault (conversions_of restarts.now) text.now) }
{
    let Ok(lines) = lines_of(alloc, text) else {
        return Err(RenameFault::Memory);
    };
    let list = match said_by(alloc, restarts, &lines) {
        Ok(list) => list,
        Err(fault) => {
            drop(lines);
            return Err(fault);
        }
    };
    drop(lines);
    match first_twice(&list) {
        Some(name) => {
            drop(list);
            Err(RenameFault::Twice(name))
        }
        None => Ok(list),
    }
}

// Splits a text into its lines.
fn lines_of<'a>(alloc: Global, text: &'a [u8]) -> Result<Vec<&'a [u8]>, AllocError>
    ensures { IfOk result (λ lines. map (λ line. line.now) lines.items
        ≡ slice_split (λ byte. byte == 10) text.entry.now) }
{
    text.split(|byte| *byte == b'\n').collect(alloc)
}

// Returns the conversions of the arguments, followed by those of the lines.
fn said_by<'a>(
    alloc: Global,
    restarts: &[Conversion<'a>],
    lines: &[&'a [u8]],
) -> Result<Vec<Conversion<'a>>, RenameFault<'a>>
    ensures read { IfOk result (λ list.
        says_from 0 (conversions_of restarts.now) (map (λ line. line.now) lines.now)
        ≡ Ok (conversions_of list.items)) }
    ensures fault { IfErr result
        (IsSaidWrong (conversions_of restarts.now) (map (λ line. line.now) lines.now)) }
{
    let Ok(mut list) = restarts.to_vec(alloc) else {
        return Err(RenameFault::Memory);
    };
    for place in 0..lines.len() {
        match said_in(alloc, lines[place]) {
            Ok(Some(said)) => {
                if add_said(&mut list, said).is_err() {
                    return Err(RenameFault::Memory);
                }
            }
            Ok(None) => return Err(RenameFault::BadLine(place + 1)),
            Err(_) => return Err(RenameFault::Memory),
        }
    }
    Ok(list)
}

// Appends the conversion of a line, if it states one.
fn add_said<'a>(
    list: &mut Vec<Conversion<'a>>,
    said: Option<Conversion<'a>>,
) -> Result<(), AllocError>
    ensures { OnOk result (conversions_of list.new.items
        ≡ behind (conversions_of list.old.items) (option_map conversion_of said.entry)) }
{
    if let Some(one) = said {
        list.push(one)?;
    }
    Ok(())
}

// Parses a line. Returns `Some(None)` for a line that states nothing, a conversion for a line that
// states one, and `None` for any other line.
fn said_in<'a>(alloc: Global, line: &'a [u8]) -> Result<Option<Option<Conversion<'a>>>, AllocError>
    ensures { IfOk result (λ said. option_map (λ one. option_map conversion_of one) said
        ≡ line_says (words_in line.entry.now)) }
{
    let words = words_of(alloc, line)?;
    Ok(said_as(&words))
}

// Parses the words of a line. Returns `Some(None)` for words that state nothing, a conversion for
// words that state one, and `None` for any other words.
fn said_as<'a>(words: &[&'a [u8]]) -> Option<Option<Conversion<'a>>>
    ensures { option_map (λ one. option_map conversion_of one) result
        ≡ line_says (map (λ word. word.now) words.now) }
{
    if is_silent(words) {
        return Some(None);
    }
    match conversion_by(words) {
        Some(one) => Some(Some(one)),
        None => None,
    }
}

// Returns true if the words are those of an empty line or a comment.
fn is_silent(words: &[&[u8]]) -> bool
    ensures { result ≡ is_silent (map (λ word. word.now) words.now) }
{
    match words {
        [] => true,
        [first, ..] => matches!(first, [b'#', ..]),
    }
}

// Returns the conversion that the words state, or `None` if they state none.
fn conversion_by<'a>(words: &[&'a [u8]]) -> Option<Conversion<'a>>
    ensures { option_map conversion_of result
        ≡ conversion_by (map (λ word. word.now) words.now) }
{
    match words {
        [name, end] => said_with(is(end, b"restart"), name, name, true),
        [old, arrow, new] => said_with(is(arrow, b"->"), old, new, false),
        [old, arrow, new, end] => {
            said_with(is(arrow, b"->") && is(end, b"restart"), old, new, true)
        }
        _ => None,
    }
}

// Returns the conversion with the given fields if `is_said`, and `None` otherwise.
fn said_with<'a>(
    is_said: bool,
    old: &'a [u8],
    new: &'a [u8],
    restart: bool,
) -> Option<Conversion<'a>>
    ensures { option_map conversion_of result ≡ (if is_said
        then Some (record { old = old.entry.now; new = new.entry.now; restart = restart })
        else None) }
{
    if is_said {
        Some(Conversion { old, new, restart })
    } else {
        None
    }
}

// Returns true if a word is the given text.
fn is(word: &[u8], text: &[u8]) -> bool
    ensures { result ≡ bytes_eq word.now text.now }
{
    word == text
}
