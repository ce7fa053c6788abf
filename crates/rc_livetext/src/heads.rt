//! The head of a live text: its version, its services and its bound.
ghost use Rattle.std.specs.Prelude.{◌≡◌, ◌++◌, IfOk, IfErr, IfSome};
ghost use Rattle.rc_dbtext.specs.Form.{spells};
ghost use Rattle.rc_livetext.specs.Text as text;
ghost use Rattle.rc_livetext.specs.Text.{AreAscending, IsBound, head_lines, spell};
ghost use Rattle.rc_livetext.specs.Held.{IsMissing};
ghost use Rattle.rc_livetext.specs.Saying.{IsSaid};
ghost use Rattle.rc_livetext.specs.FormText.{line_text};
ghost use Rattle.rc_livetext.specs.Refusals.{IsRefused};

use crate::form_fault::FormFault;
use crate::lines::{LineForm, line_of, version_of};
use rc_dbtext::lexer::{NameWord, number_line};
use std::alloc::Global;

/// Reads the head of a live text. Returns the names of all services, the bound on the number of
/// states, if the text has one, and the bytes after the head.
pub(crate) fn head<'a>(
    alloc: Global,
    bytes: &'a [u8],
) -> Result<(Vec<NameWord<'a>>, Option<u32>, &'a [u8]), FormFault>
    ensures ok { IfOk result (λ read. AreAscending read.0.items × IfSome read.1 IsBound
        × (bytes.now ≡ spells spell (head_lines read.0.items read.1) ++ read.2.now)) }
    ensures fault { IfErr result (IsRefused bytes.now) }
{
    let (bounded, rest) = first_line(bytes)?;
    let (services, rest) = services_line(alloc, rest)?;
    if !bounded {
        return Ok((services, None, rest));
    }
    let (bound, rest) = bound_line(alloc, rest)?;
    Ok((services, Some(bound), rest))
}

// Reads the first line. Returns whether the text has a bound, and the bytes after the line.
fn first_line(bytes: &[u8]) -> Result<(bool, &[u8]), FormFault>
    ensures ok { IfOk result (λ read. bytes.now ≡ spell (text.First read.0) ++ read.1.now) }
    ensures fault { IfErr result (IsRefused bytes.now) }
{
    let Some((number, rest)) = number_line(bytes, "undorc-live") else {
        return Err(FormFault::Bad(bytes.len()));
    };
    match version_of(number) {
        Some(bounded) => Ok((bounded, rest)),
        None => Err(FormFault::Version),
    }
}

// Reads the line of all services. Returns their names and the bytes after the line.
fn services_line<'a>(
    alloc: Global,
    bytes: &'a [u8],
) -> Result<(Vec<NameWord<'a>>, &'a [u8]), FormFault>
    ensures ok { IfOk result (λ read. AreAscending read.0.items
        × (bytes.now ≡ spell (text.OfServices read.0.items) ++ read.1.now)) }
    ensures fault { IfErr result (IsMissing AreAscending text.OfServices bytes.now) }
{
    let (line, rest) = next_line(alloc, bytes)?;
    match line {
        LineForm::Services(names) => Ok((names, rest)),
        other => {
            drop(other);
            Err(FormFault::Bad(bytes.len()))
        }
    }
}

// Reads the line of the bound. Returns the bound on the number of states and the bytes after the
// line.
fn bound_line(alloc: Global, bytes: &[u8]) -> Result<(u32, &[u8]), FormFault>
    ensures ok { IfOk result (λ read. IsBound read.0
        × (bytes.now ≡ spell (text.OfBound read.0) ++ read.1.now)) }
    ensures fault { IfErr result (IsMissing IsBound text.OfBound bytes.now) }
{
    let (line, rest) = next_line(alloc, bytes)?;
    match line {
        LineForm::Bound(bound) => Ok((bound, rest)),
        other => {
            drop(other);
            Err(FormFault::Bad(bytes.len()))
        }
    }
}

/// Reads the line at the front of bytes, of whatever kind. Returns it and the bytes after it.
pub(crate) fn next_line<'a>(
    alloc: Global,
    bytes: &'a [u8],
) -> Result<(LineForm<'a>, &'a [u8]), FormFault>
    ensures ok { IfOk result (λ read. IsSaid (line_text read.0)
        × (bytes.now ≡ spell (line_text read.0) ++ read.1.now)) }
    ensures fault { IfErr result (IsMissing IsSaid (λ l. l) bytes.now) }
{
    match line_of(alloc, bytes) {
        Ok(Some((line, rest))) => Ok((line, rest)),
        Ok(None) => Err(FormFault::Bad(bytes.len())),
        Err(_) => Err(FormFault::Memory),
    }
}
