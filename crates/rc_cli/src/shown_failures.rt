//! What `status` shows of the failures that are remembered.
ghost use Rattle.std.specs.Prelude.{◌≡◌, ◌++◌, ◌∷◌, [], codes, map, option_map, IfOk, OnOk};
ghost use Rattle.rc_script.specs.Words.{words_in};
ghost use Rattle.rc_cli.specs.Failures.{failed_line, failed_word, failure_at, failure_for};
ghost use Rattle.rc_cli.specs.Failures.{failure_of, failures_of, is_cut_short, is_missed};
ghost use Rattle.rc_cli.specs.Failures.{is_moving, plain_line, said_word, shown_line};
ghost use Rattle.rc_cli.specs.Failures.{shown_lines, shown_text};

use crate::failures::{Failure, add_about, is, lines_of};
use rc_script::words_of;
use std::alloc::{AllocError, Global};

/// The outcome of a transition whose command was cut short.
const CUT_SHORT: &[u8] = b"cut-short";

/// Where a service is that such a transition was moving.
const UNKNOWN: &[u8] = b"unknown";

/// Which lines are shown, and how.
#[derive(Clone, Copy)]
pub(crate) struct Showing {
    /// Whether nothing but failures is shown.
    pub only: bool,
    /// Whether the command that was moving services was cut short.
    pub is_cut: bool,
}

/// Returns what is shown of a text whose lines have a name and a word each: a service that is down
/// is shown with its failure, if it has one, and one that a command was moving which was cut short
/// as unknown.
pub(crate) fn shown_text(
    alloc: Global,
    text: &[u8],
    failures: &[Failure<'_>],
    showing: Showing,
) -> Result<Vec<u8>, AllocError>
    ensures { IfOk result (λ shown. shown.items
        ≡ shown_text showing.only showing.is_cut (failures_of failures.now) text.now) }
{
    let lines = lines_of(alloc, text)?;
    let shown = shown_lines(alloc, &lines, failures, showing);
    drop(lines);
    shown
}

// Returns what is shown of lines.
fn shown_lines(
    alloc: Global,
    lines: &[&[u8]],
    failures: &[Failure<'_>],
    showing: Showing,
) -> Result<Vec<u8>, AllocError>
    ensures { IfOk result (λ shown. shown.items ≡ shown_lines showing.only showing.is_cut
        (failures_of failures.now) [] (map (λ line. line.now) lines.now)) }
{
    let mut shown = Vec::new(alloc);
    for place in 0..lines.len() {
        let words = words_of(alloc, lines[place])?;
        add_line(&mut shown, &words, failures, showing)?;
    }
    Ok(shown)
}

// Appends what is shown of a line of these words.
fn add_line(
    shown: &mut Vec<u8>,
    words: &[&[u8]],
    failures: &[Failure<'_>],
    showing: Showing,
) -> Result<(), AllocError>
    ensures { OnOk result (shown.new.items ≡ shown.old.items ++ shown_line showing.only
        showing.is_cut (failures_of failures.now) (map (λ word. word.now) words.now)) }
{
    let [name, word] = words else {
        return Ok(());
    };
    match failure_at(failures, name, word) {
        Some(failure) => add_failed(shown, name, failure),
        None => add_plain(shown, name, said_word(word, showing.is_cut), showing.only),
    }
}

// Returns the failure of a service that is down.
fn failure_at<'b, 'a>(
    failures: &'b [Failure<'a>],
    name: &[u8],
    word: &[u8],
) -> Option<&'b Failure<'a>>
    ensures { option_map (λ f. failure_of f.now) result
        ≡ failure_at (failures_of failures.now) name.now word.now }
{
    if is(word, b"down") {
        failure_for(failures, name)
    } else {
        None
    }
}

// Returns the first failure of a service.
fn failure_for<'b, 'a>(failures: &'b [Failure<'a>], name: &[u8]) -> Option<&'b Failure<'a>>
    ensures { option_map (λ f. failure_of f.now) result
        ≡ failure_for (failures_of failures.now) name.now }
{
    for failure in failures {
        if failure.name == name {
            return Some(failure);
        }
    }
    None
}

// Appends the line of a service with its failure.
fn add_failed(shown: &mut Vec<u8>, name: &[u8], failure: &Failure<'_>) -> Result<(), AllocError>
    ensures { OnOk result (shown.new.items
        ≡ shown.old.items ++ failed_line name.now (failure_of failure.now)) }
{
    shown.extend_from_slice(name)?;
    shown.extend_from_slice(failed_word(failure))?;
    add_about(shown, failure)?;
    shown.push(b'\n')?;
    Ok(())
}

// Returns the word for a service with a failure.
fn failed_word(failure: &Failure<'_>) -> &'static [u8]
    ensures { result.now ≡ failed_word (failure_of failure.now) }
{
    if is_cut_short(failure) {
        b" unknown "
    } else {
        b" failed "
    }
}

// Returns true if how a transition ended is not known, since its command was cut short.
fn is_cut_short(failure: &Failure<'_>) -> bool
    ensures { result ≡ is_cut_short (failure_of failure.now) }
{
    match CUT_SHORT.strip_prefix(failure.front) {
        Some(rest) => is(failure.outcome, rest),
        None => false,
    }
}

// Returns the word that is shown for a service which this word says to be somewhere. If `is_cut`,
// it is not known where a service is that was moving.
fn said_word(word: &[u8], is_cut: bool) -> &[u8]
    ensures { result.now ≡ said_word is_cut word.now }
{
    if is_cut && is_moving(word) {
        UNKNOWN
    } else {
        word
    }
}

// Returns true if a word says that a service is moving.
fn is_moving(word: &[u8]) -> bool
    ensures { result ≡ is_moving word.now }
{
    is(word, b"rising") || is(word, b"sinking")
}

// Appends the line of a service without a failure that is remembered. If `only`, it must have
// failed in the command that is under way, or be unknown.
fn add_plain(shown: &mut Vec<u8>, name: &[u8], word: &[u8], only: bool) -> Result<(), AllocError>
    ensures { OnOk result (shown.new.items
        ≡ shown.old.items ++ plain_line only name.now word.now) }
{
    if only && !is_missed(word) {
        return Ok(());
    }
    shown.extend_from_slice(name)?;
    shown.push(b' ')?;
    shown.extend_from_slice(word)?;
    shown.push(b'\n')?;
    Ok(())
}

// Returns true if a word says that a service has failed, or is unknown.
fn is_missed(word: &[u8]) -> bool
    ensures { result ≡ is_missed word.now }
{
    is(word, b"failed") || is(word, UNKNOWN)
}
