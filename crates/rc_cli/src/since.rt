//! Since when services are where they are, by the log of the commands of a session.
ghost use Rattle.std.specs.Prelude.{◌≡◌, ◌++◌, [], codes, map, IfOk, OnOk};
ghost use Rattle.rc_script.specs.Words.{words_in};
ghost use Rattle.rc_cli.specs.Since.{after_line, after_lines, after_moves, begins_signed};
ghost use Rattle.rc_cli.specs.Since.{has_moved};
ghost use Rattle.rc_cli.specs.Since.{is_sign, is_signed, mark_of, moved, says_moves, sign_for};
ghost use Rattle.rc_cli.specs.Since.{since_for, time_in, timed_line, timed_lines, timed_text};
ghost use Rattle.rc_cli.specs.Since.{unknown};

use crate::failures::{is, lines_of};
use rc_script::words_of;
use std::alloc::{AllocError, Global};

/// The signs of a service that came up, and of one that went down.
const UP: u8 = b'+';

const DOWN: u8 = b'-';

/// The text for a time that is not known.
const NEVER: &[u8] = b"-";

/// What a log has said of a service so far: the time of its last command; and the sign of the last
/// move of the service, or 0, with its time.
#[derive(Clone, Copy)]
pub struct Mark<'a> {
    pub time: &'a [u8],
    pub sign: u8,
    pub since: &'a [u8],
}

/// Returns a text whose lines begin with a name and a word each, where each line ends with the time
/// since when the service is there by the text of a log.
pub(crate) fn timed_text(alloc: Global, text: &[u8], log: &[u8]) -> Result<Vec<u8>, AllocError>
    ensures { IfOk result (λ timed. timed.items ≡ timed_text log.now text.now) }
{
    let lines = lines_of(alloc, text)?;
    let logged = lines_of(alloc, log)?;
    timed_lines(alloc, &lines, &logged)
}

// Returns lines with the times since when their services are there.
fn timed_lines(alloc: Global, lines: &[&[u8]], log: &[&[u8]]) -> Result<Vec<u8>, AllocError>
    ensures { IfOk result (λ timed. timed.items ≡ timed_lines (map (λ line. line.now) log.now) []
        (map (λ line. line.now) lines.now)) }
{
    let mut timed = Vec::new(alloc);
    for place in 0..lines.len() {
        let words = words_of(alloc, lines[place])?;
        add_timed(alloc, &mut timed, lines[place], &words, log)?;
    }
    Ok(timed)
}

// Appends a line of these words with the time since when its service is there.
fn add_timed(
    alloc: Global,
    timed: &mut Vec<u8>,
    line: &[u8],
    words: &[&[u8]],
    log: &[&[u8]],
) -> Result<(), AllocError>
    ensures { OnOk result (timed.new.items ≡ timed.old.items
        ++ timed_line (map (λ line. line.now) log.now) line.now
        (map (λ word. word.now) words.now)) }
{
    let [name, word, ..] = words else {
        return Ok(());
    };
    let mark = mark_in(alloc, log, name)?;
    timed.extend_from_slice(line)?;
    timed.push(b' ')?;
    timed.extend_from_slice(since_for(word, mark))?;
    timed.push(b'\n')?;
    Ok(())
}

// Returns what a log says of a service.
fn mark_in<'a>(alloc: Global, log: &[&'a [u8]], name: &[u8]) -> Result<Mark<'a>, AllocError>
    ensures { IfOk result (λ mark. mark_of mark
        ≡ after_lines name.now unknown (map (λ line. line.now) log.now)) }
{
    let mut mark = Mark {
        time: NEVER,
        sign: 0,
        since: NEVER,
    };
    for place in 0..log.len() {
        let words = words_of(alloc, log[place])?;
        mark = after_line(name, mark, &words);
    }
    Ok(mark)
}

// Returns what is known of a service after a line of these words.
fn after_line<'a>(name: &[u8], mark: Mark<'a>, words: &[&'a [u8]]) -> Mark<'a>
    ensures { mark_of result ≡ after_line name.now (mark_of mark.entry)
        (map (λ word. word.now) words.now) }
{
    if says_moves(words) {
        return after_moves(name, mark, words);
    }
    Mark {
        time: time_in(words),
        sign: mark.sign,
        since: mark.since,
    }
}

// Returns what is known of a service after a line of moves.
fn after_moves<'a>(name: &[u8], mark: Mark<'a>, words: &[&[u8]]) -> Mark<'a>
    ensures { mark_of result ≡ after_moves name.now (mark_of mark.entry)
        (map (λ word. word.now) words.now) }
{
    if has_moved(words, UP, name) {
        moved(mark, UP)
    } else if has_moved(words, DOWN, name) {
        moved(mark, DOWN)
    } else {
        mark
    }
}

// Returns what is known of a service after a move.
fn moved(mark: Mark<'_>, sign: u8) -> Mark<'_>
    ensures { mark_of result ≡ moved (mark_of mark.entry) sign }
{
    Mark {
        time: mark.time,
        sign,
        since: mark.time,
    }
}

// Returns true if one of these words is a sign and a name.
fn has_moved(words: &[&[u8]], sign: u8, name: &[u8]) -> bool
    ensures { result ≡ has_moved (map (λ word. word.now) words.now) sign name.now }
{
    for word in words {
        if is_signed(word, sign, name) {
            return true;
        }
    }
    false
}

// Returns true if a word is a sign and a name.
fn is_signed(word: &[u8], sign: u8, name: &[u8]) -> bool
    ensures { result ≡ is_signed word.now sign name.now }
{
    match word.split_first() {
        Some((byte, rest)) => *byte == sign && is(rest, name),
        None => false,
    }
}

// Returns true if the line of these words says what a command has moved.
fn says_moves(words: &[&[u8]]) -> bool
    ensures { result ≡ says_moves (map (λ word. word.now) words.now) }
{
    match words.split_first() {
        Some((word, _)) => begins_signed(word),
        None => false,
    }
}

// Returns true if a word begins with a sign.
fn begins_signed(word: &[u8]) -> bool
    ensures { result ≡ begins_signed word.now }
{
    match word.split_first() {
        Some((byte, _)) => is_sign(*byte),
        None => false,
    }
}

// Returns true if a byte is a sign.
fn is_sign(byte: u8) -> bool
    ensures { result ≡ is_sign byte }
{
    if byte == UP { true } else { byte == DOWN }
}

// Returns the time of a command whose line has these words.
fn time_in<'a>(words: &[&'a [u8]]) -> &'a [u8]
    ensures { result.now ≡ time_in (map (λ word. word.now) words.now) }
{
    match words {
        [_, time, ..] => time,
        _ => NEVER,
    }
}

// Returns the time since when a service is where a word says, or a text that says it is unknown.
fn since_for<'a>(word: &[u8], mark: Mark<'a>) -> &'a [u8]
    ensures { result.now ≡ since_for word.now (mark_of mark.entry) }
{
    if mark.sign == sign_for(word) {
        mark.since
    } else {
        NEVER
    }
}

// Returns the sign of the move by which a service gets where a word says that it is, or 0.
fn sign_for(word: &[u8]) -> u8
    ensures { result ≡ sign_for word.now }
{
    if is(word, b"up") {
        UP
    } else if is(word, b"down") {
        DOWN
    } else if is(word, b"failed") {
        DOWN
    } else {
        0
    }
}
