//! The file of who did what and when: `FILE.log` beside `FILE`, if it exists or FILE is that of the
//! environment. Each command that altered the session appends a line, while it has the lock.

use crate::makers::Makers;
use crate::own_name::words;
use jiff::Timestamp;
use log::warn;
use rc_launch::LiveText;
use rc_names::NoMem;
use rc_streams::command_log;
use rc_streams::messages::{MESSAGE, Messages};
use std::env;
use std::fs::File;
use std::io::{self, ErrorKind, Write};

/// Appends a line for this command, which ends with this status, if it has changed what was found
/// in the file of the session and there is to be a log. Warns if the line can't be written.
pub fn enter(rt: &HostRuntime, path: &str, before: &LiveText<'_>, status: u8) {
    let Ok(live) = LiveText::read(rt, Some(path)) else {
        return;
    };
    match live.bytes() {
        Some(after) if has_changed(before, &live) => {
            let at = live.number(rt.alloc()).unwrap_or(current_of(after));
            let ended = Ended { at, status };
            if let Err(error) = enter_at(rt, path, ended, before.bytes(), after) {
                warn!(Messages(rt); target: MESSAGE,
                    "{path}.log: {error}: this command is not entered there");
            }
        }
        _ => {}
    }
    drop(live);
}

/// Returns true if a history has changed, or the text of a session if there was no history.
fn has_changed(before: &LiveText<'_>, after: &LiveText<'_>) -> bool {
    match (before.history(), after.history()) {
        (Some(was), Some(is)) => was != is,
        _ => before.bytes() != after.bytes(),
    }
}

/// How a command has ended: the number of the state that it led to, and its status.
#[derive(Clone, Copy)]
struct Ended {
    at: usize,
    status: u8,
}

/// Appends the lines of a command that leads from one text of the session to another. If the log
/// does not exist, creates it for the file of the environment alone.
fn enter_at(
    rt: &HostRuntime,
    path: &str,
    ended: Ended,
    before: Option<&[u8]>,
    after: &[u8],
) -> io::Result<()> {
    match command_log::open(rt, path, is_usual(rt, path))? {
        Some(file) => {
            let entered = append(rt, &file, ended, before, after);
            drop(file);
            entered
        }
        None => Ok(()),
    }
}

/// Returns true if UNDORC_LIVE names the file of a session.
fn is_usual(rt: &HostRuntime, path: &str) -> bool {
    match env::var(rt, "UNDORC_LIVE") {
        Ok(usual) => {
            let is_usual = usual.as_str() == path;
            drop(usual);
            is_usual
        }
        Err(_) => false,
    }
}

/// Appends the lines of this command. If they can't be written whole, nothing of them stays.
fn append(
    rt: &HostRuntime,
    file: &File,
    ended: Ended,
    before: Option<&[u8]>,
    after: &[u8],
) -> io::Result<()> {
    let words = words(rt)?;
    let line = line_of(rt, &words, ended);
    drop(words);
    let line = line?;
    let lines = with_moves(line, live_in(before.unwrap_or(&[])), live_in(after))?;
    let written = write_whole(file, &lines);
    drop(lines);
    written
}

/// Returns a line with one behind it that has the names which are in the second of two lists alone,
/// after a plus, and those that are in the first alone, after a minus. The names of both lists are
/// in byte order, with a blank between them. If both are the same, there is no such line.
fn with_moves(line: String, from: &[u8], to: &[u8]) -> Result<Vec<u8>, NoMem> {
    let mut lines = line.into_bytes();
    let end = lines.len();
    lines.push(b' ')?;
    let start = lines.len();
    add_others(&mut lines, b'+', to, from)?;
    add_others(&mut lines, b'-', from, to)?;
    if lines.len() > start {
        lines.push(b'\n')?;
    } else {
        lines.truncate(end);
    }
    Ok(lines)
}

/// Appends the names of a list that are not in another one, each after a sign. The names of both
/// are in byte order.
fn add_others(lines: &mut Vec<u8>, sign: u8, names: &[u8], others: &[u8]) -> Result<(), NoMem> {
    let mut others = others;
    for name in names.split(|byte| *byte == b' ') {
        if name.is_empty() {
            continue;
        }
        others = from_name(others, name);
        if first_name(others) != name {
            lines.extend_from_slice(b" ")?;
            lines.push(sign)?;
            lines.extend_from_slice(name)?;
        }
    }
    Ok(())
}

/// Returns what is left of a list from the first name on that is not before this one.
fn from_name<'a>(names: &'a [u8], name: &[u8]) -> &'a [u8] {
    let mut left = names;
    for _ in 0..names.len() {
        let first = first_name(left);
        if left.is_empty() || first >= name {
            return left;
        }
        left = left.get(first.len() + 1..).unwrap_or(&[]);
    }
    left
}

/// Returns the first name of a list, whose names have a blank between them, or no bytes.
fn first_name(names: &[u8]) -> &[u8] {
    names.split(|byte| *byte == b' ').next().unwrap_or(&[])
}

/// Returns the names that are live in the text of a session.
fn live_in(text: &[u8]) -> &[u8] {
    for line in text.split(|byte| *byte == b'\n') {
        if let Some(names) = line.strip_prefix(b"now ".as_slice()) {
            return names;
        }
    }
    &[]
}

/// Appends bytes to a file, or none of them.
fn write_whole(file: &File, bytes: &[u8]) -> io::Result<()> {
    let length = file.metadata()?.len();
    let mut out = file;
    let written = out.write_all(bytes);
    if written.is_err() {
        let _ = file.set_len(length);
    }
    written
}

/// Returns the line of a command: the state, the time, the user, the status, and the words of the
/// command.
fn line_of(rt: &HostRuntime, words: &[String], ended: Ended) -> Result<String, NoMem> {
    let Ended { at, status } = ended;
    let now = now_of(rt);
    let user = libc::getuid();
    let mut line = format!(in rt.alloc(); "{at} {now} uid {user} status {status}:")?;
    match add_words(&mut line, words) {
        Ok(()) => Ok(line),
        Err(fault) => Err(fault),
    }
}

/// Adds the words after the first, and ends the line.
fn add_words(line: &mut String, words: &[String]) -> Result<(), NoMem> {
    for word in words.iter().skip(1) {
        let word = word.as_str();
        if is_plain(word) {
            write!(line, " {word}")?;
        } else {
            write!(line, " {word:?}")?;
        }
    }
    line.push('\n')
}

/// Returns the present moment, in whole seconds.
fn now_of(rt: &HostRuntime) -> Timestamp {
    match Timestamp::now(rt) {
        Ok(now) => Timestamp::from_second(now.as_second()).unwrap_or(now),
        Err(_) => Timestamp::UNIX_EPOCH,
    }
}

/// Returns true if a word can be shown as it is.
fn is_plain(word: &str) -> bool {
    for byte in word.bytes() {
        if !byte.is_ascii_graphic() || byte == b'"' {
            return false;
        }
    }
    !word.is_empty()
}

/// Returns the number of the current state in the text of a session.
fn current_of(text: &[u8]) -> usize {
    let mut number = 0;
    for line in text.split(|byte| *byte == b'\n') {
        if line == b"now".as_slice() || line.starts_with(b"now ") {
            return number;
        }
        if line == b"up".as_slice() || line.starts_with(b"up ") {
            number = number.saturating_add(1);
        }
    }
    number
}

/// Prints a journal, with the commands that made its entries by the log. Warns if that can't be
/// read.
pub fn show(rt: &HostRuntime, path: Option<&str>, journal: &[u8]) -> io::Result<()> {
    let log = log_of(rt, path);
    let shown = match Makers::read(rt.alloc(), &log) {
        Ok(makers) => {
            let shown = makers.print(rt, journal);
            drop(makers);
            shown
        }
        Err(_) => Err(io::Error::from(ErrorKind::OutOfMemory)),
    };
    drop(log);
    shown
}

/// Returns the text of the log of a file, or no bytes if there is none. Warns if it can't be read.
fn log_of(rt: &HostRuntime, path: Option<&str>) -> Vec<u8> {
    let Some(path) = path else {
        return Vec::new(rt.alloc());
    };
    match command_log::read(rt, path) {
        Ok(Some(text)) => text,
        Ok(None) => Vec::new(rt.alloc()),
        Err(error) => {
            warn!(Messages(rt); target: MESSAGE, "{path}.log: {error}: it is left out");
            Vec::new(rt.alloc())
        }
    }
}
