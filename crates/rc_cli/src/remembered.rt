//! What is remembered of failed transitions in `FILE.failed`, and what is shown of it.

use crate::failures::{Stamp, entered, failures_in, is, lines_of};
use jiff::Timestamp;
use log::warn;
use rc_script::words_of;
use rc_streams::messages::{MESSAGE, Messages};
use rc_streams::{failed_file, run_file};
use std::alloc::{AllocError, Global};
use std::io::{self, ErrorKind};

/// Enters the ends that the run log of a session states into its failures.
pub(crate) fn remember_run(rt: &HostRuntime, path: &str) {
    if let Ok(Some(log)) = run_file::read(rt, path) {
        remember(rt, path, &log);
        drop(log);
    }
}

/// Enters the ends that a run log of the session at a path states into its failures. Warns if that
/// can't be done.
pub fn remember(rt: &HostRuntime, path: &str, log: &[u8]) {
    if let Err(error) = enter(rt, path, log) {
        warn!(Messages(rt); target: MESSAGE,
            "{path}.failed: {error}: what failed is not entered there");
    }
}

/// Returns the text of the failures of a session, and no bytes if there is none. Warns if what
/// stands there is no such text, or can't be read.
pub(crate) fn failed_text(rt: &HostRuntime, path: Option<&str>) -> Vec<u8> {
    let Some(path) = path else {
        return Vec::new(rt.alloc());
    };
    match checked_text(rt, path) {
        Ok(text) => text,
        Err(error) => {
            warn!(Messages(rt); target: MESSAGE, "{path}.failed: {error}: it is left out");
            Vec::new(rt.alloc())
        }
    }
}

// Returns the text of the failures of a session. Fails if what stands there is no such text.
fn checked_text(rt: &HostRuntime, path: &str) -> io::Result<Vec<u8>> {
    let text = failed_file::read(rt, path)?;
    if text.is_empty() || is_text(rt.alloc(), &text)? {
        Ok(text)
    } else {
        drop(text);
        Err(no_text())
    }
}

// Returns true if a text is one of failures.
fn is_text(alloc: Global, text: &[u8]) -> Result<bool, AllocError> {
    let list = failures_in(alloc, text)?;
    let is_text = list.is_some();
    drop(list);
    Ok(is_text)
}

// Enters the ends that a run log states into the failures of the session at a path.
fn enter(rt: &HostRuntime, path: &str, log: &[u8]) -> io::Result<()> {
    let before = failed_file::read(rt, path)?;
    let entered = match text_behind(rt, &before, log) {
        Ok(text) => {
            let entered = if before == text {
                Ok(())
            } else {
                failed_file::replace(rt, path, &text)
            };
            drop(text);
            entered
        }
        Err(error) => Err(error),
    };
    drop(before);
    entered
}

// Returns the text of failures after the ends that a run log states.
fn text_behind(rt: &HostRuntime, before: &[u8], log: &[u8]) -> io::Result<Vec<u8>> {
    let alloc = rt.alloc();
    let lines = lines_of(alloc, log)?;
    let time = format!(in alloc; "{}", now_of(rt))?;
    let text = text_of_run(alloc, before, &lines, time.as_bytes());
    drop((lines, time));
    match text {
        Ok(Some(text)) => Ok(text),
        Ok(None) => Err(no_text()),
        Err(_) => Err(io::Error::from(ErrorKind::OutOfMemory)),
    }
}

// Returns the text of failures after the ends that the lines of a run log state, which ended at
// this time. The log begins with the text of the session, and its last line is not whole. Returns
// none if `before` is no text of failures.
fn text_of_run(
    alloc: Global,
    before: &[u8],
    lines: &[&[u8]],
    time: &[u8],
) -> Result<Option<Vec<u8>>, AllocError> {
    let Some((_, whole)) = lines.split_last() else {
        return Ok(None);
    };
    let (front, run) = parted(whole);
    let state = states_before(front);
    let state = format!(in alloc; "{state}")?;
    let stamp = Stamp {
        time,
        state: state.as_bytes(),
    };
    let ups = words_of(alloc, now_in(front))?;
    let text = match ups.split_first() {
        Some((_, names)) => entered(alloc, before, run, names, stamp),
        None => entered(alloc, before, run, &[], stamp),
    };
    drop((ups, state));
    text
}

// Returns the lines of a run log that are the text of the session, but for its last one, and those
// after it.
fn parted<'b, 'a>(lines: &'b [&'a [u8]]) -> (&'b [&'a [u8]], &'b [&'a [u8]]) {
    for place in 0..lines.len() {
        if is(lines[place], b"end") {
            return (&lines[..place], &lines[place + 1..]);
        }
    }
    (lines, &[])
}

// Returns the line of the current state in the text of a session.
fn now_in<'a>(lines: &[&'a [u8]]) -> &'a [u8] {
    for line in lines {
        if is(line, b"now") || line.starts_with(b"now ") {
            return line;
        }
    }
    &[]
}

// Returns the number of states before the current one in the text of a session.
fn states_before(lines: &[&[u8]]) -> usize {
    let mut number: usize = 0;
    for line in lines {
        if is(line, b"now") || line.starts_with(b"now ") {
            return number;
        }
        if is(line, b"up") || line.starts_with(b"up ") {
            number = number.saturating_add(1);
        }
    }
    number
}

// Returns the present moment, in whole seconds.
fn now_of(rt: &HostRuntime) -> Timestamp {
    match Timestamp::now(rt) {
        Ok(now) => Timestamp::from_second(now.as_second()).unwrap_or(now),
        Err(_) => Timestamp::UNIX_EPOCH,
    }
}

// Creates the error for a text that is none of failures.
fn no_text() -> io::Error {
    io::Error::new(ErrorKind::InvalidInput, "it is no list of failures")
}
