//! The programs of -r and -c, which are looked at before anything moves. Their words are quoted by
//! no shell, and their programs have to exist.
use crate::WRONG_LINE;
use crate::defaults::programs_of;
use log::{error, info};
use rc_args::{Invocation, SessionCommand};
use rc_launch::frontend::tell_failure;
use rc_streams::messages::{HINT, MESSAGE, Messages};
use std::env::{self, VarError};
use std::fs;
use std::io::ErrorKind;

/// The directories that are searched where PATH is not set.
const DEFAULT_PATH: &str = "/bin:/usr/bin";

/// Reports a program that an invocation names and that can't be started as it is meant, if there is
/// one, and returns the status.
pub fn tell_programs(rt: &HostRuntime, invocation: &Invocation<'_>) -> Option<u8> {
    let Invocation::Session(command, _) = invocation else {
        return None;
    };
    let (runner, controller) = programs_of(command);
    let named = [("-r", runner), ("-c", controller)];
    for (option, text) in &named {
        if let Some(word) = quoted_in(*text) {
            return Some(tell_quoted(rt, option, word));
        }
    }
    if matches!(command, SessionCommand::Lines(_)) {
        return None;
    }
    for (option, text) in &named {
        if let Some(program) = missing_in(rt, *text) {
            return Some(tell_missing(rt, option, program));
        }
    }
    None
}

/// Returns the first word of a text that has a quote at one of its ends.
fn quoted_in<'a>(text: Option<&'a str>) -> Option<&'a str> {
    for word in text?
        .as_bytes()
        .split(|byte| *byte == b' ' || *byte == b'\t')
    {
        if is_quote(word.first()) || is_quote(word.last()) {
            return std::str::from_utf8(word).ok();
        }
    }
    None
}

/// Returns true if a byte is a quote of a shell.
fn is_quote(byte: Option<&u8>) -> bool {
    matches!(byte, Some(b'\'' | b'"'))
}

/// Reports a word with a quote, and returns the status.
fn tell_quoted(rt: &HostRuntime, option: &str, word: &str) -> u8 {
    error!(Messages(rt); target: MESSAGE,
        "no shell reads the words of {option}: the quote of {word} would reach the program");
    WRONG_LINE
}

/// Returns the first word of a text, if no program has that name.
fn missing_in<'a>(rt: &HostRuntime, text: Option<&'a str>) -> Option<&'a str> {
    for word in text?
        .as_bytes()
        .split(|byte| *byte == b' ' || *byte == b'\t')
    {
        if !word.is_empty() {
            let program = std::str::from_utf8(word).ok()?;
            return if has_program(rt, program) {
                None
            } else {
                Some(program)
            };
        }
    }
    None
}

/// Returns true if a program has this name: at its path, or in a directory of PATH if the name has
/// no slash. If that can't be found out, the answer is true.
fn has_program(rt: &HostRuntime, program: &str) -> bool {
    if program.contains('/') {
        return is_there(rt, program);
    }
    match env::var(rt, "PATH") {
        Ok(path) => {
            let found = is_in(rt, path.as_str(), program);
            drop(path);
            found
        }
        Err(VarError::NotPresent) => is_in(rt, DEFAULT_PATH, program),
        Err(_) => true,
    }
}

/// Returns true if one of these directories has a file of this name. An empty one is the present
/// directory.
fn is_in(rt: &HostRuntime, directories: &str, program: &str) -> bool {
    for directory in directories.split(':') {
        let slash = if directory.is_empty() { "" } else { "/" };
        match format!(in rt.alloc(); "{directory}{slash}{program}") {
            Ok(path) => {
                let found = is_there(rt, path.as_str());
                drop(path);
                if found {
                    return true;
                }
            }
            Err(_) => return true,
        }
    }
    false
}

/// Returns true unless there is no file at a path.
fn is_there(rt: &HostRuntime, path: &str) -> bool {
    match fs::metadata(rt, path) {
        Ok(_) => true,
        Err(error) => !matches!(error.kind(), ErrorKind::NotFound | ErrorKind::NotADirectory),
    }
}

/// Reports a program that does not exist, and returns the status.
fn tell_missing(rt: &HostRuntime, option: &str, program: &str) -> u8 {
    let status = tell_failure(rt, "Io");
    if program.contains('/') {
        info!(Messages(rt); target: HINT, "{option}: there is no program {program}");
    } else {
        info!(Messages(rt); target: HINT, "{option}: no directory of PATH has a program {program}");
    }
    status
}
