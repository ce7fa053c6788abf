//! `undorc`: hands the process's words, files and streams to the library.
#![tactic(auto)]

mod cancelling;
mod commands;
mod defaults;
mod history;
mod killing;
mod makers;
mod notes;
mod own_name;
mod printed;
mod programs;
mod reasons;
mod restarts;
mod tails;
mod updates;
mod usage;
mod workers;

use crate::cancelling::cancel;
use crate::commands::carry_out;
use crate::defaults::{DefaultTexts, defaults_at, unread_in};
use crate::own_name::words;
use crate::programs::tell_programs;
use crate::updates::update;
use crate::usage::{asks_version, tell_wrong};
use log::error;
use rc_args::{Invocation, SessionCommand, invocation_of};
use rc_cli::queries::Query;
use rc_launch::frontend::{compile, query, tell_failure};
use rc_streams::messages::{MESSAGE, Messages};
use std::io::{self, ErrorKind};
use std::process::ExitCode;

/// A wrong command line.
pub const WRONG_LINE: u8 = 100;
/// What `undorc version` and `undorc --version` print: the first entry of NEWS, with its date if it
/// is a release.
const VERSION: &str = "undorc 0.2.0, in development";

fn main(rt: HostRuntime) -> ExitCode {
    let status = match words(&rt) {
        Ok(words) => {
            let defaults = defaults_at(&rt);
            match asked(&rt, &words, &defaults) {
                Ok(invocation) => match invocation {
                    Invocation::Session(command, file) => match command {
                        SessionCommand::Update(request) => update(&rt, &rt, request, file),
                        other => carry_out(&rt, &rt, other, file),
                    },
                    Invocation::Compile(request) => compile(&rt, &request),
                    Invocation::Db(request, file) => query(&rt, Query::Db(&request, None), file),
                    Invocation::Plan(request, file) => query(&rt, Query::Plan(&request), file),
                    Invocation::Replay(file) => query(&rt, Query::Replay, file),
                    Invocation::Cancel(kills, file) => cancel(&rt, file.unwrap_or(""), kills),
                    Invocation::Version => version(&rt),
                },
                Err(status) => status,
            }
        }
        Err(error) => tell(&rt, &error),
    };
    ExitCode::from(status)
}

/// Reads the command line with these defaults. If it is wrong, names a program that does not exist
/// or only wants the version, prints why or the version, and returns the status.
fn asked<'a>(
    rt: &HostRuntime,
    words: &'a [String],
    defaults: &'a DefaultTexts,
) -> Result<Invocation<'a>, u8> {
    if asks_version(words) {
        return Err(version(rt));
    }
    match defaults.texts() {
        Ok(defaults) => match invocation_of(rt.alloc(), words, defaults) {
            Ok(invocation) => match unfit(rt, &invocation) {
                Some(status) => {
                    drop(invocation);
                    Err(status)
                }
                None => Ok(invocation),
            },
            Err(fault) => Err(tell_wrong(rt, words, &fault)),
        },
        Err(_) => Err(tell_failure(rt, "Memory")),
    }
}

/// Reports a variable that is no text, or a program that can't be started, if the invocation uses
/// one, and returns the status.
fn unfit(rt: &HostRuntime, invocation: &Invocation<'_>) -> Option<u8> {
    match unread_in(invocation) {
        Some(variable) => Some(tell_unread(rt, variable)),
        None => tell_programs(rt, invocation),
    }
}

/// Prints the version, and returns the status.
fn version(rt: &HostRuntime) -> u8 {
    if rt.println(VERSION).is_err() {
        return tell_failure(rt, "Write");
    }
    0
}

/// Reports why the arguments could not be read, and returns the status.
fn tell(rt: &HostRuntime, error: &io::Error) -> u8 {
    if error.kind() == ErrorKind::InvalidData {
        return tell_unread(rt, "a word of the command line");
    }
    tell_failure(rt, "Memory")
}

/// Reports what is no text, and returns the status.
fn tell_unread(rt: &HostRuntime, what: &str) -> u8 {
    error!(Messages(rt); target: MESSAGE, "{what} is not UTF-8");
    WRONG_LINE
}
