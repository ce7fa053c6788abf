//! Reports why the conversions of an update are refused, and why an update moves a service.
use crate::frontend::hints::tell_failure;
use log::{error, info};
use rc_args::RenameFault;
use rc_compile::command::diagnostics::text_of;
use rc_db::Db;
use rc_dbtext::database_of;
use rc_livetext::read_live;
use rc_set::Set;
use rc_streams::ending::REFUSED;
use rc_streams::messages::{HINT, MESSAGE, Messages};
use rc_update::{Conversion, Difference, difference_of, staying};

/// Reports why conversions are refused, with the file of the renames, and returns the status.
pub fn tell_renames(rt: &HostRuntime, path: Option<&str>, fault: &RenameFault<'_>) -> u8 {
    match fault {
        RenameFault::BadLine(line) => {
            error!(Messages(rt); target: MESSAGE, "BadLine {line}");
            if let Some(path) = path {
                info!(Messages(rt); target: HINT,
                    "{path}:{line}: expected `OLD -> NEW`, `OLD -> NEW restart` or `NAME restart`");
            }
            REFUSED
        }
        RenameFault::Twice(name) => {
            let name = text_of(name);
            error!(Messages(rt); target: MESSAGE, "Twice {name}");
            REFUSED
        }
        RenameFault::Memory => tell_failure(rt, "Memory"),
    }
}

/// Reports why an update between the databases moves services: for each service that it moves and
/// that is live in the session of this text.
pub fn tell_moves(rt: &HostRuntime, old: &[u8], new: &[u8], list: &[Conversion<'_>], text: &[u8]) {
    let Ok((from, _none)) = database_of(rt.alloc(), Some(old), &[]) else {
        return;
    };
    if let Ok((to, _none)) = database_of(rt.alloc(), Some(new), &[]) {
        tell_between(rt, &from, &to, list, text);
        drop(to);
    }
    drop(from);
}

/// Reports why an update from one database to another moves services of a session.
fn tell_between(rt: &HostRuntime, old: &Db, new: &Db, list: &[Conversion<'_>], text: &[u8]) {
    let Ok((line, _states)) = read_live(rt.alloc(), text, old) else {
        return;
    };
    tell_live(rt, old, new, list, line.live());
    drop(line);
}

/// Reports why an update moves services: for each of the given live services that it moves.
fn tell_live(rt: &HostRuntime, old: &Db, new: &Db, list: &[Conversion<'_>], live: &Set) {
    let count = old.names().len();
    if live.bound() != count {
        return;
    }
    let Ok(stays) = staying(rt.alloc(), old, new, list, live) else {
        return;
    };
    for id in 0..count {
        if live.contains(id) && !stays.contains(id) {
            tell_move(rt, old, id, new, list, &stays);
        }
    }
    drop(stays);
}

/// Reports why one service moves.
fn tell_move(rt: &HostRuntime, old: &Db, id: u16, new: &Db, list: &[Conversion<'_>], stays: &Set) {
    let count = old.names().len();
    if id >= count || stays.bound() != count {
        return;
    }
    let name = old.names().name_of(id).text();
    match difference_of(rt.alloc(), old, id, list, new) {
        Ok(Some(difference)) => {
            let why = reason_of(difference);
            info!(Messages(rt); target: MESSAGE, "{name} moves: {why}");
        }
        Ok(None) => {
            if let Some(need) = moving_need(old, id, stays) {
                info!(Messages(rt); target: MESSAGE, "{name} moves: its dependency {need} moves");
            }
        }
        Err(_) => {}
    }
}

/// Returns the words for a difference.
fn reason_of(difference: Difference) -> &'static str {
    match difference {
        Difference::Gone => "it is gone",
        Difference::Restart => "a restart is requested",
        Difference::OtherKind => "its kind changed",
        Difference::OtherPipeline => "its pipeline changed",
        Difference::OtherNeeds => "its dependencies changed",
    }
}

/// Returns the name of a service's first dependency that does not stay.
fn moving_need<'a>(old: &'a Db, id: u16, stays: &Set) -> Option<&'a str> {
    if id >= old.graph().len() {
        return None;
    }
    for need in old.graph().needs(id) {
        if *need < stays.bound() && *need < old.names().len() && !stays.contains(*need) {
            return Some(old.names().name_of(*need).text());
        }
    }
    None
}
