//! `cancel`: calls off the command that goes on with a session.

use crate::killing::end_begun;
use log::info;
use rc_launch::frontend::tell_file;
use rc_names::NoMem;
use rc_runner::is_left;
use rc_script::{Process, named_process};
use rc_streams::ending::{DONE, REFUSED};
use rc_streams::messages::{MESSAGE, Messages};
use rc_streams::{run_file, stop_file};
use std::alloc::{AllocError, Global};

/// Calls off the command that goes on with the session in this file, ends the scripts that it has
/// started if `kills`, and returns the status. It is 0 if there is such a command, which then
/// begins no more transitions, and 1 if none is under way. A command that was killed is under way
/// as long as a script that it has started still runs.
pub fn cancel(rt: &HostRuntime, path: &str, kills: bool) -> u8 {
    match stop_file::call_off(rt, path) {
        Ok(is_alive) if is_alive || has_left(rt, path) => {
            if kills {
                end_begun(rt, path, is_alive);
            }
            tell_under_way(rt, path, is_alive);
            DONE
        }
        Ok(_) => {
            info!(Messages(rt); target: MESSAGE, "no command is under way on {path}");
            REFUSED
        }
        Err(error) => tell_file(rt, path, &error),
    }
}

/// Returns true if a script still runs that a command has started, by the run log of its session.
fn has_left(rt: &HostRuntime, path: &str) -> bool {
    let Ok(Some(log)) = run_file::read(rt, path) else {
        return false;
    };
    let has_left = match std::str::from_utf8(&log) {
        Ok(text) => has_left_in(rt, text).unwrap_or(false),
        Err(_) => false,
    };
    drop(log);
    has_left
}

/// Returns true if a script still runs that is under way by the text of a run log.
fn has_left_in(rt: &HostRuntime, log: &str) -> Result<bool, NoMem> {
    let taken = under_way(rt.alloc(), log)?;
    for one in &taken {
        if runs(rt, process_in(rt.alloc(), one.name, log)?, false) {
            return Ok(true);
        }
    }
    Ok(false)
}

/// Returns the process that the text of a run log names for a service.
pub fn process_in(alloc: Global, name: &str, log: &str) -> Result<Option<Process>, NoMem> {
    named_process(alloc, name, log.as_bytes())
}

/// Returns true if a process runs. One that no log names yet runs if its command `is_alive`.
pub fn runs(rt: &HostRuntime, process: Option<Process>, is_alive: bool) -> bool {
    match process {
        Some(process) => is_left(rt, rt.alloc(), process),
        None => is_alive,
    }
}

/// Prints the services that a command moves now, by the run log of its session: it waits for them,
/// or, if it is not alive, the next one does. Prints nothing if the log can't be read or memory is
/// short.
fn tell_under_way(rt: &HostRuntime, path: &str, is_alive: bool) {
    let Ok(Some(log)) = run_file::read(rt, path) else {
        return;
    };
    if let Ok(text) = std::str::from_utf8(&log) {
        let _ = tell_in(rt, text, is_alive);
    }
    drop(log);
}

/// Prints the services that are under way by the text of a run log. If the command is not alive,
/// prints only those whose script still runs.
fn tell_in(rt: &HostRuntime, log: &str, is_alive: bool) -> Result<(), NoMem> {
    let taken = under_way(rt.alloc(), log)?;
    for one in &taken {
        let name = one.name;
        if is_alive || runs(rt, process_in(rt.alloc(), name, log)?, false) {
            info!(Messages(rt); target: MESSAGE, "{name} is under way");
        }
    }
    Ok(())
}

/// A transition that a worker has begun.
#[derive(Clone, Copy)]
pub struct Taken<'a> {
    worker: &'a str,
    /// The name of its service.
    pub name: &'a str,
}

/// Returns the transitions of a run log that have begun and have not ended.
pub fn under_way(alloc: Global, log: &str) -> Result<Vec<Taken<'_>>, AllocError> {
    let mut taken = Vec::new(alloc);
    for line in log.split('\n') {
        enter_line(&mut taken, line)?;
    }
    Ok(taken)
}

/// Enters a line of a run log among the transitions that are under way.
fn enter_line<'a>(taken: &mut Vec<Taken<'a>>, line: &'a str) -> Result<(), AllocError> {
    let mut words = line.split(' ');
    let (Some(word), Some(worker)) = (words.next(), words.next()) else {
        return Ok(());
    };
    if matches!(word, "done") {
        taken.retain(|one| one.worker != worker);
    }
    if let ("take", Some(name)) = (word, words.next()) {
        taken.push(Taken { worker, name })?;
    }
    Ok(())
}
