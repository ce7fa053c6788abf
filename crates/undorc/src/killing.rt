//! `cancel -k`: ends the scripts that the command which goes on with a session has started.

use crate::cancelling::{process_in, runs, under_way};
use log::info;
use rc_runner::{ask_to_end, end_at_once, is_left};
use rc_script::Process;
use rc_streams::messages::{MESSAGE, Messages};
use rc_streams::run_file;
use std::alloc::AllocError;
use std::thread;
use std::time::Duration;

/// How often the run log is looked at, at most.
const LOOKS: u32 = 100;

/// After how many looks a script is ended that was asked to end.
const PATIENCE: u32 = 50;

/// The pause between two looks, in milliseconds.
const PAUSE: u64 = 100;

/// What is done with scripts, and what has been done.
#[derive(Drop)]
struct Ends {
    /// Whether the command of the scripts is alive.
    is_alive: bool,
    /// Whether those that still run are ended, and not asked to end.
    is_over: bool,
    /// The process ids of those that were asked to end.
    asked: Vec<u64>,
}

/// Ends the scripts that a command has started, by the run log of its session. Asks each to end,
/// and ends those that still run after five seconds. Returns when none is under way, or after ten
/// seconds.
pub fn end_begun(rt: &HostRuntime, path: &str, is_alive: bool) {
    let mut ends = Ends {
        is_alive,
        is_over: false,
        asked: Vec::new(rt.alloc()),
    };
    for look in 0..LOOKS {
        ends.is_over = look >= PATIENCE;
        match end_each(rt, path, &mut ends) {
            Ok(true) => thread::sleep(rt, Duration::from_millis(PAUSE)),
            Ok(false) | Err(_) => break,
        }
    }
    drop(ends);
}

/// Asks each script that is under way to end, or ends it. Returns true if one is under way.
fn end_each(rt: &HostRuntime, path: &str, ends: &mut Ends) -> Result<bool, AllocError> {
    let Ok(Some(log)) = run_file::read(rt, path) else {
        return Ok(false);
    };
    let is_any = match std::str::from_utf8(&log) {
        Ok(text) => end_in(rt, text, ends),
        Err(_) => Ok(false),
    };
    drop(log);
    is_any
}

/// Asks each script that is under way by the text of a run log to end, or ends it. Returns true if
/// one is under way.
fn end_in(rt: &HostRuntime, log: &str, ends: &mut Ends) -> Result<bool, AllocError> {
    let mut is_any = false;
    let taken = under_way(rt.alloc(), log)?;
    for one in &taken {
        let process = process_in(rt.alloc(), one.name, log)?;
        is_any |= runs(rt, process, ends.is_alive);
        if let Some(process) = process {
            end_one(rt, one.name, process, ends)?;
        }
    }
    Ok(is_any)
}

/// Asks a script to end, if it was not asked before, or ends it.
fn end_one(
    rt: &HostRuntime,
    name: &str,
    process: Process,
    ends: &mut Ends,
) -> Result<(), AllocError> {
    let id = process.id;
    if ends.is_over {
        end_at_once(rt, rt.alloc(), process);
    } else if !ends.asked.contains(&id) && is_left(rt, rt.alloc(), process) {
        info!(Messages(rt); target: MESSAGE, "{name}: ends process {id}");
        ask_to_end(rt, rt.alloc(), process);
        ends.asked.push(id)?;
    }
    Ok(())
}
