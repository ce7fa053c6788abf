//! Programs that another command has started, or that one which was killed has left running.

use crate::start::{
    ASK, ASK_ONE, END, END_ONE, END_REST, FIRST_PAUSE, GRACE, is_over, longer, millis_since, signal,
};
use rc_script::Process;
use rc_streams::process_start::is_running;
use std::alloc::Global;
use std::fs::Files;
use std::process::Processes;
use std::thread;
use std::time::{Clock, Duration, Instant};

/// Returns true if a program that a killed command has started still runs.
pub fn is_left<R: Files>(rt: &R, alloc: Global, process: Process) -> bool {
    is_running(rt, alloc, process.id, process.start)
}

/// Waits for a program that a killed command has left running. If the program has a limit, and that
/// is over since the given moment, ends it and all of its process group, as a gate does. A program
/// without a limit is waited for until it ends.
pub fn end_left<R: Processes + Clock + Files>(
    rt: &R,
    alloc: Global,
    process: Process,
    since: Option<Instant>,
) {
    if has_gone(rt, alloc, process, since, process.limit) {
        return;
    }
    let asked = signal(rt, alloc, ASK, process.id).is_ok();
    let rest = if asked && has_gone(rt, alloc, process, Instant::now(rt).ok(), GRACE) {
        END_REST
    } else {
        END
    };
    let _ = signal(rt, alloc, rest, process.id);
}

/// Asks a program that another command has started to end, and all of its process group if it leads
/// one.
pub fn ask_to_end<R: Processes + Files>(rt: &R, alloc: Global, process: Process) {
    if is_left(rt, alloc, process) {
        let _ = signal(rt, alloc, ASK_ONE, process.id);
    }
}

/// Ends a program that another command has started, and all of its process group if it leads one.
pub fn end_at_once<R: Processes + Files>(rt: &R, alloc: Global, process: Process) {
    if is_left(rt, alloc, process) {
        let _ = signal(rt, alloc, END_ONE, process.id);
    }
}

/// Waits until a program has ended, at most so many milliseconds since a moment, and returns true
/// if it has. 0 is no limit. If the clock cannot be read, counts the pauses.
fn has_gone<R: Clock + Files>(
    rt: &R,
    alloc: Global,
    process: Process,
    since: Option<Instant>,
    limit: u64,
) -> bool {
    let mut paused: u64 = 0;
    let mut pause = FIRST_PAUSE;
    for _ in 0..u64::MAX {
        if !is_left(rt, alloc, process) {
            return true;
        }
        if limit > 0 && is_over(limit, millis_since(rt, since), paused / 1000) {
            return false;
        }
        thread::sleep(rt, Duration::from_micros(pause));
        paused = paused.saturating_add(pause);
        pause = longer(pause);
    }
    false
}
