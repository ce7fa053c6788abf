//! What an undo or a redo on a history would do.
ghost use Rattle.rc_streams.specs.Noting.{HasFailed};

use crate::borders::{first_unjoined, goes_on_behind};
use crate::execution::Execution;
use crate::live_store::LiveStore;
use crate::outcomes::{fail_on, say_done, tell_unjoined};
use crate::serving::serve_on;
use crate::travel::{MAX_STEPS, history_in};
use rc_args::Once;
use rc_cli::sessions::{Devices, LiveFile, Service};
use rc_historytext::{cross_border, standing_of};
use rc_streams::Failure;
use rc_streams::ending::{DONE, FAILED};
use std::io::{Read, Write};
use std::sync::Wait;
use std::thread::Threads;

/// The line that shows an undo (not `is_on`) or a redo.
#[derive(Clone, Copy)]
pub(crate) struct Shown<'a> {
    pub once: &'a Once,
    pub is_on: bool,
}

/// Shows what an undo or a redo would do: the plan of each of its runs, as if the earlier ones were
/// done. Returns the status.
pub(crate) fn show<'x, T: Threads + Wait + Sync, R: Read, W: Write, F: Write>(
    execution: &Execution<'x, '_, T>,
    shown: Shown<'_>,
    devices: &mut Devices<R, W, F, LiveStore<'x>>,
) -> u8
    requires reader { HasFailed devices.old.reader → ⊥ }
    requires writer { HasFailed devices.old.outputs.writer → ⊥ }
{
    let alloc = execution.rt.alloc();
    match first_unjoined(alloc, history_in(devices), shown.is_on) {
        Ok(None) => {}
        Ok(Some(border)) => return tell_unjoined(alloc, border, devices),
        Err(_) => return fail_on(b"Memory", devices),
    }
    let Ok(history) = Vec::from_slice(alloc, history_in(devices)) else {
        return fail_on(b"Memory", devices);
    };
    show_from(execution, shown, history, devices)
}

// Shows the runs of an undo or a redo from this history on, and returns the status.
fn show_from<'x, T: Threads + Wait + Sync, R: Read, W: Write, F: Write>(
    execution: &Execution<'x, '_, T>,
    shown: Shown<'_>,
    mut history: Vec<u8>,
    devices: &mut Devices<R, W, F, LiveStore<'x>>,
) -> u8 {
    let mut has_run = false;
    for _ in 0..MAX_STEPS {
        match show_inside(execution, shown, &history, devices) {
            Ok((is_run, crosses)) => {
                has_run = has_run || is_run;
                if !crosses {
                    break;
                }
            }
            Err(code) => {
                drop(history);
                return code;
            }
        }
        let crossed = cross_border(execution.rt.alloc(), &history, shown.is_on);
        drop(history);
        history = match crossed {
            Ok(crossed) => crossed,
            Err(_) => return fail_on(b"Memory", devices),
        };
        match goes_on_behind(execution.rt.alloc(), &history, shown.is_on) {
            Ok(true) => {}
            Ok(false) => break,
            Err(_) => {
                drop(history);
                return fail_on(b"Memory", devices);
            }
        }
    }
    drop(history);
    if has_run {
        DONE
    } else {
        say_done(b"ok\n", devices)
    }
}

// Shows the run of an undo or a redo in the present generation of a history, if there is one.
// Returns whether there is one, and whether the border behind it is crossed then; or the status, if
// the run is not shown.
fn show_inside<'x, T: Threads + Wait + Sync, R: Read, W: Write, F: Write>(
    execution: &Execution<'x, '_, T>,
    shown: Shown<'_>,
    history: &[u8],
    devices: &mut Devices<R, W, F, LiveStore<'x>>,
) -> Result<(bool, bool), u8> {
    if devices.reader.failed() || devices.outputs.writer.failed() {
        return Err(FAILED);
    }
    let Ok(standing) = standing_of(execution.rt.alloc(), history) else {
        return Err(fail_on(b"Memory", devices));
    };
    let crosses = standing.crosses_behind(shown.is_on);
    if !standing.has_inside(shown.is_on) && crosses {
        return Ok((false, true));
    }
    let (service, live) = (Service::Line(shown.once), LiveFile::Text(standing.session));
    match serve_on(execution, service, standing.database, live, devices) {
        DONE => Ok((true, crosses && standing.passes_inside(shown.is_on))),
        code => Err(code),
    }
}
