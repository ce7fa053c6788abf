//! Waits for the programs that a command which was killed has left running.

use log::warn;
use rc_names::{Names, NoMem};
use rc_recovery::UnderWay;
use rc_runner::{end_left, is_left};
use rc_script::{Process, named_process};
use rc_streams::messages::{MESSAGE, Messages};
use std::time::Instant;

/// Waits until none of the programs runs any more that a log names for the transitions under way.
/// Tells of each that still runs. Ends one whose limit is over since this was called.
pub(crate) fn await_left(
    rt: &HostRuntime,
    names: &Names,
    log: &[u8],
    begun: &[UnderWay],
) -> Result<(), NoMem> {
    let since = Instant::now(rt).ok();
    for way in begun {
        let name = name_of(names, way.service);
        if let Some(process) = named_process(rt.alloc(), name, log)? {
            await_one(rt, name, process, since);
        }
    }
    Ok(())
}

// Waits until a program does not run any more, and tells of it if it does.
fn await_one(rt: &HostRuntime, name: &str, process: Process, since: Option<Instant>) {
    if is_left(rt, rt.alloc(), process) {
        let id = process.id;
        warn!(Messages(rt); target: MESSAGE,
            "{name}: waits for process {id} of a command that was killed");
        end_left(rt, rt.alloc(), process, since);
    }
}

// Returns the name of a service, or an empty text if it has none.
fn name_of(names: &Names, service: u16) -> &str {
    if service < names.len() {
        names.name_of(service).text()
    } else {
        ""
    }
}
