//! Commands on the file of a session: opens their files, carries them out, and prints what helps.
ghost use Rattle.rc_streams.specs.Noting.{HasFailed};

use crate::history;
use crate::notes::{tell_left, tell_note, tell_opening, tell_session};
use crate::printed::Printed;
use crate::reasons::tell_why;
use crate::restarts::tell_down;
use crate::tails::show_tails;
use crate::workers::tell_workers;
use log::warn;
use rc_args::{Once, SessionCommand, Verbosity};
use rc_cli::sessions::{Devices, Outputs, Store, TextKeeper};
use rc_launch::frontend::{
    Answers, FileOptions, Place, Seen, ToldErrors, Typed, behind_session, tell_failure, told_errors,
};
use rc_launch::{LiveStore, Opened, open};
use rc_names::NoMem;
use rc_script::SessionLine;
use rc_streams::Noted;
use rc_streams::ending::REFUSED;
use rc_streams::messages::{MESSAGE, Messages};
use std::io::{self, ErrorKind};
use std::sync::Wait;
use std::thread::Threads;

/// Carries a command out on the database of a file, and returns the status.
pub fn carry_out<'a, T: Threads + Wait + Sync>(
    rt: &'a HostRuntime,
    threads: &T,
    command: SessionCommand<'a>,
    file: Option<&'a str>,
) -> u8 {
    match open(rt, command, file) {
        Ok((opened, store)) => {
            tell_note(rt, &opened);
            let files = FileOptions {
                base: file,
                live: opened.session().live,
            };
            tell_session(rt, &opened, files);
            let status = carry_out_on(rt, threads, &opened, files, store);
            drop(opened);
            status
        }
        Err(fault) => tell_opening(rt, &fault),
    }
}

/// Carries a command out on the files that were opened for it, and returns the status.
fn carry_out_on<'x, T: Threads + Wait + Sync>(
    rt: &'x HostRuntime,
    threads: &'x T,
    opened: &'x Opened<'x>,
    files: FileOptions<'x>,
    store: LiveStore<'x>,
) -> u8 {
    let Ok(store) = store.of(opened) else {
        return tell_failure(rt, "Memory");
    };
    let mut typed = Typed::new(rt, reads(opened));
    let mut printed = Printed {
        answers: Answers::new(rt, base_in(opened), place_of(opened, files.base), files),
        held: held_for(rt, opened),
    };
    let mut devices = devices_of(rt, &mut typed, &mut printed, store);
    let status = rc_launch::carry_out(rt, threads, opened, &mut devices).code();
    close(rt, opened);
    let Devices {
        reader: _,
        outputs,
        faults: told,
    } = devices;
    let store = store_in(outputs);
    enter(rt, opened, status);
    let status = show_journal(rt, opened, &printed, status);
    show_tails(rt, opened, status);
    let (input, answers) = (typed.kept(), &printed.answers);
    tell_hints(rt, opened, input, answers, store.error(), &told);
    tell_workers(rt, threads, &told);
    tell_why(rt, opened, input, status);
    tell_down(rt, opened, files, status);
    tell_left(rt, opened);
    status
}

/// Removes the files of the runs of a command that is over, and warns if the log could not be
/// written. The lock is still held.
fn close(rt: &HostRuntime, opened: &Opened<'_>) {
    if let Some(runs) = opened.runs() {
        runs.remove(rt);
        if runs.files().log.has_failed() {
            let path = runs.path();
            warn!(Messages(rt); target: MESSAGE,
                "{path}.run can't be written: what could not be logged was not started");
        }
    }
}

/// Enters a command that altered the file of the session into its log.
fn enter(rt: &HostRuntime, opened: &Opened<'_>, status: u8) {
    if let (true, Some(path)) = (opened.moves(), opened.session().live) {
        history::enter(rt, path, opened.live(), status);
    }
}

/// Returns where a journal is held to which the commands are added that made its entries, if this
/// is asked for.
fn held_for(rt: &HostRuntime, opened: &Opened<'_>) -> Option<Vec<u8>> {
    if opened.session().verbosity == Verbosity::Transitions && is_journal(opened.command()) {
        Some(Vec::new(rt.alloc()))
    } else {
        None
    }
}

/// Prints a journal, if it is held, with the commands that made its entries. Returns the status,
/// which was this before.
fn show_journal(rt: &HostRuntime, opened: &Opened<'_>, printed: &Printed<'_>, status: u8) -> u8 {
    let Some(journal) = &printed.held else {
        return status;
    };
    match history::show(rt, opened.session().live, journal) {
        Ok(()) => status,
        Err(error) if error.kind() == ErrorKind::OutOfMemory => tell_failure(rt, "Memory"),
        Err(_) => tell_failure(rt, "Write"),
    }
}

/// Returns true if the line shows the journal.
fn is_journal(command: &SessionCommand<'_>) -> bool {
    match command {
        SessionCommand::Line(request) => {
            matches!(request.once, Once::Line(SessionLine::Journal))
        }
        _ => false,
    }
}

/// Creates devices that have not failed yet, with standard error for faults.
fn devices_of<R, W, S: Store>(
    rt: &HostRuntime,
    reader: R,
    writer: W,
    store: S,
) -> Devices<R, W, ToldErrors, S>
    ensures reader { HasFailed result.reader → ⊥ }
    ensures writer { HasFailed result.outputs.writer → ⊥ }
{
    Devices {
        reader: Noted::new(reader),
        outputs: Outputs {
            writer: Noted::new(writer),
            keeper: TextKeeper::new(store),
        },
        faults: told_errors(rt),
    }
}

/// Returns the store of outputs that are no longer written.
fn store_in<W: Drop, S: Store>(outputs: Outputs<W, S>) -> S {
    let Outputs { writer: _, keeper } = outputs;
    keeper.into_store()
}

/// Returns the name of the input that is read before the command, for the prompt at a terminal.
fn reads(opened: &Opened<'_>) -> Option<&'static str> {
    if opened.base().is_some() {
        return None;
    }
    if matches!(opened.command(), SessionCommand::Lines(_)) {
        return Some("the database and the session's lines");
    }
    Some("the database")
}

/// Returns where the database of a command stands: in the file of the session, in that of `-b`, or
/// on standard input.
fn place_of<'a>(opened: &Opened<'a>, file: Option<&'a str>) -> Place<'a> {
    match (opened.live().history(), opened.session().live) {
        (Some(_), Some(path)) => Place::Session(path, None),
        _ => Place::of(file),
    }
}

/// Returns the bytes of the database of a command, if one is named.
fn base_in<'a>(opened: &'a Opened<'_>) -> Option<&'a [u8]> {
    match opened.base() {
        Some(base) => Some(base.bytes()),
        None => None,
    }
}

/// Prints what helps after the answers of a command that read this input, and after its faults.
fn tell_hints(
    rt: &HostRuntime,
    opened: &Opened<'_>,
    input: Option<&[u8]>,
    answers: &Answers<'_>,
    unwritten: Option<&io::Error>,
    told: &ToldErrors,
) {
    if let Ok(seen) = seen_of(rt, opened, input) {
        if let Some(database) = seen.input {
            answers.tell_all(database);
        }
        let live = opened.live();
        behind_session(rt, live.path(), live.found(), unwritten, &seen, told);
    }
}

/// Returns the database that a fault may belong to: that of the command. For an update it is the
/// old one, or the new one if the old one is good and the new one is not.
fn seen_of<'a>(
    rt: &HostRuntime,
    opened: &'a Opened<'_>,
    input: Option<&'a [u8]>,
) -> Result<Seen<'a>, NoMem> {
    let Some(base) = opened.base() else {
        return Ok(Seen::new(Place::Input, None, input));
    };
    let place = place_of(opened, Some(base.path()));
    let seen = Seen::new(place, Some(base.bytes()), input);
    if let Some(new) = opened.new_base() {
        let other = Seen::new(Place::File(new.path()), Some(new.bytes()), None);
        if seen.is_good(rt)? && !other.is_good(rt)? {
            return Ok(other);
        }
    }
    Ok(seen)
}
