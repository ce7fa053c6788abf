//! Messages about the lock and the run log beside the file of a session.
use log::info;
use rc_launch::frontend::{FileOptions, tell_failure, tell_file, tell_no_history};
use rc_launch::{FileText, LiveText, Note, OpenFault, Opened, SeenLog, left_report};
use rc_streams::ending::WRONG_LINE;
use rc_streams::inherited::Unfit;
use rc_streams::messages::{HINT, MESSAGE, Messages};
use rc_streams::run_file;
use std::io;

/// Prints what was found beside the file of the session of a command.
pub fn tell_note(rt: &HostRuntime, opened: &Opened<'_>) {
    match opened.note() {
        Note::Nothing => {}
        Note::UnderWay => info!(Messages(rt); target: MESSAGE, "a command is under way"),
        Note::Cut => tell_cut(rt),
        Note::Logged(seen) => {
            if is_cut(opened, seen) {
                tell_cut(rt);
            }
        }
        Note::Locked(recovery) => {
            if let Some(report) = recovery.report() {
                info!(Messages(rt); target: MESSAGE, "Recovered");
                tell_report(rt, report);
            }
        }
    }
}

/// Reports that a command was cut short.
fn tell_cut(rt: &HostRuntime) {
    info!(Messages(rt); target: MESSAGE,
        "a command was cut short: the next one enters what it has moved");
}

/// Returns true if a run log is that of a command on the text of the session which was cut short.
fn is_cut(opened: &Opened<'_>, seen: &SeenLog<'_>) -> bool {
    match opened.live().bytes() {
        Some(text) => {
            let bytes = seen.log.bytes();
            seen.is_cut && bytes.len() > text.len() && bytes.starts_with(text)
        }
        None => false,
    }
}

/// Reports a file of `-b` that is not used because the session has a database of its own, and a
/// file of `-l` that is only looked at and does not exist. Also reports an update or a restart that
/// was cut short, if the command takes nothing of it back.
pub fn tell_session(rt: &HostRuntime, opened: &Opened<'_>, files: FileOptions<'_>) {
    if let Some(path) = opened.unused_base() {
        info!(Messages(rt); target: MESSAGE,
            "{path} is not the database of this session: undorc update{files} carries it over");
    }
    if let (false, Some(path), Ok(None)) = (
        opened.moves(),
        opened.session().live,
        opened.live().found(),
    ) {
        info!(Messages(rt); target: MESSAGE, "{path} does not exist: nothing is up");
    }
    if opened.moves() && opened.goes_on_from_passed(rt.alloc()) {
        info!(Messages(rt); target: MESSAGE,
            "an update or a restart was not finished: undorc undo{files} takes it back");
    }
}

/// Prints what was moved but the session does not have, because its file could not be written or
/// memory ran out.
pub fn tell_left(rt: &HostRuntime, opened: &Opened<'_>) {
    if let (Some(runs), Some(base)) = (opened.runs(), opened.base()) {
        if runs.files().log.has_run() {
            tell_log(rt, runs.path(), base);
        }
    }
}

/// Prints what a run log leaves for the next command to enter.
fn tell_log(rt: &HostRuntime, path: &str, base: &FileText<'_>) {
    let Ok(live) = LiveText::read(rt, Some(path)) else {
        return;
    };
    if let (Some(text), Ok(Some(log))) = (live.bytes(), run_file::read(rt, path)) {
        if let Ok(Some(report)) = left_report(rt.alloc(), base.bytes(), text, &log) {
            info!(Messages(rt); target: MESSAGE, "the next command enters what was moved");
            tell_report(rt, &report);
            drop(report);
        }
        drop(log);
    }
    drop(live);
}

/// Prints the lines of a report, except for the last one, which is that of an answer.
fn tell_report(rt: &HostRuntime, report: &[u8]) {
    if let Ok(lines) = str::from_utf8(report) {
        for line in lines.trim_end_matches("ok\n").lines() {
            info!(Messages(rt); target: HINT, "{line}");
        }
    }
}

/// Reports why the files of a command were not opened, and returns the status.
pub fn tell_opening(rt: &HostRuntime, fault: &OpenFault<'_>) -> u8 {
    match fault {
        OpenFault::Unfit(unfit) => tell_inherited(rt, *unfit),
        OpenFault::File(path, error) => tell_file(rt, path, error),
        OpenFault::Output(folder, error) => tell_output(rt, folder, error),
        OpenFault::History(path, fault) => tell_no_history(rt, path, *fault),
        OpenFault::Busy(path, owner) => {
            let status = tell_failure(rt, "Busy");
            if let Some(owner) = owner {
                info!(Messages(rt); target: HINT, "process {owner} goes on with {path}");
            }
            status
        }
        OpenFault::Lock(path, error) => tell_beside(rt, path, ".lock", error),
        OpenFault::Log(path, error) => tell_beside(rt, path, ".run", error),
        OpenFault::Stop(path, error) => tell_beside(rt, path, ".stop", error),
        OpenFault::NoDatabase(path) => tell_no_database(rt, path),
        OpenFault::NoBase(path) => tell_unfit(
            rt,
            path,
            "is of a command that was cut short: name its database by -b",
        ),
        OpenFault::OtherBase(path) => tell_unfit(
            rt,
            path,
            "is of another database: name that of the command that was cut short, or remove it",
        ),
        OpenFault::Memory => tell_failure(rt, "Memory"),
    }
}

/// Reports that a command needs a database, and returns the status: that of a wrong command line.
fn tell_no_database(rt: &HostRuntime, path: &str) -> u8 {
    info!(Messages(rt); target: MESSAGE,
        "this command wants -b, or UNDORC_DB: {path} has no database");
    WRONG_LINE
}

/// Reports why scripts can't be run with what the program inherits, and returns the status.
fn tell_inherited(rt: &HostRuntime, unfit: Unfit) -> u8 {
    let status = tell_failure(rt, "Inherited");
    match unfit {
        Unfit::ChildIgnored => info!(Messages(rt); target: HINT,
            "SIGCHLD is ignored, which hides how scripts end: start undorc by env --default-signal"),
        Unfit::SizeLimited => info!(Messages(rt); target: HINT,
            "files are limited in size, at which SIGXFSZ ends undorc: raise it by ulimit -f unlimited"),
    }
    status
}

/// Reports why a directory can't keep what scripts write, and returns the status. Of a directory
/// that is open to others, the text of the error speaks as of a file there.
fn tell_output(rt: &HostRuntime, folder: &str, error: &io::Error) -> u8 {
    let Ok(text) = format!(in rt.alloc(); "{error}") else {
        return tell_failure(rt, "Memory");
    };
    let status = match text.as_str().strip_suffix(" into its directory") {
        Some(who) => {
            let status = tell_failure(rt, "Io");
            info!(Messages(rt); target: HINT, "{folder}: {who} into it");
            status
        }
        None => tell_file(rt, folder, error),
    };
    drop(text);
    status
}

/// Reports why a file beside that of `-l` can't be read or written, and returns the status.
fn tell_beside(rt: &HostRuntime, path: &str, ending: &str, error: &io::Error) -> u8 {
    match format!(in rt.alloc(); "{path}{ending}") {
        Ok(beside) => {
            let status = tell_file(rt, beside.as_str(), error);
            drop(beside);
            status
        }
        Err(_) => tell_failure(rt, "Memory"),
    }
}

/// Reports that a log can't be entered, and returns the status.
fn tell_unfit(rt: &HostRuntime, path: &str, why: &str) -> u8 {
    let status = tell_failure(rt, "Unrecovered");
    info!(Messages(rt); target: HINT, "{path}.run {why}");
    status
}
