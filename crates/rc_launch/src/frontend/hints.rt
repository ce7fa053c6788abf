//! The lines after a fault, for people: where it is, and what helps. They change no status, and
//! where nothing is found, or memory is short, there are none.
use crate::frontend::databases::{
    Place, behind_end, database_hint, lacking_hint, live_hint, near_hint,
};
use crate::frontend::fault_lines::Told;
use log::{error, info};
use rc_args::{CompileRequest, DbRequest, Query};
use rc_cli::queries::{self, query_hint, run_query};
use rc_compile::command::diagnostics::{
    Hint, Sources, compile_hint, looks_like_entry, unread_files, word_of,
};
use rc_historytext::HistoryFault;
use rc_names::NoMem;
use rc_streams::Noted;
use rc_streams::ending::{FAILED, REFUSED};
use rc_streams::escaping::{Escaped, Shown};
use rc_streams::messages::{HINT, MESSAGE, Messages};
use std::alloc::AllocError;
use std::fmt::{self, Display, Formatter};
use std::io::{self, ErrorKind, Stderr};

/// A fault writer that keeps what was told.
pub type ToldErrors = Told<Escaped<Stderr>>;

/// Creates a fault writer that has reported nothing yet.
pub fn told_errors(rt: &HostRuntime) -> ToldErrors {
    Told::new(rt.alloc(), Escaped::of_lines(rt.stderr()))
}

/// Prints what helps after a run of `compile`, and, if requested, notes about the sources, such as
/// the files that were not looked at.
pub fn behind_compile(rt: &HostRuntime, request: &CompileRequest<'_>, told: &ToldErrors) {
    let sources = Sources::new(rt, rt.alloc(), &request.sources);
    match told.fault() {
        Ok(Some((word, names))) => {
            tell_found(rt, HINT, compile_hint(&sources, word, names));
        }
        Ok(None) => {
            tell_found(rt, MESSAGE, looks_like_entry(&sources));
        }
        Err(_) => {}
    }
    if request.tells {
        tell_found(rt, MESSAGE, unread_files(&sources));
    }
}

/// Where the database of a command stands, in a file or at the beginning of standard input, and
/// what was read of that, if there was memory for all of it.
#[derive(Clone, Copy)]
pub struct Seen<'a> {
    place: Place<'a>,
    base: Option<&'a [u8]>,
    pub input: Option<&'a [u8]>,
}

impl<'a> Seen<'a> {
    pub fn new(place: Place<'a>, base: Option<&'a [u8]>, input: Option<&'a [u8]>) -> Seen<'a> {
        Seen { place, base, input }
    }

    /// Returns true if a database stands there. Fails if memory runs out.
    pub fn is_good(&self, rt: &HostRuntime) -> Result<bool, NoMem> {
        let Some(database) = self.base.or(self.input) else {
            return Err(AllocError);
        };
        match checked(rt, self.base, database) {
            0 => Ok(true),
            FAILED => Err(AllocError),
            _ => Ok(false),
        }
    }
}

/// Returns the status of `db check` on a database.
fn checked(rt: &HostRuntime, base: Option<&[u8]>, input: &[u8]) -> u8 {
    run_query(
        rt.alloc(),
        &queries::Query::Db(&DbRequest::of(Query::Check), None),
        base,
        &mut Noted::new(input),
        &mut Noted::new(io::sink()),
        &mut io::sink(),
    )
}

/// Prints what helps after a fault of the database, or of a request on it.
fn behind_database(rt: &HostRuntime, seen: &Seen<'_>, told: &ToldErrors) {
    let Ok(Some((word, rest))) = told.fault() else {
        return;
    };
    match plain_hint(word, rest, seen.place.path().is_some()) {
        Some(line) => tell_hint(rt, line),
        None => {
            tell_found(rt, HINT, hint_on(rt, seen, word, rest));
        }
    }
}

/// Looks at the database, and at what a command reads besides, and returns the hint.
fn hint_on(rt: &HostRuntime, seen: &Seen<'_>, word: &str, rest: &str) -> Hint {
    let (database, others) = match (seen.base, seen.input) {
        (Some(base), others) => (base, others),
        (None, Some(input)) => (input, Some(behind_end(input))),
        (None, None) => return Err(AllocError),
    };
    if word != "NotClosed" {
        if word == "Unknown" {
            return near_hint(rt.alloc(), seen.place, database, rest);
        }
        let path = seen.place.path().unwrap_or("standard input");
        return database_hint(rt.alloc(), path, database, word, rest);
    }
    match others {
        Some(others) => lacking_hint(rt.alloc(), database, others),
        None => Err(AllocError),
    }
}

/// Prints what helps after the fault of a session: about the file of `-l`, with what was read there
/// and why it could not be written, or about its database.
pub fn behind_session(
    rt: &HostRuntime,
    live: Option<&str>,
    text: &io::Result<Option<Vec<u8>>>,
    unwritten: Option<&io::Error>,
    seen: &Seen<'_>,
    told: &ToldErrors,
) {
    if let Ok(Some(("NoController", name))) = told.fault() {
        info!(Messages(rt); target: HINT, "{name} is a longrun; -c names its controller");
        return;
    }
    if let (Some(path), Ok(Some(fault))) = (live, told.fault()) {
        let hint = match (fault.0, unwritten) {
            ("Io", Some(error)) => unwritten_hint(rt, path, error),
            _ => behind_live(rt, path, text, seen, fault),
        };
        if tell_found(rt, HINT, hint) {
            return;
        }
    }
    behind_database(rt, seen, told);
}

/// Why a file was not opened, read or written: a word of the program's own, or the system's.
#[derive(Clone, Copy)]
struct Reason<'e>(&'e io::Error);

impl Display for Reason<'_> {
    fn fmt<W: fmt::Write>(&self, f: &mut Formatter<W>) -> fmt::Result {
        match word_of(self.0.kind()) {
            Some(word) => f.write_str(word),
            None => self.0.fmt(f),
        }
    }
}

/// Returns the hint for a file of `-l` that could not be written.
fn unwritten_hint(rt: &HostRuntime, path: &str, error: &io::Error) -> Hint {
    let (path, what) = (Shown(&path), Reason(error));
    Ok(Some(format!(in rt.alloc(); "{path} can't be replaced by {path}.new: {what}")?))
}

/// Returns the hint for a file of `-l` that can't be read, or whose text is refused. That text is
/// looked at after the database, so a bad database gives no hint here.
fn behind_live(
    rt: &HostRuntime,
    path: &str,
    text: &io::Result<Option<Vec<u8>>>,
    seen: &Seen<'_>,
    fault: (&str, &str),
) -> Hint {
    let (word, rest) = fault;
    match text {
        Err(error) if word == "Io" => {
            let (path, what) = (Shown(&path), Reason(error));
            Ok(Some(format!(in rt.alloc(); "{path}: {what}")?))
        }
        Ok(Some(bytes)) if word != "Io" => match seen.is_good(rt) {
            Ok(true) => live_hint(rt.alloc(), path, bytes, word, rest),
            Ok(false) => Ok(None),
            Err(fault) => Err(fault),
        },
        _ => Ok(None),
    }
}

/// Prints the name of a database that may have been meant by an unknown name. The database stands
/// at this place.
pub fn tell_near(rt: &HostRuntime, place: Place<'_>, database: &[u8], name: &str) {
    tell_found(rt, HINT, near_hint(rt.alloc(), place, database, name));
}

/// Returns the hint for a fault that needs no second look.
fn plain_hint(word: &str, rest: &str, is_file: bool) -> Option<&'static str> {
    match word {
        "Bad" if rest == "0" && !is_file => {
            Some("no database stands at the front of standard input; -b FILE names one")
        }
        "PruneNeedsUp" => Some("-p goes with neither -d nor -D"),
        "Read" => Some("standard input can't be read"),
        "Write" => Some("standard output can't be written"),
        "BadLine" => Some("a script has a command a line, and behind it the events of its run"),
        _ => query_hint(word),
    }
}

/// Reports why a file was not read or written, and returns the status.
pub fn tell_file(rt: &HostRuntime, path: &str, error: &io::Error) -> u8 {
    if error.kind() == ErrorKind::OutOfMemory {
        return tell_failure(rt, "Memory");
    }
    let status = tell_failure(rt, "Io");
    let reason = Reason(error);
    info!(Messages(rt); target: HINT, "{path}: {reason}");
    status
}

/// Reports that a file is no database, and is not replaced by one, and returns the status.
pub fn tell_not_database(rt: &HostRuntime, path: &str) -> u8 {
    error!(Messages(rt); target: MESSAGE, "NotDatabase {path}");
    info!(Messages(rt); target: HINT,
        "-o replaces databases alone: remove {path}, or name another");
    REFUSED
}

/// Reports why the text of a file is no history, and returns the status.
pub fn tell_no_history(rt: &HostRuntime, path: &str, fault: HistoryFault) -> u8 {
    match fault {
        HistoryFault::Memory => return tell_failure(rt, "Memory"),
        HistoryFault::Version => error!(Messages(rt); target: MESSAGE, "Version"),
        HistoryFault::Bad(place) => error!(Messages(rt); target: MESSAGE, "Bad {place}"),
    }
    info!(Messages(rt); target: HINT,
        "{path} is no history: restore it, or remove it to begin anew");
    REFUSED
}

/// Reports that the file of a session, which holds `count` databases, holds no generation of this
/// number, and returns the status.
pub fn tell_no_generation(rt: &HostRuntime, path: &str, generation: u32, count: usize) -> u8 {
    error!(Messages(rt); target: MESSAGE, "NoGeneration {generation}");
    match count {
        0 => info!(Messages(rt); target: HINT,
            "{path} holds no history; without -k, undorc asks the database of -b"),
        1 => info!(Messages(rt); target: HINT, "{path} holds one database, of generation 0"),
        _ => {
            let last = count.saturating_sub(1);
            info!(Messages(rt); target: HINT,
                "{path} holds {count} databases, of generations 0 to {last}");
        }
    }
    REFUSED
}

/// Reports a failure by its word, and returns the status.
pub fn tell_failure(rt: &HostRuntime, word: &str) -> u8 {
    error!(Messages(rt); target: MESSAGE, "{word}");
    FAILED
}

/// Reports a hint, if there is one, as records of this target, one for each line. Returns true if
/// nothing more is to be looked for: something was reported, or memory ran out.
fn tell_found(rt: &HostRuntime, target: &str, hint: Hint) -> bool {
    match hint {
        Ok(Some(text)) => {
            for line in text.as_str().split('\n') {
                info!(Messages(rt); target: target, "{line}");
            }
            drop(text);
            true
        }
        Ok(None) => false,
        Err(_) => true,
    }
}

/// Reports a line after a fault.
pub fn tell_hint(rt: &HostRuntime, hint: &str) {
    info!(Messages(rt); target: HINT, "{hint}");
}
