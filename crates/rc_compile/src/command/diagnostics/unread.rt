//! What a person may think is looked at, and is not.
use crate::command::diagnostics::entries::{Entry, Sources, without_slash};
use crate::command::diagnostics::entry_flaws::add_mistaken;
use crate::command::diagnostics::interpreters::interpreter_of;
use crate::command::diagnostics::listed::text_of;
use crate::command::diagnostics::places::{line_at, offset_of};
use crate::command::diagnostics::said::Hint;
use crate::command::diagnostics::search::Search;
use rc_names::Kind;

/// The files that supervisors look at.
const SUPERVISED: [&str; 24] = [
    "run",
    "finish",
    "notification-fd",
    "data",
    "env",
    "root",
    "log",
    "down",
    "event",
    "supervise",
    "flag-newpidns",
    "nosetsid",
    "check",
    "conf",
    "control",
    "lock",
    "timeout-kill",
    "timeout-finish",
    "max-death-tally",
    "down-signal",
    "lock-fd",
    "instance",
    "instances",
    "template",
];

/// Returns a note about a source directory that has no entry and looks like one itself.
pub fn looks_like_entry(sources: &Sources<'_>) -> Hint {
    let mut search = sources.search();
    for root in search.roots {
        let root = root.as_str();
        if !search.has_entry(without_slash(root)) && add_mistaken(&mut search, root) {
            break;
        }
    }
    search.said.hint()
}

/// Returns notes about the entries: which files are not looked at, which texts have a carriage
/// return, which scripts can't be run, and which bundles have no contents. Each note stands on a
/// line of its own.
pub fn unread_files(sources: &Sources<'_>) -> Hint {
    let mut search = sources.search();
    add_all(&mut search);
    search.said.hint()
}

/// Adds the notes about all entries, in byte order.
fn add_all(search: &mut Search<'_>) {
    let mut names = search.entries();
    let sorted = names.sort();
    search.said.note(sorted);
    for name in &names {
        if let Some(entry) = search.entry(name.as_str()) {
            add_notes(search, &entry);
        }
    }
    drop(names);
}

/// Adds the notes about one entry.
fn add_notes(search: &mut Search<'_>, entry: &Entry<'_, '_>) {
    let mut files = Vec::new(search.said.alloc);
    search.add_files(entry, &mut files);
    let sorted = files.sort();
    search.said.note(sorted);
    let mut is_empty = entry.kind == Some(Kind::Bundle);
    for file in &files {
        let file = file.as_str();
        if file == "contents" || file == "contents.d" {
            is_empty = false;
        }
        add_note(search, entry, file);
        match file {
            "run" | "finish" | "check" => {
                add_unrunnable(search, entry, file);
                add_lacking(search, entry, file);
            }
            "up" | "down" => add_lacking(search, entry, file),
            _ => {}
        }
    }
    drop(files);
    if is_empty {
        search.said.begin_line();
        search.said.add_row(entry.root, "/", entry.name);
        search.said.add(" is a bundle without contents");
    }
}

/// Adds the note about a file of an entry, if there is something to say.
fn add_note(search: &mut Search<'_>, entry: &Entry<'_, '_>, file: &str) {
    if entry.reads(file) {
        let bytes = search.file(entry, file);
        if let Some(offset) = offset_of(&bytes, b'\r') {
            search.said.begin_line();
            search.said.add_file(entry, file);
            search.said.add_number(line_at(&bytes, offset));
            search
                .said
                .add(" has a carriage return (a Windows line end?)");
        }
        drop(bytes);
    } else if !SUPERVISED.contains(&file) && !file.starts_with('.') {
        search.said.begin_line();
        search.said.add_file(entry, file);
        search.said.add(" is not looked at");
    }
}

/// Adds a note about a file of a longrun that its supervisor runs, if nobody may run it.
fn add_unrunnable(search: &mut Search<'_>, entry: &Entry<'_, '_>, file: &str) {
    let path = search.said.file_path(entry, file);
    if entry.kind == Some(Kind::Longrun) && !search.is_executable(path.as_str()) {
        search.said.begin_line();
        search.said.add_file(entry, file);
        search.said.add(" is not executable");
    }
    drop(path);
}

/// Adds a note about a script whose first line names an interpreter that nobody may run.
fn add_lacking(search: &mut Search<'_>, entry: &Entry<'_, '_>, file: &str) {
    let script = search.file(entry, file);
    if let Some(word) = interpreter_of(&script) {
        let program = text_of(word);
        if !search.has_program(entry, program) {
            search.said.begin_line();
            search.said.add_file(entry, file);
            search.said.add(": no interpreter ");
            search.said.add_quoted(program);
        }
    }
    drop(script);
}
