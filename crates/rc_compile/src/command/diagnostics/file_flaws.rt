//! What helps where a file of an entry is not what it is to be.
use crate::command::diagnostics::entries::{Entry, without_end, without_slash};
use crate::command::diagnostics::listed::{name_on, text_of};
use crate::command::diagnostics::places::{line_at, offset_of};
use crate::command::diagnostics::said::Said;
use crate::command::diagnostics::search::{Found, MAX_FILE, Search};
use rc_source::Holds;
use std::fs::{self, Files};
use std::io::{self, ErrorKind};

/// Adds what is wrong with the first wrong file of an entry, as the refusal's word says. Folders of
/// names come last.
pub(crate) fn add_flaw(search: &mut Search<'_>, entry: &Entry<'_, '_>, word: &str) {
    add_flaw_in(search, entry, "type", Holds::KindWord, word);
    for (file, holds) in entry.files() {
        if !matches!(*holds, Holds::Anything | Holds::Flag | Holds::NameEach) {
            add_flaw_in(search, entry, file, *holds, word);
        }
    }
    for (file, holds) in entry.files() {
        if matches!(*holds, Holds::NameEach) {
            add_flaw_in(search, entry, file, *holds, word);
        }
    }
}

/// Adds what is wrong with a file of an entry, if something is and nothing was added yet.
fn add_flaw_in(
    search: &mut Search<'_>,
    entry: &Entry<'_, '_>,
    file: &str,
    holds: Holds,
    word: &str,
) {
    if search.said.is_empty() {
        let path = search.said.file_path(entry, file);
        add_flaw_of(search, path.as_str(), holds, word);
        drop(path);
    }
}

/// Adds what is wrong with a file, if something is.
fn add_flaw_of(search: &mut Search<'_>, path: &str, holds: Holds, word: &str) {
    let is_folder = holds == Holds::NameEach;
    match word {
        "Io" => add_unread(search, path, is_folder),
        "TooLong" => add_too_long(search, path),
        "BadName" if is_folder => add_bad_listing(search, path),
        _ => {
            if let Some(bytes) = search.bytes(path) {
                add_wrong_text(&mut search.said, path, holds, word, &bytes);
                drop(bytes);
            }
        }
    }
}

/// Adds why a file or a folder can't be read, if it can't. A missing one is no fault.
fn add_unread(search: &mut Search<'_>, path: &str, is_folder: bool) {
    let found = search.at(path);
    let why = match found {
        Found::Directory if !is_folder => "is a directory, where a file is due",
        Found::Other if !is_folder => "is a pipe, a socket or a device, where a file is due",
        _ => match opened(search, path, is_folder) {
            None => {
                if is_folder {
                    search.add_unread_name(path);
                }
                return;
            }
            Some(ErrorKind::NotFound | ErrorKind::FilesystemLoop) => return,
            Some(kind) => word_of(kind).unwrap_or(UNREADABLE),
        },
    };
    search.said.add_row(path, ": ", why);
}

/// Returns the error of opening a file or a folder, or None if it can be opened.
fn opened(search: &mut Search<'_>, path: &str, is_folder: bool) -> Option<ErrorKind> {
    match open(search.rt, path, is_folder) {
        Ok(()) => None,
        Err(error) => {
            search.said.note_error(&error);
            Some(error.kind())
        }
    }
}

/// Opens a file, or a folder, and closes it.
fn open(rt: &HostRuntime, path: &str, is_folder: bool) -> io::Result<()> {
    if is_folder {
        rt.open_dir(path)?;
    } else {
        fs::open(rt, path)?;
    }
    Ok(())
}

/// Adds that a file is too long, if it is.
fn add_too_long(search: &mut Search<'_>, path: &str) {
    if let Found::File(length) = search.at(path) {
        if length > MAX_FILE as u64 {
            search.said.add_row(path, " has more than 65536 bytes", "");
        }
    }
}

/// Adds the first name in a folder of names that is not a valid name.
fn add_bad_listing(search: &mut Search<'_>, path: &str) {
    let mut names = Vec::new(search.said.alloc);
    search.add_names(path, false, &mut names);
    for name in &names {
        let name = name.as_str();
        if name.starts_with('.') {
            continue;
        }
        if let Some(wrong) = search.said.wrong(name) {
            search.said.add_row(path, "/", "");
            search.said.add_quoted(name);
            search.said.add_wrong(wrong);
            break;
        }
    }
    drop(names);
}

/// Adds what is wrong in the bytes of a file, as the refusal's word says.
fn add_wrong_text(said: &mut Said, path: &str, holds: Holds, word: &str, bytes: &[u8]) {
    let text = text_of(bytes);
    match word {
        "NotText" => add_bad_byte(said, path, bytes),
        "BadName" if matches!(holds, Holds::Names | Holds::OneName) => {
            add_bad_line(said, path, text)
        }
        _ => {
            if let Some(due) = due_in(holds, word, text) {
                add_line(said, path, due, text);
            }
        }
    }
}

/// Returns the words for what may stand in a file of one line, or None if the refusal's word is not
/// about this file. For a limit, also returns None if the text is one.
fn due_in(holds: Holds, word: &str, text: &str) -> Option<&'static str> {
    match word {
        "BadType" if holds == Holds::KindWord => {
            Some(":1: one of oneshot, longrun and bundle may stand here")
        }
        "BadTimeout" if holds == Holds::Limit && !is_limit(text) => {
            Some(":1: milliseconds may stand here, up to 4294967295")
        }
        _ => None,
    }
}

/// Adds the first line of a list that gives something other than a name.
fn add_bad_line(said: &mut Said, path: &str, list: &str) {
    let mut number = 0usize;
    for line in list.split('\n') {
        number = number.saturating_add(1);
        let name = name_on(line);
        if name.is_empty() {
            continue;
        }
        if let Some(wrong) = said.wrong(name) {
            said.add(path);
            said.add_number(number);
            said.add_wrong(wrong);
            said.add(": ");
            said.add_quoted(name);
            return;
        }
    }
}

/// Adds what may stand in a file of one line, and what does.
fn add_line(said: &mut Said, path: &str, due: &str, text: &str) {
    said.add_row(path, due, ", not ");
    said.add_quoted(text);
    if text.contains('\r') {
        said.add(" (a Windows line end?)");
    }
}

/// Returns true if a text is a limit, with or without a newline at its end.
fn is_limit(text: &str) -> bool {
    let digits = without_end(text, '\n');
    digits.len() <= 10 && !digits.starts_with('+') && digits.parse::<u32>().is_ok()
}

/// Adds the line of the first byte that makes bytes no text, and what is wrong with the byte.
fn add_bad_byte(said: &mut Said, path: &str, bytes: &[u8]) {
    let (offset, why) = match std::str::from_utf8(bytes) {
        Err(fault) => (
            fault.valid_up_to(),
            ": the text is to be UTF-8, and here it is not",
        ),
        Ok(_) => match offset_of(bytes, 0) {
            Some(offset) => (offset, ": byte 0 may stand in no text"),
            None => return,
        },
    };
    said.add(path);
    said.add_number(line_at(bytes, offset));
    said.add(why);
}

/// Adds the source directory that can't be listed, and why: it can't be opened, or has a name that
/// is not UTF-8.
pub(crate) fn add_root(search: &mut Search<'_>) {
    for root in search.roots {
        let root = root.as_str();
        if let Some(kind) = opened(search, root, true) {
            search
                .said
                .add_row(root, ": ", word_of(kind).unwrap_or(UNREADABLE));
            return;
        }
        if search.add_unread_name(without_slash(root)) {
            return;
        }
    }
}

/// What is said of an error that has no word of its own.
const UNREADABLE: &str = "can't be read or written";

/// Returns the word for an error, if the error is one of those that are met most often.
pub fn word_of(kind: ErrorKind) -> Option<&'static str> {
    match kind {
        ErrorKind::NotFound => Some("no such file or directory"),
        ErrorKind::PermissionDenied => Some("permission denied"),
        ErrorKind::IsADirectory => Some("is a directory"),
        ErrorKind::NotADirectory => Some("is no directory"),
        ErrorKind::FilesystemLoop => Some("a link leads back to itself"),
        ErrorKind::StorageFull => Some("no space left on the device"),
        ErrorKind::ReadOnlyFilesystem => Some("the file system is read-only"),
        _ => None,
    }
}
