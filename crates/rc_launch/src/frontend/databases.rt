//! Hints for a text that is no database or no session, and for a name that is not in a database.
use crate::frontend::typing::ForShell;
use rc_compile::command::diagnostics::{
    Hint, Said, cut_at, first_word, is_one_edit, line_at, text_of,
};
use rc_names::NoMem;
use std::alloc::Global;

/// Where a database stands.
#[derive(Clone, Copy)]
pub enum Place<'a> {
    /// At the beginning of standard input.
    Input,
    /// In the file of `-b`.
    File(&'a str),
    /// In the file of `-l`: that of the present generation, or of the one of `-k`.
    Session(&'a str, Option<u32>),
}

impl<'a> Place<'a> {
    /// Returns the place of a database in the file of `-b`, or on standard input without one.
    pub fn of(file: Option<&'a str>) -> Place<'a> {
        match file {
            Some(path) => Place::File(path),
            None => Place::Input,
        }
    }

    /// Returns the path of the file, if it is one.
    pub fn path(self) -> Option<&'a str> {
        match self {
            Place::Input => None,
            Place::File(path) | Place::Session(path, _) => Some(path),
        }
    }
}

/// A kind of text, as hints name it.
struct Form {
    front: &'static [u8],
    name: &'static str,
    help: &'static str,
}

const DATABASE: Form = Form {
    front: b"undorc-db ",
    name: "database",
    help: "undorc compile makes one",
};

const SESSION: Form = Form {
    front: b"undorc-live ",
    name: "file of a session",
    help: "where there is none, a session makes one",
};

/// Returns the hint for a refusal of the database in a file, or on standard input. The refusal is
/// given by its word and what stands after it.
pub fn database_hint(alloc: Global, path: &str, bytes: &[u8], word: &str, rest: &str) -> Hint {
    let what = match word {
        "Bad" => return bad_line(alloc, path, bytes, rest, &DATABASE),
        "Version" => ":1: this program reads 'undorc-db 1'",
        "NotSorted" => ": names do not ascend in byte order",
        "Dangling" => ": a line names what it may not",
        "Cyclic" => ": a service needs itself along a path",
        _ => return Ok(None),
    };
    hint_of(alloc, path, what, ": undorc compile makes it anew")
}

/// Returns the hint for a refusal of the text that a session was to go on with.
pub fn live_hint(alloc: Global, path: &str, bytes: &[u8], word: &str, rest: &str) -> Hint {
    let what = match word {
        "Bad" => return bad_line(alloc, path, bytes, rest, &SESSION),
        "Version" => ":1: this program reads 'undorc-live 2' and 'undorc-live 1'",
        "OtherDb" =>
            ": the session of another database; name that one by -b, also for undorc update",
        "Unknown" if rest.is_empty() => ": a state names what is no service of the database",
        "NotClosed" => ": a service is up without one that it needs, in state ",
        "SameState" => ": two states in a row are the same",
        "OverBound" => ": there are more states than its line 'bound' says",
        _ => return Ok(None),
    };
    hint_of(alloc, path, what, rest)
}

/// Returns the hint that names the line that is not due, or the kind of text that was expected.
fn bad_line(alloc: Global, path: &str, bytes: &[u8], offset: &str, form: &Form) -> Hint {
    let Ok(offset) = offset.parse::<usize>() else {
        return Ok(None);
    };
    let mut said = Said::new(alloc);
    said.add(path);
    if bytes.starts_with(form.front) {
        said.add_number(line_at(bytes, offset));
        said.add_row(": ", not_due(bytes, offset), "");
    } else if let Some(other) = other_kind(bytes) {
        said.add(other);
    } else {
        let what = if bytes.is_empty() {
            ": an empty file is no "
        } else {
            " is no "
        };
        said.add(what);
        said.add_row(form.name, ": ", form.help);
    }
    said.hint()
}

/// Returns what a text is that stands in the place of one of another kind, if its front says so.
fn other_kind(bytes: &[u8]) -> Option<&'static str> {
    if bytes.starts_with(b"undorc-live ") || bytes.starts_with(b"undorc-history ") {
        return Some(" is the file of a session: -l names it, and -b a database");
    }
    if bytes.starts_with(b"undorc-db ") {
        return Some(" is a database: -b names it, and -l the file of a session");
    }
    None
}

/// Returns a hint of these texts in a row.
fn hint_of(alloc: Global, front: &str, middle: &str, back: &str) -> Hint {
    let mut said = Said::new(alloc);
    said.add_row(front, middle, back);
    said.hint()
}

/// Returns a description of what is wrong with the line that begins at an offset.
fn not_due(bytes: &[u8], offset: usize) -> &'static str {
    let rest = bytes.get(offset..).unwrap_or(&[]);
    if rest.is_empty() {
        return "the text ends here, before its line 'end'";
    }
    if bytes.get(..offset).unwrap_or(&[]).ends_with(b"\nend\n") {
        return "nothing may stand behind the line 'end'";
    }
    let (line, _) = cut_at(rest, b'\n');
    if line.ends_with(b"\r") {
        return "this line has not the form that is due (a Windows line end?)";
    }
    "this line has not the form that is due"
}

/// Returns the hint for an unknown name: the name of a database that may have been meant, or the
/// command that prints all names of the file of the database.
pub fn near_hint(alloc: Global, place: Place<'_>, database: &[u8], name: &str) -> Hint {
    let mut rest = database;
    for _ in 0..database.len() {
        let (line, behind) = next_line(rest);
        rest = behind;
        if line == "end" {
            return no_name(alloc, place, name);
        }
        if let Some(("service" | "bundle", words)) = line.split_once(' ') {
            let near = first_word(words);
            if is_one_edit(name.as_bytes(), near.as_bytes()) {
                let mut said = Said::new(alloc);
                said.add_row("nothing is named ", name, "; is ");
                said.add_row(near, " meant?", "");
                return said.hint();
            }
        }
    }
    Ok(None)
}

/// Returns the hint that nothing has a name in the database at a place.
fn no_name(alloc: Global, place: Place<'_>, name: &str) -> Hint {
    let command = match place {
        Place::Input => {
            return hint_of(
                alloc,
                "nothing is named ",
                name,
                " in the database on standard input",
            );
        }
        Place::File(path) => {
            let path = ForShell(path);
            format!(in alloc; "; undorc db -b {path} list all prints the names")?
        }
        Place::Session(path, None) => {
            let path = ForShell(path);
            format!(in alloc; "; undorc db -l {path} list all prints the names")?
        }
        Place::Session(path, Some(generation)) => {
            let path = ForShell(path);
            format!(in alloc; "; undorc db -l {path} -k {generation} list all prints the names")?
        }
    };
    let hint = hint_of(alloc, "nothing is named ", name, command.as_str());
    drop(command);
    hint
}

/// Returns the bytes after the database at the beginning of a text.
pub fn behind_end(bytes: &[u8]) -> &[u8] {
    let mut rest = bytes;
    for _ in 0..bytes.len() {
        let (line, behind) = next_line(rest);
        rest = behind;
        if line == "end" {
            return rest;
        }
    }
    rest
}

/// Returns a hint with a service that is up, and a dependency of it that is not. `up` lists what is
/// up, one name per line.
pub fn lacking_hint<'a>(alloc: Global, database: &'a [u8], up: &'a [u8]) -> Hint {
    let mut listed = Vec::new(alloc);
    let sorted = add_sorted(text_of(up), &mut listed);
    let lacking = lacking_of(database, &listed);
    drop(listed);
    sorted?;
    match lacking {
        Some((service, need)) => {
            let mut said = Said::new(alloc);
            said.add_row(service, " is up and needs ", need);
            said.add(", which is not among those listed");
            said.hint()
        }
        None => Ok(None),
    }
}

/// Adds the lines of a text to a list, and sorts it in byte order.
fn add_sorted<'a>(text: &'a str, lines: &mut Vec<&'a str>) -> Result<(), NoMem> {
    for line in text.split('\n') {
        lines.push(line)?;
    }
    lines.sort()
}

/// Returns the first listed service of a database that has a dependency which is not listed, with
/// the first such dependency. The list ascends.
fn lacking_of<'a>(database: &'a [u8], listed: &[&'a str]) -> Option<(&'a str, &'a str)> {
    let mut rest = database;
    for _ in 0..database.len() {
        let (line, behind) = next_line(rest);
        rest = behind;
        let (needs, _) = next_line(rest);
        let (Some(("service", words)), Some((_, needs))) = (
            line.split_once(' '),
            needs.split_once(' '),
        ) else {
            continue;
        };
        let service = first_word(words);
        if listed.binary_search(&service).is_ok() {
            if let Some(need) = first_missing(listed, needs) {
                return Some((service, need));
            }
        }
    }
    None
}

/// Returns the first of these words that is not listed. The list ascends.
fn first_missing<'a>(listed: &[&'a str], words: &'a str) -> Option<&'a str> {
    for word in words.split(' ') {
        if listed.binary_search(&word).is_err() {
            return Some(word);
        }
    }
    None
}

/// Returns the first line, and the bytes after it and after the text that it announces.
fn next_line(bytes: &[u8]) -> (&str, &[u8]) {
    let (line, rest) = cut_at(bytes, b'\n');
    let line = std::str::from_utf8(line).unwrap_or("");
    let Some(("up" | "down", length)) = line.split_once(' ') else {
        return (line, rest);
    };
    let Ok(length) = length.parse::<usize>() else {
        return (line, rest);
    };
    match rest.get(length..) {
        Some([_, behind @ ..]) => (line, behind),
        _ => (line, &[]),
    }
}
