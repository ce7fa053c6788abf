//! A text that is put together from pieces. If memory is short for a piece, that is noted, and
//! reported at the end.
use crate::command::diagnostics::entries::Entry;
use crate::command::diagnostics::name_flaws::{WrongName, wrong_name};
use rc_names::NoMem;
use rc_streams::escaping::Shown;
use std::alloc::{AllocError, Global};
use std::io::{self, ErrorKind};

/// What may help after a fault, or None. The only error is that memory is short.
pub type Hint = Result<Option<String>, NoMem>;

/// What was said so far, and whether memory was short for any of it.
#[derive(Drop)]
pub struct Said {
    pub(crate) alloc: Global,
    text: String,
    is_short: bool,
}

impl Said {
    /// Creates an empty text.
    pub fn new(alloc: Global) -> Said {
        Said {
            alloc,
            text: String::new(alloc),
            is_short: false,
        }
    }

    /// Returns the text, if anything was said. Fails if memory was short for any of it.
    pub fn hint(self) -> Hint {
        if self.is_short {
            return Err(AllocError);
        }
        if self.text.is_empty() {
            return Ok(None);
        }
        Ok(Some(self.text))
    }

    /// Returns true if nothing was said.
    pub(crate) fn is_empty(&self) -> bool {
        self.text.is_empty()
    }

    /// Ends the current line, if there is one, so that another begins.
    pub(crate) fn begin_line(&mut self) {
        if !self.text.is_empty() {
            let added = self.text.push('\n');
            self.note(added);
        }
    }

    /// Adds a text, with its control characters as escapes, so that it begins no line.
    pub fn add(&mut self, text: &str) {
        let added = write!(self.text, "{}", Shown(&text));
        self.note(added);
    }

    /// Adds three texts.
    pub fn add_row(&mut self, first: &str, second: &str, third: &str) {
        self.add(first);
        self.add(second);
        self.add(third);
    }

    /// Adds the path of a file of an entry.
    pub(crate) fn add_file(&mut self, entry: &Entry<'_, '_>, file: &str) {
        self.add_row(entry.root, "/", entry.name);
        self.add("/");
        self.add(file);
    }

    /// Adds a colon, and the number of a line.
    pub fn add_number(&mut self, number: usize) {
        let added = write!(self.text, ":{number}");
        self.note(added);
    }

    /// Adds a text in quotes.
    pub(crate) fn add_quoted(&mut self, text: &str) {
        let added = write!(self.text, "{text:?}");
        self.note(added);
    }

    /// Adds the bytes of a name. Bytes other than printable ASCII become escapes, such as `\xff`.
    pub(crate) fn add_bytes(&mut self, bytes: &[u8]) {
        for byte in bytes {
            let byte = *byte;
            let added = if byte.is_ascii_graphic() || byte == b' ' {
                self.text.push(char::from(byte))
            } else {
                write!(self.text, "\\x{byte:02x}")
            };
            self.note(added);
        }
    }

    /// Adds what is wrong with a name.
    pub(crate) fn add_wrong(&mut self, wrong: WrongName) {
        match wrong {
            WrongName::Said(words) => self.add_row(": ", words, ""),
            WrongName::Byte(byte) => {
                let added = write!(self.text, ": a name can't hold byte {byte}");
                self.note(added);
            }
        }
    }

    /// Returns the flaw of a name, if it has one. Notes whether memory was short.
    pub(crate) fn wrong(&mut self, name: &str) -> Option<WrongName> {
        match wrong_name(self.alloc, name.as_bytes()) {
            Ok(wrong) => wrong,
            Err(AllocError) => {
                self.is_short = true;
                None
            }
        }
    }

    /// Notes whether memory was short.
    pub(crate) fn note(&mut self, outcome: Result<(), NoMem>) {
        if outcome.is_err() {
            self.is_short = true;
        }
    }

    /// Notes whether memory was short where the system refused something.
    pub(crate) fn note_error(&mut self, error: &io::Error) {
        if error.kind() == ErrorKind::OutOfMemory {
            self.is_short = true;
        }
    }

    /// Returns the path of a name in a directory, which is given without a slash at its end.
    pub(crate) fn path(&mut self, directory: &str, name: &str) -> String {
        let mut path = String::new(self.alloc);
        let front = path.push_str(directory);
        let slash = path.push('/');
        let back = path.push_str(name);
        self.note(front);
        self.note(slash);
        self.note(back);
        path
    }

    /// Returns the path of a file of an entry.
    pub(crate) fn file_path(&mut self, entry: &Entry<'_, '_>, file: &str) -> String {
        let directory = self.path(entry.root, entry.name);
        let path = self.path(directory.as_str(), file);
        drop(directory);
        path
    }
}
