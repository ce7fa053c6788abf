//! A search in source directories: what is read again, and what is said of it.
use crate::command::diagnostics::entries::{Entry, kind_of, without_slash};
use crate::command::diagnostics::listed::{line_of, text_of};
use crate::command::diagnostics::places::cut_at;
use crate::command::diagnostics::said::Said;
use rc_names::NoMem;
use std::alloc::Global;
use std::fs::{self, Files};
use std::io::{self, Read};
use std::os::unix::fs::PermissionsExt;

/// The most bytes that a file may have.
pub(crate) const MAX_FILE: usize = 65536;

/// The rights to run a file, of its owner, its group and all others.
const MAY_RUN: u32 = 0o111;

/// Source directories, and what is said of what stands in them.
#[derive(Drop)]
pub(crate) struct Search<'a> {
    pub rt: &'a HostRuntime,
    pub roots: &'a [String],
    pub said: Said,
}

/// What stands at a path.
#[derive(Clone, Copy)]
pub(crate) enum Found {
    Nothing,
    Directory,
    /// A plain file, with its length in bytes.
    File(u64),
    Other,
}

impl<'a> Search<'a> {
    /// Creates a search that has said nothing yet.
    pub(crate) fn new(rt: &'a HostRuntime, alloc: Global, roots: &'a [String]) -> Search<'a> {
        Search {
            rt,
            roots,
            said: Said::new(alloc),
        }
    }

    /// Looks up what stands at a path.
    pub(crate) fn at(&mut self, path: &str) -> Found {
        match self.rt.metadata(path) {
            Ok(found) if found.is_dir() => Found::Directory,
            Ok(found) if found.is_file() => Found::File(found.len()),
            Ok(_) => Found::Other,
            Err(error) => {
                self.said.note_error(&error);
                Found::Nothing
            }
        }
    }

    /// Looks up what stands under a name in a directory.
    pub(crate) fn found(&mut self, directory: &str, name: &str) -> Found {
        let path = self.said.path(directory, name);
        let found = self.at(path.as_str());
        drop(path);
        found
    }

    /// Returns the entry of this name, in the first source directory that has it. No entry has an
    /// empty name.
    pub(crate) fn entry<'n>(&mut self, name: &'n str) -> Option<Entry<'a, 'n>> {
        if name.is_empty() {
            return None;
        }
        for named in self.roots {
            let named = named.as_str();
            let root = without_slash(named);
            if let Found::Directory = self.found(root, name) {
                let mut entry = Entry {
                    named,
                    root,
                    name,
                    kind: None,
                };
                let bytes = self.file(&entry, "type");
                entry.kind = kind_of(&bytes);
                drop(bytes);
                return Some(entry);
            }
        }
        None
    }

    /// Returns the bytes of a file of an entry, or none if they can't be read.
    pub(crate) fn file(&mut self, entry: &Entry<'_, '_>, file: &str) -> Vec<u8> {
        let path = self.said.file_path(entry, file);
        let bytes = self.bytes(path.as_str());
        drop(path);
        match bytes {
            Some(bytes) => bytes,
            None => Vec::new(self.said.alloc),
        }
    }

    /// Returns true if somebody may run the program that a script of an entry names. A name without
    /// a slash in front is one in the directory of the entry.
    pub(crate) fn has_program(&mut self, entry: &Entry<'_, '_>, program: &str) -> bool {
        if program.starts_with('/') {
            return self.is_executable(program);
        }
        let path = self.said.file_path(entry, program);
        let is_there = self.is_executable(path.as_str());
        drop(path);
        is_there
    }

    /// Returns true if a plain file stands at a path, and somebody may run it.
    pub(crate) fn is_executable(&mut self, path: &str) -> bool {
        match self.rt.metadata(path) {
            Ok(found) => found.is_file() && found.permissions().mode() & MAY_RUN != 0,
            Err(error) => {
                self.said.note_error(&error);
                false
            }
        }
    }

    /// Returns the bytes of a plain file, if they can be read and are not too many.
    pub(crate) fn bytes(&mut self, path: &str) -> Option<Vec<u8>> {
        match self.at(path) {
            Found::File(_) => {}
            _ => return None,
        }
        let mut bytes = Vec::new(self.said.alloc);
        match read_file(self.rt, path, &mut bytes) {
            Ok(_) if bytes.len() <= MAX_FILE => Some(bytes),
            Ok(_) => None,
            Err(error) => {
                self.said.note_error(&error);
                None
            }
        }
    }

    /// Returns the number of the line in which a file of an entry gives a name.
    pub(crate) fn line_of(
        &mut self,
        entry: &Entry<'_, '_>,
        file: &str,
        name: &str,
    ) -> Option<usize> {
        let list = self.file(entry, file);
        let number = line_of(text_of(&list), name);
        drop(list);
        number
    }

    /// Returns the names of all entries, as far as they can be read.
    pub(crate) fn entries(&mut self) -> Vec<String> {
        let mut names = Vec::new(self.said.alloc);
        for root in self.roots {
            self.add_names(without_slash(root.as_str()), true, &mut names);
        }
        names
    }

    /// Adds the names in a directory, or only those of entries, as far as they can be read.
    pub(crate) fn add_names(
        &mut self,
        directory: &str,
        only_entries: bool,
        names: &mut Vec<String>,
    ) {
        let path = self.said.path(directory, "");
        let mut bytes = Vec::new(self.said.alloc);
        if let Err(error) = read_folder(self.rt, path.as_str(), &mut bytes) {
            self.said.note_error(&error);
        }
        drop(path);
        self.add_listed(directory, &bytes, only_entries, names);
        drop(bytes);
    }

    /// Returns true if a directory has an entry. Looks at names up to the first entry.
    pub(crate) fn has_entry(&mut self, directory: &str) -> bool {
        let path = self.said.path(directory, "");
        let mut listing = Vec::new(self.said.alloc);
        if let Err(error) = read_folder(self.rt, path.as_str(), &mut listing) {
            self.said.note_error(&error);
        }
        drop(path);
        let has_entry = self.is_entry_listed(directory, &listing);
        drop(listing);
        has_entry
    }

    /// Returns true if a listing gives the name of an entry of a directory.
    fn is_entry_listed(&mut self, directory: &str, listing: &[u8]) -> bool {
        for name in listing.split(|byte| *byte == 0) {
            let name = text_of(name);
            if !name.is_empty() && self.is_shown(directory, name) {
                return true;
            }
        }
        false
    }

    /// Adds the first name in a directory that is not UTF-8. Returns true if there is one.
    pub(crate) fn add_unread_name(&mut self, directory: &str) -> bool {
        let path = self.said.path(directory, "");
        let mut listing = Vec::new(self.said.alloc);
        if let Err(error) = read_folder(self.rt, path.as_str(), &mut listing) {
            self.said.note_error(&error);
        }
        drop(path);
        let is_there = add_bad_name(&mut self.said, directory, &listing);
        drop(listing);
        is_there
    }

    /// Adds the names in the directory of an entry.
    pub(crate) fn add_files(&mut self, entry: &Entry<'_, '_>, names: &mut Vec<String>) {
        let path = self.said.path(entry.root, entry.name);
        self.add_names(path.as_str(), false, names);
        drop(path);
    }

    /// Adds the names in a listing, where a byte 0 follows each name.
    fn add_listed(
        &mut self,
        directory: &str,
        listing: &[u8],
        only_entries: bool,
        names: &mut Vec<String>,
    ) {
        let mut rest = listing;
        for _ in 0..listing.len() {
            let (name, behind) = cut_at(rest, 0);
            rest = behind;
            let name = text_of(name);
            if !name.is_empty() && (!only_entries || self.is_shown(directory, name)) {
                let added = push_name(self.said.alloc, name, names);
                self.said.note(added);
            }
        }
    }

    /// Returns true if a name in a directory is that of a directory and is not hidden.
    fn is_shown(&mut self, directory: &str, name: &str) -> bool {
        if name.starts_with('.') {
            return false;
        }
        matches!(self.found(directory, name), Found::Directory)
    }
}

/// Appends the bytes of a file, or only some of them if it is too long.
fn read_file(rt: &HostRuntime, path: &str, bytes: &mut Vec<u8>) -> io::Result<usize> {
    let file = fs::open(rt, path)?;
    file.take(MAX_FILE as u64 + 1).read_to_end(bytes)
}

/// Appends the names in a directory, each followed by a byte 0.
fn read_folder(rt: &HostRuntime, path: &str, bytes: &mut Vec<u8>) -> io::Result<usize> {
    let mut listing = rt.open_dir(path)?;
    listing.read_to_end(bytes)
}

/// Adds the path of the first name of a listing that is not UTF-8. Returns true if there is one.
fn add_bad_name(said: &mut Said, directory: &str, listing: &[u8]) -> bool {
    for name in listing.split(|byte| *byte == 0) {
        if std::str::from_utf8(name).is_err() {
            said.add_row(directory, "/", "");
            said.add_bytes(name);
            said.add(": the name is to be UTF-8");
            return true;
        }
    }
    false
}

/// Adds a name, unless it is that of a directory itself or of the one above it.
fn push_name(alloc: Global, name: &str, names: &mut Vec<String>) -> Result<(), NoMem> {
    if matches!(name, "." | "..") {
        return Ok(());
    }
    let copy = String::from_str(alloc, name)?;
    names.push(copy)?;
    Ok(())
}
