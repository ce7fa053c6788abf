//! Source directories, and the entries in them.
use crate::command::diagnostics::listed::text_of;
use crate::command::diagnostics::search::Search;
use rc_names::Kind;
use rc_source::{Holds, files_of_kind};
use std::alloc::Global;

/// Source directories as they were named, which can be read again.
#[derive(Drop)]
pub struct Sources<'a> {
    rt: &'a HostRuntime,
    alloc: Global,
    roots: &'a [String],
}

impl<'a> Sources<'a> {
    pub fn new(rt: &'a HostRuntime, alloc: Global, roots: &'a [String]) -> Sources<'a> {
        Sources { rt, alloc, roots }
    }

    /// Creates a search in the source directories that has said nothing yet.
    pub(crate) fn search(&self) -> Search<'a> {
        Search::new(self.rt, self.alloc, self.roots)
    }
}

/// A directory in a source directory. The source directory is given both as it was named and
/// without a slash at its end.
#[derive(Clone, Copy)]
pub(crate) struct Entry<'a, 'n> {
    pub named: &'a str,
    pub root: &'a str,
    pub name: &'n str,
    pub kind: Option<Kind>,
}

impl Entry<'_, '_> {
    /// Returns the files that count for the entry, beside `type`, in the order in which they are
    /// read.
    pub(crate) fn files(&self) -> &'static [(&'static str, Holds)] {
        match self.kind {
            Some(kind) => files_of_kind(kind),
            None => &[],
        }
    }

    /// Returns true if a file or a folder of this name is read, or is a flag that the entry may
    /// have.
    pub(crate) fn reads(&self, file: &str) -> bool {
        if matches!(file, "type") {
            return true;
        }
        for (name, holds) in self.files() {
            if *name == file {
                return *holds != Holds::Anything;
            }
        }
        false
    }
}

/// Returns the kind that the bytes of a file `type` give, if they give one.
pub(crate) fn kind_of(bytes: &[u8]) -> Option<Kind> {
    match without_end(text_of(bytes), '\n') {
        "oneshot" => Some(Kind::Oneshot),
        "longrun" => Some(Kind::Longrun),
        "bundle" => Some(Kind::Bundle),
        _ => None,
    }
}

/// Returns the path of a directory without a slash at its end.
pub(crate) fn without_slash(path: &str) -> &str {
    without_end(path, '/')
}

/// Returns a text without the given character at its end.
pub(crate) fn without_end(text: &str, end: char) -> &str {
    match text.strip_suffix(end) {
        Some(front) => front,
        None => text,
    }
}
