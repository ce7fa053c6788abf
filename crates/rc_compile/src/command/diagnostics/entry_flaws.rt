//! What helps where an entry has a wrong name, or lacks a file.
use crate::command::diagnostics::entries::{Entry, without_slash};
use crate::command::diagnostics::file_flaws::add_flaw;
use crate::command::diagnostics::listed::{name_at, text_of};
use crate::command::diagnostics::search::{Found, Search};
use crate::command::diagnostics::slips::nearest;

/// Adds where an entry has a wrong name: its own, one in its lists or in its folder, or a second
/// one in a file that holds one.
pub(crate) fn add_bad_name(search: &mut Search<'_>, entry: &Entry<'_, '_>) {
    if let Some(wrong) = search.said.wrong(entry.name) {
        let path = search.said.path(entry.root, entry.name);
        search.said.add_quoted(path.as_str());
        drop(path);
        search.said.add_wrong(wrong);
        return;
    }
    add_flaw(search, entry, "BadName");
    add_second(search, entry, "producer-for");
    add_second(search, entry, "pipeline-name");
}

/// Adds the second name of a file that is to hold one, unless something was said before.
fn add_second(search: &mut Search<'_>, entry: &Entry<'_, '_>, file: &str) {
    if !search.said.is_empty() {
        return;
    }
    let list = search.file(entry, file);
    if let Some((number, name)) = name_at(text_of(&list), 1) {
        search.said.add_file(entry, file);
        search.said.add_number(number);
        search.said.add(": one name may stand here, not a second: ");
        search.said.add_quoted(name);
    }
    drop(list);
}

/// Adds the two directories of one name.
pub(crate) fn add_twice(search: &mut Search<'_>, entry: &Entry<'_, '_>) {
    let mut seen = false;
    for root in search.roots {
        let root = without_slash(root.as_str());
        if let Found::Directory = search.found(root, entry.name) {
            if seen {
                search.said.add_row(entry.root, "/", entry.name);
                search.said.add(" and ");
                search.said.add_row(root, "/", entry.name);
                search.said.add(" have one name");
                return;
            }
            seen = true;
        }
    }
}

/// Adds what an entry has instead of a file `type`.
pub(crate) fn add_no_type(search: &mut Search<'_>, entry: &Entry<'_, '_>) {
    if add_mistaken(search, entry.named) {
        return;
    }
    let mut files = Vec::new(search.said.alloc);
    search.add_files(entry, &mut files);
    search.said.add_file(entry, "type is missing");
    match nearest(&files, "type") {
        Some(other) => {
            search.said.add("; ");
            search.said.add_file(entry, other);
            search.said.add(" stands there");
        }
        None => search.said.add(": it holds oneshot, longrun or bundle"),
    }
    drop(files);
}

/// Adds that a source directory looks like an entry, if it has a file `type` of its own. Returns
/// true if it has one.
pub(crate) fn add_mistaken(search: &mut Search<'_>, root: &str) -> bool {
    match search.found(without_slash(root), "type") {
        Found::File(_) => {
            search.said.add(root);
            search
                .said
                .add(" looks like an entry: name the directory above it");
            true
        }
        _ => false,
    }
}
