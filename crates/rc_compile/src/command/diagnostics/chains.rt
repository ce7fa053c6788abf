//! What helps where the names that entries give do not fit together.
use crate::command::diagnostics::entries::Entry;
use crate::command::diagnostics::listed::{first_word, line_of, name_on, text_of};
use crate::command::diagnostics::said::Said;
use crate::command::diagnostics::search::{Found, Search};
use crate::command::diagnostics::slips::nearest;
use rc_names::Kind;

/// The most steps of a circle that are explained.
const MAX_STEPS: usize = 20;
/// The most bundles in bundles that are looked into.
const MAX_DEPTH: usize = 4;

/// Adds where an entry gives a name that nothing has. Both names stand after the refusal's word.
pub(crate) fn add_unknown(search: &mut Search<'_>, names: &str) {
    let Some((name, other)) = names.split_once(' ') else {
        return;
    };
    let Some(entry) = search.entry(name) else {
        return;
    };
    if !add_place(search, &entry, other) {
        return;
    }
    search.said.add_row(": nothing is named ", other, "");
    let names = search.entries();
    if let Some(near) = nearest(&names, other) {
        search.said.add_row("; is ", near, " meant?");
    }
    drop(names);
}

/// Adds where an entry gives a name: the line of a file, or the path in a folder. Returns true if
/// it gives the name.
fn add_place(search: &mut Search<'_>, entry: &Entry<'_, '_>, name: &str) -> bool {
    if matches!(&entry.kind, Some(Kind::Bundle)) {
        return add_line(search, entry, "contents", name)
            || add_in(search, entry, "contents.d", name);
    }
    add_line(search, entry, "dependencies", name)
        || add_line(search, entry, "producer-for", name)
        || add_line(search, entry, "consumer-for", name)
        || add_in(search, entry, "dependencies.d", name)
}

/// Adds the line in which a file of an entry gives a name. Returns true if there is one.
fn add_line(search: &mut Search<'_>, entry: &Entry<'_, '_>, file: &str, name: &str) -> bool {
    match search.line_of(entry, file, name) {
        Some(number) => {
            search.said.add_file(entry, file);
            search.said.add_number(number);
            true
        }
        None => false,
    }
}

/// Adds the path of a name in a folder of an entry. Returns true if the name stands there.
fn add_in(search: &mut Search<'_>, entry: &Entry<'_, '_>, folder: &str, name: &str) -> bool {
    let folder = search.said.file_path(entry, folder);
    let path = search.said.path(folder.as_str(), name);
    drop(folder);
    let is_there = !matches!(search.at(path.as_str()), Found::Nothing);
    if is_there {
        search.said.add(path.as_str());
    }
    drop(path);
    is_there
}

/// Adds the steps of a circle, and which file makes each.
pub(crate) fn add_circle(search: &mut Search<'_>, names: &str) {
    let mut left = MAX_STEPS;
    let mut from = "";
    for name in names.split(' ') {
        if left == 0 {
            break;
        }
        left -= 1;
        if !from.is_empty() {
            add_step(search, from, name);
        }
        from = name;
    }
    add_step(search, from, first_word(names));
}

/// Adds a line that says why one name of a circle needs, or holds, the next.
fn add_step(search: &mut Search<'_>, from: &str, to: &str) {
    let Some(entry) = search.entry(from) else {
        return;
    };
    search.said.begin_line();
    if add_place(search, &entry, to) {
        search.said.add(" names ");
    } else {
        add_holder(search, &entry, to);
    }
    search.said.add(to);
}

/// Adds the bundle that a service needs and that holds another.
fn add_holder(search: &mut Search<'_>, entry: &Entry<'_, '_>, to: &str) {
    search.said.add_file(entry, "dependencies");
    let list = search.file(entry, "dependencies");
    let holder = holder_of(search, text_of(&list), to, MAX_DEPTH);
    add_bundle(&mut search.said, holder);
    drop(list);
}

/// Adds the number of a line and the bundle that it names, if they are known.
fn add_bundle(said: &mut Said, holder: Option<(usize, &str)>) {
    match holder {
        Some((number, bundle)) => {
            said.add_number(number);
            said.add_row(" names the bundle ", bundle, ", which holds ");
        }
        None => said.add(" names what holds "),
    }
}

/// Returns the first name in a list whose bundle holds a service, and the number of its line. Looks
/// through at most `depth` levels of bundles.
fn holder_of<'l>(
    search: &mut Search<'_>,
    list: &'l str,
    service: &str,
    depth: usize,
) -> Option<(usize, &'l str)> {
    if depth == 0 {
        return None;
    }
    let mut number = 0usize;
    for line in list.split('\n') {
        number = number.saturating_add(1);
        let name = name_on(line);
        let contents = contents_of(search, name);
        let inner = text_of(&contents);
        let holds = line_of(inner, service).is_some()
            || holder_of(search, inner, service, depth - 1).is_some();
        drop(contents);
        if holds {
            return Some((number, name));
        }
    }
    None
}

/// Returns the bytes of the file `contents` of a bundle, or none if the name is not that of a
/// bundle.
fn contents_of(search: &mut Search<'_>, name: &str) -> Vec<u8> {
    match search.entry(name) {
        Some(entry) if matches!(&entry.kind, Some(Kind::Bundle)) => search.file(&entry, "contents"),
        _ => Vec::new(search.said.alloc),
    }
}
