//! What helps where pipelines do not fit together.
use crate::command::diagnostics::entries::Entry;
use crate::command::diagnostics::listed::{name_at, name_on, text_of};
use crate::command::diagnostics::search::Search;
use rc_names::Kind;

/// Adds which side of a pipe is no longrun, or which neighbour does not name the service from its
/// side.
pub(crate) fn add_neighbour(search: &mut Search<'_>, entry: &Entry<'_, '_>, word: &str) {
    if matches!(word, "PipelineMismatch") {
        add_unfit(search, entry, "producer-for", "consumer-for");
        add_unfit(search, entry, "consumer-for", "producer-for");
    } else if matches!(&entry.kind, Some(Kind::Longrun)) {
        add_unfit(search, entry, "producer-for", "type");
        add_unfit(search, entry, "consumer-for", "type");
    } else {
        search.said.add_file(entry, "type");
        search
            .said
            .add(": only a longrun may have producer-for or consumer-for");
    }
}

/// Adds the first name of a file that does not fit, unless something was said before.
fn add_unfit(search: &mut Search<'_>, entry: &Entry<'_, '_>, file: &str, back: &str) {
    if !search.said.is_empty() {
        return;
    }
    let list = search.file(entry, file);
    if let Some(other) = unfit_in(search, entry, text_of(&list), back) {
        search.said.add_file(entry, file);
        search.said.add_row(" names ", other.name, ", and ");
        search.said.add_file(&other, back);
        if matches!(back, "type") {
            search.said.add(" is no longrun");
        } else {
            search.said.add_row(" does not name ", entry.name, "");
        }
    }
    drop(list);
}

/// Returns the first neighbour in a list that does not fit.
fn unfit_in<'a, 'l>(
    search: &mut Search<'a>,
    entry: &Entry<'_, '_>,
    list: &'l str,
    back: &str,
) -> Option<Entry<'a, 'l>> {
    for line in list.split('\n') {
        if let Some(other) = search.entry(name_on(line)) {
            if !fits(search, entry, &other, back) {
                return Some(other);
            }
        }
    }
    None
}

/// Returns true if a neighbour fits. If `back` is `type`, it must be a longrun. Otherwise its file
/// `back` must name the entry.
fn fits(search: &mut Search<'_>, entry: &Entry<'_, '_>, other: &Entry<'_, '_>, back: &str) -> bool {
    if matches!(back, "type") {
        return matches!(&other.kind, Some(Kind::Longrun));
    }
    search.line_of(other, back, entry.name).is_some()
}

/// Adds which entry has the name of a pipeline's bundle, or that another pipeline has it.
pub(crate) fn add_taken(search: &mut Search<'_>, entry: &Entry<'_, '_>) {
    let list = search.file(entry, "pipeline-name");
    if let Some((_, name)) = name_at(text_of(&list), 0) {
        search.said.add_file(entry, "pipeline-name: ");
        match search.entry(name) {
            Some(other) => {
                search.said.add_row(other.root, "/", name);
                search.said.add(" has this name");
            }
            None => {
                search.said.add_row("another pipeline is named ", name, "");
            }
        }
    }
    drop(list);
}
