//! What helps after each refusal of `compile`.
use crate::command::diagnostics::entries::{Entry, Sources};
use crate::command::diagnostics::said::Hint;
use crate::command::diagnostics::search::Search;
use crate::command::diagnostics::{chains, entry_flaws, file_flaws, pipes};

/// Returns the hint for a refusal that `compile` reported, given its word and the names after it.
pub fn compile_hint(sources: &Sources<'_>, word: &str, names: &str) -> Hint {
    let mut search = sources.search();
    match word {
        "Io" if names.is_empty() => file_flaws::add_root(&mut search),
        "Cycle" | "BundleCycle" => chains::add_circle(&mut search, names),
        "UnknownIn" => chains::add_unknown(&mut search, names),
        _ => {
            if let Some(entry) = search.entry(names) {
                add_of_entry(&mut search, &entry, word);
            }
        }
    }
    search.said.hint()
}

/// Adds the hint for a refusal of an entry.
fn add_of_entry(search: &mut Search<'_>, entry: &Entry<'_, '_>, word: &str) {
    match word {
        "BadName" => entry_flaws::add_bad_name(search, entry),
        "Twice" => entry_flaws::add_twice(search, entry),
        "NoType" => entry_flaws::add_no_type(search, entry),
        "NoUp" => search
            .said
            .add_file(entry, "up is missing: what a oneshot runs to come up"),
        "NoRun" => search
            .said
            .add_file(entry, "run is missing: what a longrun runs"),
        "PipelineType" | "PipelineMismatch" => pipes::add_neighbour(search, entry, word),
        "PipelineName" => pipes::add_taken(search, entry),
        _ => file_flaws::add_flaw(search, entry, word),
    }
}
