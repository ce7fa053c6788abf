//! The queries of `db` by their words, and what its help says of them.
ghost use Rattle.std.specs.Prelude.{◌≡◌, IfNone, IfSome};
ghost use Rattle.rc_args.specs.QueryWords.{name_word, names_word};
ghost use Rattle.rc_args.specs.declared.cmdline.query_words.NameQuery.{NameQuery as OfOne};
ghost use Rattle.rc_args.specs.declared.cmdline.query_words.NamesQuery.{NamesQuery as OfMany};

/// What the help of `db` says of its query.
pub(crate) const QUERIES: &str =
    "What is asked: check, dot, list, type, timeout, flags, contents, pipeline, script, atomics, dependencies or all-dependencies";

/// A query of one name.
#[derive(Clone, Copy)]
pub enum NameQuery {
    Kind,
    Limit,
    Flags,
    Contents,
    Pipeline,
    Script,
}

/// A query of any number of names.
#[derive(Clone, Copy)]
pub enum NamesQuery {
    Atomics,
    Dependencies,
    AllDependencies,
}

/// Returns the query of one name that is spelled by a word, or `None` if there is none.
pub fn name_query(word: &str) -> Option<NameQuery>
    ensures some { IfSome result (λ query. word.now ≡ name_word query) }
    ensures none { IfNone result ((query : OfOne) → word.now ≡ name_word query → ⊥) }
{
    match word {
        "type" => Some(NameQuery::Kind),
        "timeout" => Some(NameQuery::Limit),
        "flags" => Some(NameQuery::Flags),
        "contents" => Some(NameQuery::Contents),
        "pipeline" => Some(NameQuery::Pipeline),
        "script" => Some(NameQuery::Script),
        _ => None,
    }
}

/// Returns the query of any number of names that is spelled by a word, or `None` if there is none.
pub fn names_query(word: &str) -> Option<NamesQuery>
    ensures some { IfSome result (λ query. word.now ≡ names_word query) }
    ensures none { IfNone result ((query : OfMany) → word.now ≡ names_word query → ⊥) }
{
    match word {
        "atomics" => Some(NamesQuery::Atomics),
        "dependencies" => Some(NamesQuery::Dependencies),
        "all-dependencies" => Some(NamesQuery::AllDependencies),
        _ => None,
    }
}
