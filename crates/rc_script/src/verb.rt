ghost use Rattle.std.specs.Prelude.{◌≡◌};
ghost use Rattle.rc_script.specs.Says.{verb_of};

/// What a line does, by its first word that is no option.
#[derive(Clone, Copy, PartialEq, Eq)]
pub(crate) enum Verb {
    Change,
    Dry,
    Undo,
    Redo,
    Add,
    Delete,
    Live,
    Bundles,
    Journal,
}

impl Verb {
    /// Returns the verb that a word spells, or `None` if it spells none.
    pub(crate) fn of(word: &str) -> Option<Verb>
        ensures { result ≡ verb_of word.now }
    {
        match word {
            "change" => Some(Verb::Change),
            "dry" => Some(Verb::Dry),
            "undo" => Some(Verb::Undo),
            "redo" => Some(Verb::Redo),
            "add" => Some(Verb::Add),
            "delete" => Some(Verb::Delete),
            "live" => Some(Verb::Live),
            "bundles" => Some(Verb::Bundles),
            "journal" => Some(Verb::Journal),
            _ => None,
        }
    }
}
