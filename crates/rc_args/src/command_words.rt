//! The words that stand for a command with one of its flags.
ghost use Rattle.std.specs.Prelude.{◌≡◌};
ghost use Rattle.rc_args.specs.CommandWords.{meaning_of, meaning_view};

/// A command, and the flag of it that counts as given. An empty flag is none.
#[derive(Clone, Copy)]
pub(crate) struct Meaning<'a> {
    pub(crate) command: &'a str,
    pub(crate) flag: &'a str,
}

/// Returns the command that a word stands for. Most words stand for the command of their own name.
pub(crate) fn meaning_of<'a>(word: &'a str) -> Meaning<'a>
    ensures { meaning_view result ≡ meaning_of word.entry.now }
{
    match word {
        "start" => Meaning {
            command: "change",
            flag: "up",
        },
        "stop" => Meaning {
            command: "change",
            flag: "down",
        },
        "list" => Meaning {
            command: "live",
            flag: "",
        },
        _ => Meaning {
            command: word,
            flag: "",
        },
    }
}
