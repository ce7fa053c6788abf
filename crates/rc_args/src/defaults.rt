//! The files, programs and the directory that a command uses where its arguments name none.
ghost use Rattle.std.specs.Prelude.{◌≡◌, option_map};
ghost use Rattle.rc_args.specs.Defaults.{first_named};

/// The files of `-b` and `-l`, the programs of `-r` and `-c`, and the directory of `-o`, where the
/// words name none.
#[derive(Clone, Copy)]
pub struct Defaults<'a> {
    pub base: Option<&'a str>,
    pub live: Option<&'a str>,
    pub runner: Option<&'a str>,
    pub controller: Option<&'a str>,
    pub output: Option<&'a str>,
}

/// Returns the named value, or the default if none is named.
pub(crate) fn named_or<'a>(named: Option<&'a str>, default: Option<&'a str>) -> Option<&'a str>
    ensures { option_map (λ text. text.now) result
        ≡ first_named (option_map (λ text. text.now) named.entry)
        (option_map (λ text. text.now) default.entry) }
{
    match named {
        Some(text) => Some(text),
        None => default,
    }
}
