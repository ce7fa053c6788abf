//! The positional arguments of a command as owned strings, and the value of an option.
ghost use Rattle.std.specs.Prelude.{◌≡◌, map, option_map, string_bytes, IfOk};
ghost use Rattle.clap.specs.Words.{first_of, found_of, rows_of};
ghost use Rattle.rc_args.specs.Words.{words_in};

use clap::ArgMatches;
use std::alloc::{AllocError, Global};

/// Returns the positional arguments of a command as owned strings.
pub fn words_in(alloc: Global, matches: &ArgMatches<'_>) -> Result<Vec<String>, AllocError>
    ensures { IfOk result (λ words.
        map string_bytes words.items ≡ words_in (rows_of (found_of matches.now))) }
{
    match matches.get_strs("words") {
        Some(words) => strings_of(alloc, words),
        None => Ok(Vec::new(alloc)),
    }
}

/// Copies words into owned strings.
pub fn strings_of(alloc: Global, words: &[&str]) -> Result<Vec<String>, AllocError>
    ensures { IfOk result (λ strings. map string_bytes strings.items ≡ map (λ w. w.now) words.now) }
{
    let mut strings = Vec::new(alloc);
    for word in words {
        let string = String::from_str(alloc, word)?;
        strings.push(string)?;
    }
    Ok(strings)
}

/// Returns the value of an option, or `None` if it is not given.
pub fn text_in<'a>(matches: &ArgMatches<'a>, id: &str) -> Option<&'a str>
    ensures { option_map (λ text. text.now) result
        ≡ first_of id.now (rows_of (found_of matches.now)) }
{
    matches.get_str(id)
}
