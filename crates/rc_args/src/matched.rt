//! The matches of the command line, and those of one command.
ghost use Rattle.std.specs.Prelude.{◌≡◌, ◌≢◌, None, map, option_map, string_bytes, IfErr, IfOk};
ghost use Rattle.clap.specs.Words.{Text, found_of, rows_of, subcommand_rows_of};
ghost use Rattle.rc_args.specs.Words.{rows_for, rows_named};
ghost use Rattle.rc_args.specs.declared.asked.WordsFault.TheVariants.{Memory};

use crate::asked::WordsFault;
use crate::cmdline::{entered, is_memory, matches_of};
use crate::shown::shown_fault;
use clap::ArgMatches;
use std::alloc::Global;

/// Parses argv with `clap`. The first argument is the program's own name.
pub(crate) fn matches_in<'a>(
    alloc: Global,
    words: &'a [String],
) -> Result<ArgMatches<'a>, WordsFault>
    ensures rows { IfOk result (λ matches. (name : Text) →
        rows_for name (map string_bytes words.entry.now)
        ≡ rows_named name (subcommand_rows_of matches)) }
    ensures wrong { IfErr result (λ fault. fault ≢ Memory → (name : Text) →
        rows_for name (map string_bytes words.entry.now) ≡ None) }
{
    match matches_of(alloc, words) {
        Ok(matches) => Ok(matches),
        Err(error) => {
            if is_memory(&error) {
                return Err(WordsFault::Memory);
            }
            Err(shown_fault(alloc, words, error))
        }
    }
}

/// Returns the matches of the command with the given name, or `None` if it was not entered.
pub(crate) fn command_in<'m, 'a>(
    matches: &'m ArgMatches<'a>,
    name: &str,
) -> Option<&'m ArgMatches<'a>>
    ensures { option_map (λ inner. rows_of (found_of inner.now)) result
        ≡ rows_named name.now (subcommand_rows_of matches.entry.now) }
{
    match entered(matches) {
        Some((word, inner)) => { if word == name { Some(inner) } else { None } }
        None => None,
    }
}
