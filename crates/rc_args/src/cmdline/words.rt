//! The words of the command line, read by `clap`.
ghost use Rattle.std.specs.Prelude.{◌≡◌, ◌≢◌, ◌↔◌, map, false, option_map, string_bytes, IfErr};
ghost use Rattle.std.specs.Prelude.{IfOk, IsTrue};
ghost use Rattle.clap.specs.Words.{fault_of, found_of, kind_of, rows_of, subcommand_of};
ghost use Rattle.clap.specs.Words.{subcommand_rows_of};
ghost use Rattle.rc_args.specs.Commands.{program};
ghost use Rattle.rc_args.specs.Words.{has_fault, is_on};

use crate::cmdline::commands::undorc_command;
use clap::error::ErrorKind;
use clap::{ArgMatches, Error};
use std::alloc::Global;

/// Parses argv with `clap`. The first argument is the program's own name.
pub fn matches_of<'a>(alloc: Global, words: &'a [String]) -> Result<ArgMatches<'a>, Error>
    ensures rows { IfOk result (λ m. subcommand_rows_of m
        ≡ subcommand_of program (map string_bytes words.entry.now)) }
    ensures right { IfOk result (λ _. has_fault (fault_of program
        (map string_bytes words.entry.now)) ≡ false) }
    ensures wrong { IfErr result (λ e. kind_of e ≢ ErrorKind.OutOfMemory
        → IsTrue (has_fault (fault_of program (map string_bytes words.entry.now)))) }
{
    let command = undorc_command(alloc)?;
    command.try_get_matches_from(words)
}

/// Returns the name and the matches of the command that was entered.
pub fn entered<'m, 'a>(matches: &'m ArgMatches<'a>) -> Option<(&'a str, &'m ArgMatches<'a>)>
    ensures { option_map (λ m. (m.0.now, rows_of (found_of m.1.now))) result
        ≡ subcommand_rows_of matches.entry.now }
{
    matches.subcommand()
}

/// Returns true if a flag was given.
pub fn is_on(matches: &ArgMatches<'_>, id: &str) -> bool
    ensures { result ≡ is_on id.now (rows_of (found_of matches.now)) }
{
    match matches.get_str(id) {
        Some(value) => value == "true",
        None => false,
    }
}

/// Returns true if a parse ran out of memory. Any other error means that the command line is wrong.
pub fn is_memory(error: &Error) -> bool
    ensures { IsTrue result ↔ (kind_of error.now ≡ ErrorKind.OutOfMemory) }
{
    error.kind() == ErrorKind::OutOfMemory
}
