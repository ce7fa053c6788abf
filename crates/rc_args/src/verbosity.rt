//! Which transitions a command reports, by its flags.
ghost use Rattle.std.specs.Prelude.{◌≡◌};
ghost use Rattle.clap.specs.Words.{found_of, rows_of};
ghost use Rattle.rc_args.specs.Reported.{command_verbosity, lines_verbosity};

use crate::cmdline::is_on;
use clap::ArgMatches;

/// Which transitions a command reports on standard error.
#[derive(Clone, Copy, PartialEq, Eq, Debug)]
pub enum Verbosity {
    /// None.
    Quiet,
    /// Those that do not succeed.
    Failures,
    /// Each, as it starts and as it ends, and what its program writes.
    Transitions,
}

/// Returns the verbosity of a session of lines, which reports nothing unless a flag says so.
pub(crate) fn lines_verbosity(matches: &ArgMatches<'_>) -> Verbosity
    ensures { result ≡ lines_verbosity (rows_of (found_of matches.now)) }
{
    if is_on(matches, "progress") {
        Verbosity::Transitions
    } else if is_on(matches, "verbose") {
        Verbosity::Failures
    } else {
        Verbosity::Quiet
    }
}

/// Returns the verbosity of a single command. It reports the transitions that do not succeed,
/// unless a flag says more or less.
pub(crate) fn command_verbosity(matches: &ArgMatches<'_>) -> Verbosity
    ensures { result ≡ command_verbosity (rows_of (found_of matches.now)) }
{
    if is_on(matches, "verbose") {
        Verbosity::Transitions
    } else if is_on(matches, "quiet") {
        Verbosity::Quiet
    } else {
        Verbosity::Failures
    }
}
