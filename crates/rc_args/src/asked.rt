//! The arguments of `plan`, and the faults of the arguments of all commands.
ghost use Rattle.std.specs.Prelude.{◌≡◌, ◌≢◌, ◌⊎◌, ◌↔◌, map, None, Some, string_bytes, IfErr, IfOk};
ghost use Rattle.std.specs.Prelude.{IsTrue};
ghost use Rattle.clap.specs.Words.{found_of, rows_of};
ghost use Rattle.rc_select.specs.Ask.{ask_of};
ghost use Rattle.rc_args.specs.Asked.{AsksHelp, LacksWords, ask_with, is_on_with, plan_asked};
ghost use Rattle.rc_streams.specs.Input.{AppendsFront, failure_text, fault_line};
ghost use Rattle.rc_args.specs.declared.asked.WordsFault.TheVariants.{Memory};

use crate::cmdline::is_on;
use crate::matched::{command_in, matches_in};
use crate::texts::words_in;
use clap::error::ErrorKind;
use clap::{ArgMatches, Error as ClapError};
use rc_select::{Chosen, Flags, Request};
use rc_streams::ending::{WRONG_LINE, fail};
use rc_streams::{Failure, tell};
use std::alloc::{AllocError, Global};
use std::fmt;
use std::io::Write;
use thiserror::Error;

/// Why the arguments of a command are refused.
#[derive(Debug, Drop, Error)]
pub enum WordsFault {
    /// `clap` finds a fault in them, or they ask for help.
    Found(ClapError),
    /// They name another command.
    OtherCommand,
    /// They name more than one way.
    Ways,
    /// They ask no question of a database.
    Query,
    /// They name a generation, and not the file of the session that holds it.
    Live,
    /// The generation that they name is no number.
    Generation,
    /// They name no file of a session, or none of a new database, and an update wants both.
    Files,
    /// They name no file of the session whose command is to be called off.
    Session,
    /// They name no file that keeps what is up.
    NoFile,
    /// They name no service, and the command wants one.
    Names,
    /// Their first word is no name that a bundle may have.
    Name,
    /// One of them has a newline.
    Newline,
    /// Their number of workers is none from 1 to 64.
    Workers,
    /// Their bound on how many states there are is none of at least 3.
    Bound,
    /// Their limit is no number of milliseconds.
    Limit,
    /// The state to which they go back is no number.
    State,
    /// They go back to a state, and that is to be shown alone.
    Shown,
    /// Their list of transitions that fail has not the form of one.
    List,
    Memory,
}

impl From<AllocError> for WordsFault {
    ghost from_gives = { λ _ fault. fault ≡ Memory };

    fn from(_: AllocError) -> Self {
        WordsFault::Memory
    }
}

/// Parses the arguments of `plan`. The first argument is the program's own name.
pub fn plan_asked(alloc: Global, words: &[String]) -> Result<Request, WordsFault>
    ensures asked { IfOk result (λ request.
        plan_asked (map string_bytes words.now) ≡ Some (ask_of request)) }
    ensures wrong { IfErr result (λ fault.
        fault ≢ Memory → plan_asked (map string_bytes words.now) ≡ None) }
{
    match matches_in(alloc, words) {
        Ok(matches) => match command_in(&matches, "plan") {
            Some(inner) => {
                let asked = plan_in(alloc, inner, "");
                drop(matches);
                asked
            }
            None => {
                drop(matches);
                Err(WordsFault::OtherCommand)
            }
        },
        Err(fault) => Err(fault),
    }
}

// The flags of a command line, and the one that counts as given.
#[derive(Drop)]
struct Given<'m, 'a> {
    matches: &'m ArgMatches<'a>,
    flag: &'m str,
}

impl Flags for Given<'_, '_> {
    ghost on = { λ given name.
        is_on_with given.flag.now (rows_of (found_of given.matches.now)) name };

    fn is_on(&self, name: &str) -> bool {
        name == self.flag || is_on(self.matches, name)
    }
}

/// Reads the arguments of `plan`, which `change` has too, from the matches of the command. The
/// given flag counts as given; an empty one is none.
pub(crate) fn plan_in(
    alloc: Global,
    matches: &ArgMatches<'_>,
    flag: &str,
) -> Result<Request, WordsFault>
    ensures asked { IfOk result (λ request.
        ask_with flag.now (rows_of (found_of matches.now)) ≡ Some (ask_of request)) }
    ensures wrong { IfErr result (λ fault.
        fault ≢ Memory → ask_with flag.now (rows_of (found_of matches.now)) ≡ None) }
{
    let chosen = Chosen::given(&Given { matches, flag });
    match chosen.mode() {
        Some(mode) => Ok(chosen.request(mode, words_in(alloc, matches)?)),
        None => Err(WordsFault::Ways),
    }
}

/// Returns true if the arguments ask for help. Then `tell_words` writes the help, which belongs on
/// standard output.
pub fn asks_help(fault: &WordsFault) -> bool
    ensures { IsTrue result ↔ AsksHelp fault.now }
{
    match fault {
        WordsFault::Found(error) => error.kind() == ErrorKind::DisplayHelp,
        _ => false,
    }
}

/// Returns true if the arguments lack words that the command wants.
pub fn lacks_words(fault: &WordsFault) -> bool
    ensures { IsTrue result ↔ LacksWords fault.now }
{
    match fault {
        WordsFault::Names => true,
        WordsFault::Found(error) => error.kind() == ErrorKind::MissingRequiredArgument,
        _ => false,
    }
}

/// Reports why the arguments are refused, and returns the exit status.
pub fn tell_words<F: Write>(faults: &mut F, fault: &WordsFault) -> u8
    ensures statuses { (result ≡ 100) ⊎ (result ≡ 111) }
    ensures wrong { result ≡ 100 → fault.now ≢ Memory }
    ensures memory { result ≡ 111 → fault.now ≡ Memory }
    ensures failed { result ≡ 111 → AppendsFront (F.contents faults.old) (F.contents faults.new)
        (fault_line (failure_text Failure.Memory)) }
{
    match fault {
        WordsFault::Memory => fail(faults, Failure::Memory),
        WordsFault::Found(error) => {
            write_usage(error, faults);
            WRONG_LINE
        }
        other => {
            tell(faults, words_of(other).as_bytes());
            WRONG_LINE
        }
    }
}

// Returns the message for each fault except one that `clap` finds.
fn words_of(fault: &WordsFault) -> &'static str {
    match fault {
        WordsFault::Found(_) => "the command line is wrong",
        WordsFault::OtherCommand => "another command is named",
        WordsFault::Ways => "-u, -d and -D exclude each other",
        WordsFault::Query => {
            "db has no such query, or it takes other words; `undorc db --help` lists the queries"
        }
        WordsFault::Live => "-k of db wants -l",
        WordsFault::Generation => "-k of db wants a number from 0 to 4294967295",
        WordsFault::Files => {
            "update wants -l, or UNDORC_LIVE, and a new database: -b, UNDORC_DB or -B"
        }
        WordsFault::Session => "cancel wants -l, or UNDORC_LIVE",
        WordsFault::NoFile => "-l is missing, or UNDORC_LIVE: the file that keeps what is up",
        WordsFault::Names => "start and stop want a name, or -a",
        WordsFault::Name => "add wants a name first: 1 to 255 bytes, without spaces and newlines",
        WordsFault::Newline => "a name has no newline",
        WordsFault::Workers => "-w wants a number from 1 to 64",
        WordsFault::Bound => "-n wants a number from 3 to 4294967295",
        WordsFault::Limit => "-t and -T want a number from 0 to 4294967295",
        WordsFault::State => "--to wants a number from 0 to 4294967295",
        WordsFault::Shown => "--to and -n exclude each other",
        WordsFault::List => "-x wants `none`, or `up:NAME` and `down:NAME` joined by commas",
        WordsFault::Memory => "out of memory",
    }
}

impl fmt::Display for WordsFault {
    fn fmt<W: fmt::Write>(&self, f: &mut fmt::Formatter<W>) -> fmt::Result {
        match self {
            WordsFault::Found(error) => write!(f, "{error}"),
            fault => f.write_str(words_of(fault)),
        }
    }
}

// Writes the message of `clap`, which ends in a newline. A writer that fails is ignored.
fn write_usage<F: Write>(error: &ClapError, faults: &mut F) {
    let _ = write!(faults, "{error}");
}
