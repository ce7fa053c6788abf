//! The command line, read once.
ghost use Rattle.std.specs.Prelude.{◌≡◌, ◌≢◌, ◌↔◌, codes, map, string_bytes, IfErr, IfOk, IsTrue};
ghost use Rattle.std.specs.Prelude.{OnErr, OnOk};
ghost use Rattle.clap.specs.Words.{found_of, rows_of, subcommand_rows_of};
ghost use Rattle.rc_args.specs.Invocation.{InvocationAsk, Invokes, InvokesBy, InvokesEntered};
ghost use Rattle.rc_args.specs.CommandWords.{meaning_view};
ghost use Rattle.rc_args.specs.Invocation.{InvokesMeant, InvokesNamed, InvokesNothing};
ghost use Rattle.rc_args.specs.Invocation.{IsUsageFault};
ghost use Rattle.rc_args.specs.Invocation.{LacksItsFile, invocation_ask_of, invocation_by};
ghost use Rattle.rc_args.specs.Invocation.{wanted_files};
ghost use Rattle.rc_args.specs.Defaults.{defaults_ask_of};
ghost use Rattle.rc_args.specs.declared.asked.WordsFault.TheVariants.{Memory};

use crate::asked::{WordsFault, plan_in};
use crate::cmdline::{entered, is_on};
use crate::command_words::{Meaning, meaning_of};
use crate::compile_words::{CompileRequest, compile_in};
use crate::db_words::{DbRequest, db_in};
use crate::defaults::{Defaults, named_or};
use crate::matched::matches_in;
use crate::named_words::named_in;
use crate::once_words::once_in;
use crate::session_command::SessionCommand;
use crate::session_words::{lines_in, session_in};
use crate::texts::text_in;
use crate::update_words::update_in;
use clap::ArgMatches;
use rc_select::Request;
use std::alloc::Global;

/// The request of a command line.
#[derive(Drop)]
pub enum Invocation<'a> {
    /// The database that these source directories define.
    Compile(CompileRequest<'a>),
    /// The answer of a question about the database of this file.
    Db(DbRequest<'a>, Option<&'a str>),
    /// The plan of a change.
    Plan(Request, Option<&'a str>),
    /// The outcome of a script.
    Replay(Option<&'a str>),
    /// A command on the file of a session, and the file of its database.
    Session(SessionCommand<'a>, Option<&'a str>),
    /// Calls off the command that goes on with the session of this file. If the flag is given, ends
    /// its scripts, too.
    Cancel(bool, Option<&'a str>),
    /// The version of the program.
    Version,
}

/// Parses argv into an invocation, with the given defaults for the files and programs that it does
/// not name. Fails if argv is wrong, or if neither names a file that the command needs. The first
/// argument is the program's own name.
pub fn invocation_of<'a>(
    alloc: Global,
    words: &'a [String],
    defaults: Defaults<'a>,
) -> Result<Invocation<'a>, WordsFault>
    ensures asked { IfOk result (λ invocation. InvokesBy (defaults_ask_of defaults.entry)
        (map string_bytes words.entry.now) (invocation_ask_of invocation)) }
    ensures wrong { IfErr result (λ fault. fault ≢ Memory →
        IsUsageFault (defaults_ask_of defaults.entry) (map string_bytes words.entry.now) fault) }
{
    match said_by(alloc, words) {
        Ok(said) => said.with_defaults(defaults),
        Err(fault) => Err(fault),
    }
}

// Parses argv into an invocation. The first argument is the program's own name.
fn said_by<'a>(alloc: Global, words: &'a [String]) -> Result<Invocation<'a>, WordsFault>
    ensures asked { IfOk result (λ invocation.
        Invokes (map string_bytes words.entry.now) (invocation_ask_of invocation)) }
    ensures wrong { IfErr result (λ fault.
        fault ≢ Memory → InvokesNothing (map string_bytes words.entry.now)) }
{
    match matches_in(alloc, words) {
        Ok(matches) => {
            let invocation = invocation_in(alloc, &matches);
            drop(matches);
            invocation
        }
        Err(fault) => Err(fault),
    }
}

// Creates the invocation of the command that was entered from its matches.
fn invocation_in<'a>(alloc: Global, matches: &ArgMatches<'a>) -> Result<Invocation<'a>, WordsFault>
    ensures asked { IfOk result (λ invocation.
        InvokesEntered (subcommand_rows_of matches.now) (invocation_ask_of invocation)) }
    ensures wrong { IfErr result (λ fault. fault ≢ Memory → (ask : InvocationAsk) →
        InvokesEntered (subcommand_rows_of matches.now) ask → ⊥) }
{
    match entered(matches) {
        Some((name, inner)) => invocation_named(alloc, name, inner),
        None => Err(WordsFault::OtherCommand),
    }
}

// Creates the invocation of the command that a word stands for from its matches.
fn invocation_named<'a>(
    alloc: Global,
    name: &str,
    matches: &ArgMatches<'a>,
) -> Result<Invocation<'a>, WordsFault>
    ensures asked { IfOk result (λ invocation.
        InvokesNamed name.now (rows_of (found_of matches.now)) (invocation_ask_of invocation)) }
    ensures wrong { IfErr result (λ fault. fault ≢ Memory → (ask : InvocationAsk) →
        InvokesNamed name.now (rows_of (found_of matches.now)) ask → ⊥) }
{
    invocation_meant(alloc, meaning_of(name), matches)
}

// Creates the invocation of a command, of which a flag may count as given, from its matches.
fn invocation_meant<'a>(
    alloc: Global,
    meaning: Meaning<'_>,
    matches: &ArgMatches<'a>,
) -> Result<Invocation<'a>, WordsFault>
    ensures asked { IfOk result (λ invocation. InvokesMeant (meaning_view meaning.entry)
        (rows_of (found_of matches.now)) (invocation_ask_of invocation)) }
    ensures wrong { IfErr result (λ fault. fault ≢ Memory → (ask : InvocationAsk) →
        InvokesMeant (meaning_view meaning.entry) (rows_of (found_of matches.now)) ask → ⊥) }
{
    let base = text_in(matches, "base");
    let command = match meaning.command {
        "compile" => return Ok(Invocation::Compile(compile_in(alloc, matches)?)),
        "db" => return Ok(Invocation::Db(db_in(alloc, matches)?, base)),
        "plan" => return Ok(Invocation::Plan(plan_in(alloc, matches, "")?, base)),
        "replay" => return Ok(Invocation::Replay(base)),
        "cancel" => {
            let kills = is_on(matches, "kill");
            return Ok(Invocation::Cancel(kills, text_in(matches, "live")));
        }
        "version" => return Ok(Invocation::Version),
        "session" => SessionCommand::Lines(lines_in(alloc, matches)?),
        "update" => SessionCommand::Update(update_in(alloc, matches)?),
        "restart" => return restart_in(alloc, meaning, matches),
        "seal" => SessionCommand::Seal(session_in(alloc, matches)?),
        "status" => SessionCommand::Status(named_in(alloc, matches)?),
        "check" => SessionCommand::Check(named_in(alloc, matches)?),
        _ => SessionCommand::Line(once_in(alloc, meaning, matches)?),
    };
    Ok(Invocation::Session(command, base))
}

// Creates the invocation of a restart, or of one that is only to be shown, from its matches.
fn restart_in<'a>(
    alloc: Global,
    meaning: Meaning<'_>,
    matches: &ArgMatches<'a>,
) -> Result<Invocation<'a>, WordsFault>
    requires { meaning.command.now ≡ codes "restart" }
    ensures asked { IfOk result (λ invocation. InvokesMeant (meaning_view meaning.entry)
        (rows_of (found_of matches.now)) (invocation_ask_of invocation)) }
    ensures wrong { IfErr result (λ fault. fault ≢ Memory → (ask : InvocationAsk) →
        InvokesMeant (meaning_view meaning.entry) (rows_of (found_of matches.now)) ask → ⊥) }
{
    let base = text_in(matches, "base");
    let command = if is_on(matches, "dry") {
        SessionCommand::Line(once_in(alloc, meaning, matches)?)
    } else {
        SessionCommand::Restart(named_in(alloc, matches)?)
    };
    Ok(Invocation::Session(command, base))
}

impl<'a> Invocation<'a> {
    // Returns this invocation with the given defaults for what it does not name. Fails if it lacks
    // a file that it needs.
    fn with_defaults(self, defaults: Defaults<'a>) -> Result<Invocation<'a>, WordsFault>
        ensures asked { IfOk result (λ invocation. invocation_ask_of invocation
            ≡ invocation_by (defaults_ask_of defaults.entry) (invocation_ask_of self.entry)) }
        ensures named { OnOk result (LacksItsFile
            (invocation_by (defaults_ask_of defaults.entry) (invocation_ask_of self.entry)) → ⊥) }
        ensures lacks { OnErr result (LacksItsFile
            (invocation_by (defaults_ask_of defaults.entry) (invocation_ask_of self.entry))) }
        ensures fault { IfErr result (λ fault. fault ≡ wanted_files
            (invocation_by (defaults_ask_of defaults.entry) (invocation_ask_of self.entry))) }
    {
        let invocation = self.joined(defaults);
        if invocation.lacks_its_file() {
            let fault = invocation.wanted_files();
            drop(invocation);
            return Err(fault);
        }
        Ok(invocation)
    }

    // Returns this invocation with the given defaults for what it does not name.
    fn joined(self, defaults: Defaults<'a>) -> Invocation<'a>
        ensures { invocation_ask_of result
            ≡ invocation_by (defaults_ask_of defaults.entry) (invocation_ask_of self.entry) }
    {
        match self {
            Invocation::Db(request, file) => Invocation::Db(request, named_or(file, defaults.base)),
            Invocation::Plan(request, file) => {
                Invocation::Plan(request, named_or(file, defaults.base))
            }
            Invocation::Replay(file) => Invocation::Replay(named_or(file, defaults.base)),
            Invocation::Session(command, file) => {
                let file = named_or(file, defaults.base);
                Invocation::Session(command.with_defaults(defaults), file)
            }
            Invocation::Cancel(kills, file) => {
                Invocation::Cancel(kills, named_or(file, defaults.live))
            }
            other => other,
        }
    }

    // Returns true if a file that the invocation needs is not named.
    fn lacks_its_file(&self) -> bool
        ensures { IsTrue result ↔ LacksItsFile (invocation_ask_of self.now) }
    {
        match self {
            Invocation::Session(command, file) => command.lacks_its_file(*file),
            Invocation::Cancel(_, file) => file.is_none(),
            _ => false,
        }
    }

    // Returns the fault that says which files the invocation wants.
    fn wanted_files(&self) -> WordsFault
        ensures { result ≡ wanted_files (invocation_ask_of self.now) }
    {
        match self {
            Invocation::Session(command, _) => command.wanted_files(),
            Invocation::Cancel(_, _) => WordsFault::Session,
            _ => WordsFault::NoFile,
        }
    }
}
