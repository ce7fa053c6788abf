//! The commands of the program, as they are declared to `clap`.
ghost use Rattle.std.specs.Prelude.{◌≡◌};
ghost use Rattle.clap.specs.Words.{App};
ghost use Rattle.rc_args.specs.Commands.{IsOwn, Reads, altering_program, asking_program, bare};
ghost use Rattle.rc_args.specs.Commands.{bare_program};
ghost use Rattle.rc_args.specs.Commands.{changing_program, flag, long_option, option, program};
ghost use Rattle.rc_args.specs.Commands.{query_word};
ghost use Rattle.rc_args.specs.Commands.{repeated, rule_in, with_arg, with_command};
ghost use Rattle.rc_args.specs.Told.{listed, told_command, told_rule, with_told};

use crate::cmdline::query_words::QUERIES;
use crate::cmdline::told::{ALTERING, ASKING, CHANGING, SHOWING, ToldArg, ToldCommand};
use clap::{Arg, ArgAction, Command};
use std::alloc::{AllocError, Global};

/// Creates the program with all its commands.
pub(crate) fn undorc_command<'a>(alloc: Global) -> Result<Command<'a>, AllocError>
    ensures { Reads result program }
{
    let altering = altering_program(alloc);
    with_commands(alloc, altering, &SHOWING)
}

// Creates the program with the commands that ask about databases.
fn asking_program<'a>(alloc: Global) -> Result<Command<'a>, AllocError>
    ensures { Reads result asking_program }
{
    let alone = undorc_alone(alloc);
    with_commands(alloc, alone, &ASKING)
}

// Creates the program with the commands that ask about databases or go on with a session.
fn changing_program<'a>(alloc: Global) -> Result<Command<'a>, AllocError>
    ensures { Reads result changing_program }
{
    let asking = asking_program(alloc);
    with_commands(alloc, asking, &CHANGING)
}

// Creates the program with the commands of `changing_program` and those that alter what a session
// holds.
fn altering_program<'a>(alloc: Global) -> Result<Command<'a>, AllocError>
    ensures { Reads result altering_program }
{
    let changing = changing_program(alloc);
    with_commands(alloc, changing, &ALTERING)
}

// Adds the commands of a table to a program.
fn with_commands<'a>(
    alloc: Global,
    program: Result<Command<'a>, AllocError>,
    commands: &[ToldCommand],
) -> Result<Command<'a>, AllocError>
    ensures { (app : App) → Reads program.entry app →
        Reads result (with_told app commands.now) }
{
    let mut whole = program;
    for told in commands {
        whole = with_command(alloc, whole, told);
    }
    whole
}

#[tactic(auto, unfolding(crate::specs::Commands::Reads, crate::specs::Commands::bare_program))]
fn undorc_alone<'a>(alloc: Global) -> Result<Command<'a>, AllocError>
    ensures { Reads result bare_program }
{
    Ok(
        Command::new(alloc, "undorc")
            .about("A manager of services whose every change can be undone")
            .subcommand_required(true),
    )
}

// Adds a command to a program.
#[tactic(auto, unfolding(crate::specs::Commands::Reads, crate::specs::Commands::with_command))]
fn with_command<'a>(
    alloc: Global,
    program: Result<Command<'a>, AllocError>,
    told: &ToldCommand,
) -> Result<Command<'a>, AllocError>
    ensures { (app : App) → Reads program.entry app →
        Reads result (with_command app (told_command told.now.name.now told.now.args.now)) }
{
    let program = program?;
    match command_of(alloc, told.name, told.about, told.args) {
        Ok(command) => program.subcommand(command),
        Err(e) => Err(e),
    }
}

// Creates a command with the arguments of a table.
fn command_of<'a>(
    alloc: Global,
    name: &'a str,
    about: &'a str,
    args: &[ToldArg],
) -> Result<Command<'a>, AllocError>
    ensures { Reads result (told_command name.entry.now args.now) }
{
    let mut command = bare(alloc, name, about);
    for told in args {
        command = with_arg(alloc, command, told);
    }
    command
}

// Creates a command without arguments.
#[tactic(auto, unfolding(crate::specs::Commands::Reads, crate::specs::Commands::bare))]
fn bare<'a>(alloc: Global, name: &'a str, about: &'a str) -> Result<Command<'a>, AllocError>
    ensures { Reads result (bare name.entry.now) }
{
    Ok(Command::new(alloc, name).about(about))
}

// Adds an argument to a command.
#[tactic(auto, unfolding(crate::specs::Commands::Reads, crate::specs::Commands::rule_in, crate::specs::Commands::IsOwn, crate::specs::Commands::with_arg))]
fn with_arg<'a>(
    alloc: Global,
    command: Result<Command<'a>, AllocError>,
    told: &ToldArg,
) -> Result<Command<'a>, AllocError>
    ensures { (app : App) → Reads command.entry app →
        Reads result (with_arg app (told_rule told.now)) }
{
    command?.arg(arg_of(alloc, told))
}

// Creates an argument from its entry in a table.
#[tactic(auto, unfolding(crate::specs::Commands::rule_in, crate::specs::Commands::IsOwn))]
fn arg_of<'a>(alloc: Global, told: &ToldArg) -> Arg<'a>
    ensures rule { rule_in result ≡ told_rule told.now }
    ensures local { IsOwn result }
{
    match *told {
        ToldArg::Flag(id, letter, help) => flag(alloc, id, letter, help),
        ToldArg::Valued(id, letter, value, help) => option(alloc, id, letter, value, help),
        ToldArg::Repeated(id, letter, value, help) => repeated(alloc, id, letter, value, help),
        ToldArg::Long(id, value, help) => long_option(alloc, id, value, help),
        ToldArg::Query => query_argument(alloc),
        ToldArg::Words(least, name, help) => words_argument(alloc, least, name, help),
    }
}

#[tactic(auto, unfolding(crate::specs::Commands::rule_in, crate::specs::Commands::IsOwn, crate::specs::Commands::flag))]
fn flag<'a>(alloc: Global, id: &'a str, letter: char, help: &'a str) -> Arg<'a>
    ensures rule { rule_in result ≡ flag id.entry.now letter }
    ensures local { IsOwn result }
{
    Arg::new(alloc, id)
        .short(letter)
        .action(ArgAction::SetTrue)
        .help(help)
}

#[tactic(auto, unfolding(crate::specs::Commands::rule_in, crate::specs::Commands::IsOwn, crate::specs::Commands::option))]
fn option<'a>(alloc: Global, id: &'a str, letter: char, value: &'a str, help: &'a str) -> Arg<'a>
    ensures rule { rule_in result ≡ option id.entry.now letter }
    ensures local { IsOwn result }
{
    Arg::new(alloc, id)
        .short(letter)
        .value_name(value)
        .action(ArgAction::Set)
        .help(help)
}

#[tactic(auto, unfolding(crate::specs::Commands::rule_in, crate::specs::Commands::IsOwn, crate::specs::Commands::long_option))]
fn long_option<'a>(alloc: Global, id: &'a str, value: &'a str, help: &'a str) -> Arg<'a>
    ensures rule { rule_in result ≡ long_option id.entry.now }
    ensures local { IsOwn result }
{
    Arg::new(alloc, id)
        .long(id)
        .value_name(value)
        .action(ArgAction::Set)
        .help(help)
}

#[tactic(auto, unfolding(crate::specs::Commands::rule_in, crate::specs::Commands::IsOwn, crate::specs::Commands::repeated))]
fn repeated<'a>(alloc: Global, id: &'a str, letter: char, value: &'a str, help: &'a str) -> Arg<'a>
    ensures rule { rule_in result ≡ repeated id.entry.now letter }
    ensures local { IsOwn result }
{
    Arg::new(alloc, id)
        .short(letter)
        .value_name(value)
        .action(ArgAction::Append)
        .help(help)
}

#[tactic(auto, unfolding(crate::specs::Commands::rule_in, crate::specs::Commands::IsOwn, crate::specs::Commands::query_word))]
fn query_argument<'a>(alloc: Global) -> Arg<'a>
    ensures rule { rule_in result ≡ query_word }
    ensures local { IsOwn result }
{
    Arg::new(alloc, "query")
        .value_name("QUERY")
        .action(ArgAction::Set)
        .required(true)
        .help(QUERIES)
}

// Creates a positional argument that takes at least `least` words. It is required unless `least` is
// 0.
#[tactic(auto, unfolding(crate::specs::Commands::rule_in, crate::specs::Commands::IsOwn))]
fn words_argument<'a>(alloc: Global, least: usize, name: &'a str, help: &'a str) -> Arg<'a>
    ensures rule { rule_in result ≡ listed least }
    ensures local { IsOwn result }
{
    Arg::new(alloc, "words")
        .value_name(name)
        .action(ArgAction::Append)
        .num_args(least..)
        .required(0 < least)
        .help(help)
}
