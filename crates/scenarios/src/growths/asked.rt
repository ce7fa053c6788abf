//! Commands by their arguments: how these are parsed, and the results of `plan`, `db` and `replay`.

use crate::growths::devices::{Due, ended};
use crate::growths::told::{came_of, go_on_to, show_came, show_same};
use crate::samples::{sample, words_of};
use rc_args::{
    Defaults, Invocation, Making, SessionCommand, WordsFault, invocation_of, renames_in,
    transitions_of,
};
use rc_cli::{db_run, plan_run, replay_run};
use rc_dbtext::write_db;
use rc_graph::Way;
use rc_set::NoMem;
use rc_streams::Noted;
use std::alloc::{AllocError, AllocGlobal, Global};
use std::io::{Print, Write};
use std::test::Fail;

/// No defaults: the arguments name all that they need.
const DEFAULTS: Defaults<'static> = Defaults {
    base: None,
    live: None,
    runner: None,
    controller: None,
    output: None,
};

/// A run of `plan`, `db` or `replay` on the sample.
#[derive(Clone, Copy)]
pub(crate) struct Command {
    /// The words behind the program's name.
    pub(crate) line: &'static str,
    /// Whether the database is no part of the input.
    pub(crate) by_base: bool,
    /// The rest of the input.
    pub(crate) own: &'static str,
    /// What is to be written.
    pub(crate) written: &'static str,
    /// What is to be said of a fault, nothing where there is none.
    pub(crate) said: &'static str,
}

/// Runs a command, and prints the result.
pub(crate) fn show_command(
    rt: &(impl Print + AllocGlobal),
    what: &str,
    command: &Command,
) -> Result<(), Fail> {
    let db = sample(rt.alloc())?;
    let text = write_db(rt.alloc(), &db);
    drop(db);
    let text = text?;
    let words = argv_of(rt.alloc(), command.line)?;
    let mut input = Vec::new(rt.alloc());
    if !command.by_base {
        input.extend_from_slice(&text)?;
    }
    input.extend_from_slice(command.own.as_bytes())?;
    let base = if command.by_base {
        Some(text.as_slice())
    } else {
        None
    };
    let (mut writer, mut faults) = (Due::new(command.written), Due::new(command.said));
    let _ = print!(rt; "{what}: ");
    let status = run(rt.alloc(), &words, base, &input, &mut writer, &mut faults);
    let due = u8::from(!command.said.is_empty());
    show_came(rt, ended(status, due, &writer, &faults))?;
    Ok(show_same(rt, true)?)
}

/// Parses the arguments of a command, and prints the result.
pub(crate) fn show_asked(
    rt: &(impl Print + AllocGlobal),
    what: &str,
    line: &str,
) -> Result<(), Fail> {
    let words = argv_of(rt.alloc(), line)?;
    let _ = print!(rt; "{what}: ");
    let is_right = is_asked(rt, &words, line);
    show_came(rt, came_of(is_right))?;
    Ok(show_same(rt, true)?)
}

/// Returns true if the arguments are parsed as the command that they name.
fn is_asked(rt: &(impl Print + AllocGlobal), words: &[String], line: &str) -> Result<bool, NoMem> {
    match invocation_of(rt.alloc(), words, DEFAULTS) {
        Ok(asked) => {
            let is_right = line.starts_with(word_of(&asked));
            let are_right = are_programs(rt, &asked);
            drop(asked);
            Ok(are_right? && is_right)
        }
        Err(WordsFault::Memory) => Err(AllocError),
        Err(fault) => {
            drop(fault);
            Ok(false)
        }
    }
}

/// Returns the word of a command.
fn word_of(asked: &Invocation<'_>) -> &'static str {
    match asked {
        Invocation::Compile(_) => "compile",
        Invocation::Db(..) => "db",
        Invocation::Plan(..) => "plan",
        Invocation::Replay(_) => "replay",
        Invocation::Session(SessionCommand::Lines(_), _) => "session",
        Invocation::Session(SessionCommand::Line(_), _) => "change",
        Invocation::Session(SessionCommand::Update(_), _) => "update",
        Invocation::Session(SessionCommand::Restart(_), _) => "restart",
        Invocation::Session(SessionCommand::Seal(_), _) => "seal",
        Invocation::Session(SessionCommand::Status(_), _) => "status",
        Invocation::Session(SessionCommand::Check(_), _) => "check",
        Invocation::Cancel(_, _) => "cancel",
        Invocation::Version => "version",
    }
}

/// Returns true if the programs of a session are the usual shell, and a controller of two words.
fn are_programs(rt: &(impl Print + AllocGlobal), asked: &Invocation<'_>) -> Result<bool, NoMem> {
    let Invocation::Session(SessionCommand::Lines(request), _) = asked else {
        return Ok(true);
    };
    let Making::Programs(programs) = &request.making else {
        return Ok(false);
    };
    go_on_to(rt, "its programs");
    let runner = programs.runner_words(rt.alloc())?;
    let controller = programs.controller_words(rt.alloc())?;
    Ok(are_words(&runner, &["/bin/sh", "-c"]) && are_words(&controller, &["s6-svc", "x"]))
}

/// Returns true if the words are those that are due.
pub(crate) fn are_words(words: &[String], due: &[&str]) -> bool {
    for (word, text) in words.iter().zip(due) {
        if word.as_str() != *text {
            return false;
        }
    }
    words.len() == due.len()
}

/// Returns true if a list of transitions that fail has the two that its text names.
pub(crate) fn are_listed(alloc: Global) -> Result<bool, NoMem> {
    match transitions_of(alloc, b"up:net,down:log") {
        Ok(listed) => match listed.as_slice() {
            [one, other] => Ok(
                one.way == Way::Raise
                    && one.name == b"net".as_slice()
                    && other.way == Way::Lower
                    && other.name == b"log".as_slice(),
            ),
            _ => Ok(false),
        },
        Err(_) => Err(AllocError),
    }
}

/// Returns true if a text says that one service continues under another name, and that one is
/// restarted.
pub(crate) fn are_renames(alloc: Global) -> Result<bool, NoMem> {
    match renames_in(alloc, &[], b"log -> logger\nnet restart\n") {
        Ok(said) => match said.as_slice() {
            [one, other] => Ok(
                one.old == b"log".as_slice()
                    && one.new == b"logger".as_slice()
                    && !one.restart
                    && other.old == b"net".as_slice()
                    && other.restart,
            ),
            _ => Ok(false),
        },
        Err(_) => Err(AllocError),
    }
}

/// Returns the program's name, followed by the words of a command line.
fn argv_of(alloc: Global, line: &str) -> Result<Vec<String>, NoMem> {
    let mut words = words_of(alloc, &["undorc"])?;
    for word in line.split(' ') {
        words.push(String::from_str(alloc, word)?)?;
    }
    Ok(words)
}

/// Runs a command by its words, and returns the status.
fn run<W: Write, F: Write>(
    alloc: Global,
    words: &[String],
    base: Option<&[u8]>,
    input: &[u8],
    writer: &mut W,
    faults: &mut F,
) -> u8 {
    let mut reader = Noted::new(input);
    let mut writer = Noted::new(writer);
    match words.get(1).map(|word| word.as_str()) {
        Some("plan") => plan_run(alloc, words, base, &mut reader, &mut writer, faults),
        Some("db") => db_run(alloc, words, base, &mut reader, &mut writer, faults),
        _ => replay_run(alloc, words, base, &mut reader, &mut writer, faults),
    }
}
