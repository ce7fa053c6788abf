//! Asks a controller where a service stands.

ghost use Rattle.std.specs.Prelude.{◌≡◌, Ok, None, [], map, string_bytes, IfOk, IfSome, OnOk};
ghost use Rattle.std.specs.Process.{SameProgramAndArgs};
ghost use Rattle.rc_model.specs.declared.Outcome.{Outcome};
ghost use Rattle.rc_runner.specs.Asking.{IsAsking, IsQuestion, asking_seconds, found_of};
ghost use Rattle.rc_runner.specs.Asking.{question_for, question_word};
ghost use Rattle.rc_runner.specs.Shell.{MayEnd};

use crate::start::{Output, add_two, command_under, end_of, start};
use rc_core::Outcome;
use rc_names::Kind;
use std::alloc::{AllocError, Global};
use std::process::{Command, Processes};
use std::time::Clock;

/// Where a service stands by what its controller says.
#[derive(Clone, Copy, PartialEq, Eq, Debug)]
pub enum Found {
    Up,
    Down,
    /// The controller does not say: it does not know the word, or the service, or takes too long.
    Unknown,
}

/// What a controller is asked.
#[derive(Clone, Copy, PartialEq, Eq, Debug)]
pub enum Question {
    /// Whether a longrun is up. Its word is `state`.
    State,
    /// Whether a oneshot is up. Its word is another one, since a controller that knows longruns
    /// alone may answer `state` for any name. It is `check`.
    Check,
}

/// The most milliseconds that a controller may take to answer.
const LIMIT: u32 = 5000;

/// The same limit, as the text that the controller gets.
const LIMIT_TEXT: &str = "5000";

/// The same limit in seconds.
const SECONDS: u64 = 5;

/// Returns the question about a service of a kind. There is none about a bundle.
pub fn question_for(kind: Kind) -> Option<Question>
    ensures { result ≡ question_for kind }
{
    match kind {
        Kind::Longrun => Some(Question::State),
        Kind::Oneshot => Some(Question::Check),
        Kind::Bundle => None,
    }
}

/// Asks a controller, with the words of `controller`, where the service of the given name stands.
/// The controller gets the word of the question and the name. Its status 0 says that the service is
/// up, and 3 that it is down. A controller that takes too long is ended.
pub fn ask<R: Processes + Clock>(
    rt: &R,
    alloc: Global,
    controller: &[String],
    question: Question,
    name: &str,
) -> Found
    ensures told { (o : Outcome) × MayEnd asking_seconds o × (result ≡ found_of o) }
    ensures none { controller.now ≡ [] → result ≡ Found.Unknown }
{
    found_of(answer_of(rt, alloc, controller, question, name))
}

/// Runs a controller that is asked about a service, and returns how it ended.
fn answer_of<R: Processes + Clock>(
    rt: &R,
    alloc: Global,
    controller: &[String],
    question: Question,
    name: &str,
) -> Outcome
    ensures may { MayEnd asking_seconds result }
    ensures none { controller.now ≡ [] → result ≡ Outcome.NotStarted }
{
    let mut command = match call_to_ask(alloc, controller, question, name) {
        Ok(Some(command)) => command,
        Ok(None) | Err(_) => return Outcome::NotStarted,
    };
    let started = start(rt, &mut command, &Output::Null);
    drop(command);
    match started {
        Ok(mut child) => end_of(rt, alloc, &mut child, SECONDS),
        Err(_) => Outcome::NotStarted,
    }
}

/// Returns what the end of a controller says.
fn found_of(outcome: Outcome) -> Found
    ensures { result ≡ found_of outcome }
{
    match outcome {
        Outcome::Ok => Found::Up,
        Outcome::Failed(status) => found_by(status),
        Outcome::TimedOut | Outcome::NotStarted => Found::Unknown,
    }
}

/// Returns what a status other than 0 says.
fn found_by(status: u8) -> Found
    ensures { result ≡ found_of (Outcome.Failed status) }
{
    if status == 3 {
        Found::Down
    } else {
        Found::Unknown
    }
}

/// Returns the word of a question.
fn question_word(question: Question) -> &'static str
    ensures { result.now ≡ question_word question }
{
    match question {
        Question::State => "state",
        Question::Check => "check",
    }
}

/// Creates the command by which a controller is asked about a service. Returns none if there is no
/// controller.
fn call_to_ask(
    alloc: Global,
    controller: &[String],
    question: Question,
    name: &str,
) -> Result<Option<Command>, AllocError>
    ensures some { IfOk result (λ made. IfSome made
        (IsAsking question (map string_bytes controller.now) name.now)) }
    ensures none { result ≡ Ok None → controller.now ≡ [] }
{
    let Some(mut command) = command_under(alloc, controller, LIMIT)? else {
        return Ok(None);
    };
    let word = question_word(question);
    let Ok(()) = add_two(&mut command, word, name) else {
        drop(command);
        return Err(AllocError);
    };
    let Ok(()) = tell_question(&mut command, word, name) else {
        drop(command);
        return Err(AllocError);
    };
    Ok(Some(command))
}

/// Puts a question into the environment of a command.
fn tell_question(command: &mut Command, word: &str, name: &str) -> Result<(), AllocError>
    ensures told { OnOk result (IsQuestion word.now name.now command.new) }
    ensures same { OnOk result (SameProgramAndArgs command.old command.new) }
{
    command.env("UNDORC_NAME", name)?;
    command.env("UNDORC_WAY", word)?;
    command.env("UNDORC_LIMIT", LIMIT_TEXT)?;
    Ok(())
}
