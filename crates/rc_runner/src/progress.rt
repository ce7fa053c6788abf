//! Events of services, and the text of the message that reports one.

ghost use Rattle.std.specs.Prelude.{◌≡◌, IfOk, string_bytes};
ghost use Rattle.rc_runner.specs.Progress.{event_text, gap_text, level_for, level_of, line_text};
ghost use Rattle.rc_runner.specs.Progress.{moment_text, outcome_text, zeros_text};

use crate::task::word_towards;
use log::Level;
use rc_core::Outcome;
use rc_graph::Way;
use std::alloc::{AllocError, Global};
use std::fmt;

/// An event of a service on its way.
#[derive(Clone, Copy)]
pub(crate) enum Event<'a> {
    /// A program is started.
    Started,
    Ended(Outcome),
    /// It ended so, and its program wrote this line last.
    Saying(Outcome, &'a str),
}

impl Event<'_> {
    /// Returns the level of the event's message. A transition that did not succeed is a warning.
    pub(crate) fn level(&self) -> Level
        ensures { result ≡ level_of self.now }
    {
        match self {
            Event::Started => Level::Info,
            Event::Ended(outcome) | Event::Saying(outcome, _) => level_for(*outcome),
        }
    }
}

impl fmt::Display for Event<'_> {
    fn fmt<W: fmt::Write>(&self, f: &mut fmt::Formatter<W>) -> fmt::Result {
        match self {
            Event::Started => f.write_str("started"),
            Event::Ended(outcome) => write_outcome(f, *outcome),
            Event::Saying(outcome, said) => {
                write_outcome(f, *outcome)?;
                write!(f, ": {said}")
            }
        }
    }
}

/// Writes an outcome in words.
fn write_outcome<W: fmt::Write>(f: &mut fmt::Formatter<W>, outcome: Outcome) -> fmt::Result {
    match outcome {
        Outcome::Ok => f.write_str("ok"),
        Outcome::Failed(status) => write!(f, "failed {status}"),
        Outcome::TimedOut => f.write_str("timed out"),
        Outcome::NotStarted => f.write_str("not started"),
    }
}

/// Returns the level of the message that reports an outcome.
fn level_for(outcome: Outcome) -> Level
    ensures { result ≡ level_for outcome }
{
    match outcome {
        Outcome::Ok => Level::Info,
        Outcome::Failed(_) | Outcome::TimedOut | Outcome::NotStarted => Level::Warn,
    }
}

/// Returns the message that reports an event of a service at a moment, in milliseconds.
pub(crate) fn line_of(
    alloc: Global,
    moment: u64,
    way: Way,
    name: &str,
    event: Event<'_>,
) -> Result<String, AllocError>
    ensures { IfOk result
        (λ line. string_bytes line ≡ line_text moment way name.now event.entry) }
{
    let mut line = moment_of(alloc, moment)?;
    line.push_str(" s  ")?;
    line.push_str(word_towards(way))?;
    line.push_str(" ")?;
    line.push_str(name)?;
    line.push_str(": ")?;
    let what = words_of(alloc, event)?;
    line.push_str(what.as_str())?;
    drop(what);
    Ok(line)
}

/// Returns the beginning of a message: a moment in milliseconds, written in seconds.
fn moment_of(alloc: Global, moment: u64) -> Result<String, AllocError>
    ensures { IfOk result (λ text. string_bytes text ≡ moment_text moment) }
{
    let seconds = moment / 1000;
    let rest = moment % 1000;
    let mut text = String::from_str(alloc, gap_before(seconds))?;
    let number = format!(in alloc; "{seconds}.")?;
    text.push_str(number.as_str())?;
    text.push_str(zeros_before(rest))?;
    let number = format!(in alloc; "{rest}")?;
    text.push_str(number.as_str())?;
    Ok(text)
}

/// Returns an event of a service in words.
fn words_of(alloc: Global, event: Event<'_>) -> Result<String, AllocError>
    ensures { IfOk result (λ words. string_bytes words ≡ event_text event.entry) }
{
    match event {
        Event::Started => String::from_str(alloc, "started"),
        Event::Ended(outcome) => outcome_words(alloc, outcome),
        Event::Saying(outcome, said) => {
            let mut words = outcome_words(alloc, outcome)?;
            words.push_str(": ")?;
            words.push_str(said)?;
            Ok(words)
        }
    }
}

/// Returns an outcome in words.
fn outcome_words(alloc: Global, outcome: Outcome) -> Result<String, AllocError>
    ensures { IfOk result (λ words. string_bytes words ≡ outcome_text outcome) }
{
    match outcome {
        Outcome::Ok => String::from_str(alloc, "ok"),
        Outcome::Failed(status) => format!(in alloc; "failed {status}"),
        Outcome::TimedOut => String::from_str(alloc, "timed out"),
        Outcome::NotStarted => String::from_str(alloc, "not started"),
    }
}

/// Returns the blanks before so many seconds, which take at least four places.
fn gap_before(seconds: u64) -> &'static str
    ensures { result.now ≡ gap_text seconds }
{
    if seconds / 10 == 0 {
        return "   ";
    }
    if seconds / 100 == 0 {
        return "  ";
    }
    if seconds / 1000 == 0 {
        return " ";
    }
    ""
}

/// Returns the zeros before so many milliseconds, which take at least three places.
fn zeros_before(rest: u64) -> &'static str
    ensures { result.now ≡ zeros_text rest }
{
    if rest / 10 == 0 {
        return "00";
    }
    if rest / 100 == 0 {
        return "0";
    }
    ""
}
