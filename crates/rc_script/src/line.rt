//! A session line, from bytes to what it says.
ghost use Rattle.std.specs.Prelude.{◌≡◌, ◌∷◌, IfOk, map};
ghost use Rattle.rc_script.specs.Says.{Says, IsSaid, HasName, limit_alone, saying_of, sentence};
ghost use Rattle.rc_script.specs.Says.{behind, said, plain, alone, addition_of, is_forced};
ghost use Rattle.rc_script.specs.Says.{unforced};

use crate::options::{front_of, only_limit, request_of, strings_of};
use crate::verb::Verb;
use crate::words::{is_silent, texts_of, words_of};
use rc_names::{Name, NameFault, NoMem};
use rc_select::{Choice, Request};
use rc_session::Command;
use std::alloc::{AllocError, Global};

/// What a session line says.
#[derive(Drop)]
pub enum SessionLine {
    /// An empty line or a comment. It has no answer.
    Nothing,
    /// A malformed line.
    Wrong,
    /// A command.
    Command(Command),
    /// The plan of a change is wanted, and nothing is to be done.
    Dry(Request),
    /// What is live is wanted.
    Live,
    /// The bundles are wanted.
    Bundles,
    /// The journal is wanted.
    Journal,
}

/// Parses the bytes of a session line, which do not include the newline at its end.
pub fn read_line(alloc: Global, line: &[u8]) -> Result<SessionLine, NoMem>
    ensures said { IfOk result (λ read. Says line.now (saying_of read)) }
{
    let words = words_of(alloc, line)?;
    if is_silent(&words) {
        return Ok(SessionLine::Nothing);
    }
    match texts_of(alloc, &words)? {
        Some(texts) => sentence(alloc, &texts),
        None => Ok(SessionLine::Wrong),
    }
}

/// Parses a session line from its words.
fn sentence(alloc: Global, words: &[&str]) -> Result<SessionLine, NoMem>
    ensures { IfOk result (λ line. IsSaid (sentence (map (λ word. word.now) words.now))
        (saying_of line)) }
{
    match front_of(alloc, words)? {
        Some((choices, rest)) => behind(alloc, &choices, rest),
        None => Ok(SessionLine::Wrong),
    }
}

/// Parses a session line from its options and the words after them.
fn behind(alloc: Global, choices: &[Choice], words: &[&str]) -> Result<SessionLine, NoMem>
    ensures { IfOk result (λ line. IsSaid (behind choices.now (map (λ word. word.now) words.now))
        (saying_of line)) }
{
    let Some((word, others)) = words.split_first() else {
        return Ok(SessionLine::Wrong);
    };
    match Verb::of(word) {
        Some(verb) => said(alloc, verb, choices, others),
        None => Ok(SessionLine::Wrong),
    }
}

/// Parses a session line from its verb, the options in front of it and the words after it.
fn said(alloc: Global, verb: Verb, choices: &[Choice], words: &[&str]) -> Result<SessionLine, NoMem>
    ensures { IfOk result (λ line. IsSaid (said verb choices.now (map (λ word. word.now) words.now))
        (saying_of line)) }
{
    match verb {
        Verb::Change => change(alloc, choices, words),
        Verb::Dry => dry(alloc, choices, words),
        Verb::Undo => Ok(undo(choices, words)),
        Verb::Redo => Ok(redo(choices, words)),
        Verb::Add => add(alloc, choices, words),
        Verb::Delete => delete(alloc, choices, words),
        Verb::Live => Ok(alone(SessionLine::Live, choices, words)),
        Verb::Bundles => Ok(alone(SessionLine::Bundles, choices, words)),
        Verb::Journal => Ok(alone(SessionLine::Journal, choices, words)),
    }
}

/// Creates the line of a change of the given names.
fn change(alloc: Global, choices: &[Choice], words: &[&str]) -> Result<SessionLine, NoMem>
    ensures { IfOk result (λ line. IsSaid
        (said Verb.Change choices.now (map (λ word. word.now) words.now)) (saying_of line)) }
{
    match request_of(alloc, choices, words)? {
        Some(request) => Ok(SessionLine::Command(Command::Change(request))),
        None => Ok(SessionLine::Wrong),
    }
}

/// Creates the line that asks for the plan of a change of the given names.
fn dry(alloc: Global, choices: &[Choice], words: &[&str]) -> Result<SessionLine, NoMem>
    ensures { IfOk result (λ line. IsSaid
        (said Verb.Dry choices.now (map (λ word. word.now) words.now)) (saying_of line)) }
{
    match request_of(alloc, choices, words)? {
        Some(request) => Ok(SessionLine::Dry(request)),
        None => Ok(SessionLine::Wrong),
    }
}

/// Creates the line of an undo. The line is wrong if anything but a limit stands beside the verb.
fn undo(choices: &[Choice], words: &[&str]) -> SessionLine
    ensures { IsSaid (said Verb.Undo choices.now (map (λ word. word.now) words.now))
        (saying_of result) }
{
    match limit_alone(choices, words) {
        Some(limit) => SessionLine::Command(Command::Undo(limit)),
        None => SessionLine::Wrong,
    }
}

/// Creates the line of a redo. The line is wrong if anything but a limit stands beside the verb.
fn redo(choices: &[Choice], words: &[&str]) -> SessionLine
    ensures { IsSaid (said Verb.Redo choices.now (map (λ word. word.now) words.now))
        (saying_of result) }
{
    match limit_alone(choices, words) {
        Some(limit) => SessionLine::Command(Command::Redo(limit)),
        None => SessionLine::Wrong,
    }
}

/// Returns the limit in front of a word, or `None` if anything else stands beside the word.
fn limit_alone(choices: &[Choice], words: &[&str]) -> Option<u32>
    ensures { result ≡ limit_alone choices.now (map (λ word. word.now) words.now) }
{
    if words.is_empty() {
        only_limit(choices)
    } else {
        None
    }
}

/// Creates the line that adds a bundle with a name and contents. The bundle is forced if `-f`
/// stands in front of them.
fn add(alloc: Global, choices: &[Choice], words: &[&str]) -> Result<SessionLine, NoMem>
    ensures { IfOk result (λ line. IsSaid
        (said Verb.Add choices.now (map (λ word. word.now) words.now)) (saying_of line)) }
{
    if !choices.is_empty() {
        return Ok(SessionLine::Wrong);
    }
    let force = is_forced(words);
    match unforced(words).split_first() {
        Some((name, contents)) => bundle(alloc, name, contents, force),
        None => Ok(SessionLine::Wrong),
    }
}

/// Creates the line that adds a bundle with the given contents. The line is wrong if the name is no
/// name of a bundle.
fn bundle(alloc: Global, name: &str, contents: &[&str], force: bool) -> Result<SessionLine, NoMem>
    ensures { IfOk result (λ line. IsSaid
        (addition_of force (name.now ∷ map (λ word. word.now) contents.now)) (saying_of line)) }
{
    let name = match Name::read(alloc, name) {
        Ok(name) => name,
        Err(NameFault::Memory) => return Err(AllocError),
        Err(_) => return Ok(SessionLine::Wrong),
    };
    let contents = strings_of(alloc, contents)?;
    Ok(SessionLine::Command(Command::Add(name, contents, force)))
}

/// Creates the line that deletes bundles. The deletion is forced if `-f` stands in front of their
/// names.
fn delete(alloc: Global, choices: &[Choice], words: &[&str]) -> Result<SessionLine, NoMem>
    ensures { IfOk result (λ line. IsSaid
        (said Verb.Delete choices.now (map (λ word. word.now) words.now)) (saying_of line)) }
{
    let names = unforced(words);
    if !choices.is_empty() || names.is_empty() {
        return Ok(SessionLine::Wrong);
    }
    let names = strings_of(alloc, names)?;
    Ok(SessionLine::Command(Command::Delete(names, is_forced(words))))
}

/// Returns true if `-f` stands in front of the words.
fn is_forced(words: &[&str]) -> bool
    ensures { result ≡ is_forced (map (λ word. word.now) words.now) }
{
    match words {
        [] => false,
        [first, ..] => *first == "-f",
    }
}

/// Returns the words without the `-f` in front of them.
fn unforced<'a, 'b>(words: &'b [&'a str]) -> &'b [&'a str]
    ensures { map (λ word. word.now) result.now
        ≡ unforced (map (λ word. word.now) words.entry.now) }
{
    if is_forced(words) { &words[1..] } else { words }
}

/// Returns the given line if its word stands alone, and a wrong line otherwise.
fn alone(line: SessionLine, choices: &[Choice], words: &[&str]) -> SessionLine
    requires { HasName (saying_of line) }
    ensures { IsSaid (plain (alone (saying_of line) (map (λ word. word.now) words.now)) choices.now)
        (saying_of result) }
{
    if choices.is_empty() && words.is_empty() {
        return line;
    }
    drop(line);
    SessionLine::Wrong
}
