//! A script, from bytes to commands with their events.
ghost use Rattle.std.specs.Prelude.{◌≡◌, None, Some, IfOk, IfErr, MatchBool, map, option_map};
ghost use Rattle.rc_session.specs.Commands.{command_of};
ghost use Rattle.rc_script.specs.Says.{SaysWrong};
ghost use Rattle.rc_script.specs.Script.{IsItemSaying, event_item, IsScript, IsScriptFault};
ghost use Rattle.rc_script.specs.Script.{AddsLine, CannotAdd, lines_in, taking, with_event};
ghost use Rattle.rc_script.specs.declared.script.ScriptFault.TheVariants.{Memory};

use crate::events::event_in;
use crate::line::{SessionLine, read_line};
use crate::words::{texts_of, words_of};
use rc_core::Event;
use rc_names::{Names, NoMem};
use rc_session::Step;
use std::alloc::{AllocError, Global};
use thiserror::Error;

/// Why there is no script.
#[derive(Clone, Copy, PartialEq, Eq, Debug, Error)]
pub enum ScriptFault {
    /// The line of this number, counted from 1, may not stand where it does.
    #[error("line {0} is neither a command nor an event of one")]
    BadLine(usize),
    #[error("out of memory")]
    Memory,
}

impl From<AllocError> for ScriptFault {
    ghost from_gives = { λ _ fault. fault ≡ Memory };

    fn from(_: AllocError) -> ScriptFault {
        ScriptFault::Memory
    }
}

/// Parses the commands of a script, each with its events, over the services of the given names.
pub fn read_script(alloc: Global, names: &Names, text: &[u8]) -> Result<Vec<Step>, ScriptFault>
    ensures steps { IfOk result (λ steps.
        IsScript names.now text.now (map command_of steps.items)) }
    ensures fault { IfErr result (IsScriptFault names.now text.now) }
{
    let lines = lines_of(alloc, text)?;
    let mut steps = Vec::new(alloc);
    for (place, line) in lines.iter().enumerate() {
        let added = add_line(alloc, names, &mut steps, line)?;
        if !added {
            return Err(ScriptFault::BadLine(place + 1));
        }
    }
    Ok(steps)
}

/// Splits a text into its lines.
pub(crate) fn lines_of(alloc: Global, text: &[u8]) -> Result<Vec<&[u8]>, NoMem>
    ensures { IfOk result (λ lines. map (λ line. line.now) lines.items ≡ lines_in text.now) }
{
    text.split(|byte| *byte == b'\n').collect(alloc)
}

/// Adds what a line gives to the given commands, and returns true. Returns false if the line may
/// not stand after them.
fn add_line(alloc: Global, names: &Names, steps: &mut Vec<Step>, line: &[u8]) -> Result<bool, NoMem>
    ensures { IfOk result (λ added. MatchBool added
        (AddsLine names.now line.now (map command_of steps.old.items)
        (map command_of steps.new.items))
        (CannotAdd names.now line.now (map command_of steps.old.items))) }
{
    match read_line(alloc, line)? {
        SessionLine::Nothing => Ok(true),
        SessionLine::Command(command) => {
            steps.push(command.into_step(alloc))?;
            Ok(true)
        }
        SessionLine::Wrong => match event_of(alloc, names, line)? {
            Some(event) => add_event(steps, event),
            None => Ok(false),
        },
        _ => Ok(false),
    }
}

/// Parses the event of a line that is no session line.
pub(crate) fn event_of(alloc: Global, names: &Names, line: &[u8]) -> Result<Option<Event>, NoMem>
    ensures { IfOk result (λ event. IsItemSaying names.now line.now SaysWrong (event_item event)) }
{
    let words = words_of(alloc, line)?;
    match texts_of(alloc, &words)? {
        Some(texts) => Ok(event_in(names, &texts)),
        None => Ok(None),
    }
}

/// Gives an event to the last command, and returns true. Returns false if there is none that takes
/// events.
fn add_event(steps: &mut Vec<Step>, event: Event) -> Result<bool, NoMem>
    ensures { IfOk result (λ added. MatchBool added
        (with_event (map command_of steps.old.items) event ≡ Some (map command_of steps.new.items))
        (with_event (map command_of steps.old.items) event ≡ None)) }
{
    let Some(last) = steps.pop() else {
        return Ok(false);
    };
    match taking(last, event)? {
        Some(step) => {
            steps.push(step)?;
            Ok(true)
        }
        None => Ok(false),
    }
}

/// Returns a command with one more event, or `None` if it takes no events.
fn taking(step: Step, event: Event) -> Result<Option<Step>, NoMem>
    ensures { IfOk result (λ more. option_map command_of more ≡ taking (command_of step) event) }
{
    match step {
        Step::Change(request, mut events) => {
            events.push(event)?;
            Ok(Some(Step::Change(request, events)))
        }
        Step::Undo(limit, mut events) => {
            events.push(event)?;
            Ok(Some(Step::Undo(limit, events)))
        }
        Step::Redo(limit, mut events) => {
            events.push(event)?;
            Ok(Some(Step::Redo(limit, events)))
        }
        Step::Add(..) | Step::Delete(..) => Ok(None),
    }
}
