//! The lines of a run log: a step as a session line, and an event as a line of a script. Each line
//! is read back before it is returned, so it says what it was made of.
ghost use Rattle.std.specs.Prelude.{◌≡◌, ◌++◌, ◌∷◌, [], IfOk, IfSome, IsTrue, Contains};
ghost use Rattle.std.specs.Prelude.{string_bytes};
ghost use Rattle.rc_session.specs.Commands.{plain_of};
ghost use Rattle.rc_script.specs.RunLines.{IsEventLine, IsHead, IsStepLine, least_limited};
ghost use Rattle.rc_script.specs.Says.{Says, SaysStep};
ghost use Rattle.rc_script.specs.Script.{Happens, IsItem};

use crate::line::{SessionLine, read_line};
use crate::script::event_of;
use rc_core::{Event, Outcome};
use rc_names::{Names, NoMem};
use rc_select::Request;
use rc_session::Command;
use std::alloc::Global;

/// The comment line behind the step of a command that keeps its states as steps: both halves of an
/// update, and both steps of a restart.
pub const STEP_MARK: &str = "# step\n";

/// Returns the line of a command in a log, and behind it the mark if the command keeps its states
/// as steps. Returns `None` if the command is an edit, or has a word that no line can have.
pub fn head_line(alloc: Global, command: &Command, is_step: bool) -> Result<Option<String>, NoMem>
    ensures { IfOk result (λ line. IfSome line (λ text.
        IsHead (plain_of command.now) is_step (string_bytes text))) }
{
    let Some(mut head) = step_line(alloc, command)? else {
        return Ok(None);
    };
    if is_step {
        head.push_str(STEP_MARK)?;
    }
    Ok(Some(head))
}

/// Returns a command as a session line, with the least limit that there is and a newline at its
/// end. Returns `None` if the command is an edit, or has a word that no line can have.
pub fn step_line(alloc: Global, command: &Command) -> Result<Option<String>, NoMem>
    ensures { IfOk result (λ line. IfSome line (λ text.
        IsStepLine (plain_of command.now) (string_bytes text))) }
{
    let line = match command {
        Command::Change(request) => change_line(alloc, request)?,
        Command::Undo(_) => String::from_str(alloc, "-t 1 undo")?,
        Command::Redo(_) => String::from_str(alloc, "-t 1 redo")?,
        Command::Add(..) | Command::Delete(..) => return Ok(None),
    };
    if says_step(alloc, line.as_bytes(), command)? {
        ended(line)
    } else {
        Ok(None)
    }
}

/// Returns a change as a session line, without its newline.
fn change_line(alloc: Global, request: &Request) -> Result<String, NoMem> {
    let letters = request.letters(alloc)?;
    let mut line = format!(in alloc; "-t 1 -{letters} change")?;
    for name in &request.names {
        line.push_str(" ")?;
        line.push_str(name.as_str())?;
    }
    Ok(line)
}

/// Returns true if a line has no newline and says the given command under the least limit.
fn says_step(alloc: Global, line: &[u8], command: &Command) -> Result<bool, NoMem>
    ensures { IfOk result (λ says. IsTrue says → (Contains line.now 10 → ⊥)
        × Says line.now (SaysStep (least_limited (plain_of command.now)))) }
{
    if line.contains(&b'\n') {
        return Ok(false);
    }
    match read_line(alloc, line)? {
        SessionLine::Command(read) => Ok(is_least_limited(command, &read)),
        _ => Ok(false),
    }
}

/// Returns true if the second command is the first one under the least limit.
fn is_least_limited(command: &Command, read: &Command) -> bool
    ensures { IsTrue result → plain_of read.now ≡ least_limited (plain_of command.now) }
{
    match (command, read) {
        (Command::Change(asked), Command::Change(read)) => read.is_limited(asked, 1),
        (Command::Undo(_), Command::Undo(limit)) => *limit == 1,
        (Command::Redo(_), Command::Redo(limit)) => *limit == 1,
        _ => false,
    }
}

/// Returns an event, over the services of the given names, as a line of a script with a newline at
/// its end. Returns `None` if no line can state the event because the service has no name.
pub fn event_line(alloc: Global, names: &Names, event: Event) -> Result<Option<String>, NoMem>
    ensures { IfOk result (λ line. IfSome line (λ text.
        IsEventLine names.now event (string_bytes text))) }
{
    let line = plain_line(alloc, names, event)?;
    if tells_event(alloc, names, line.as_bytes(), event)? {
        ended(line)
    } else {
        Ok(None)
    }
}

/// Returns an event as a line of a script, without its newline.
fn plain_line(alloc: Global, names: &Names, event: Event) -> Result<String, NoMem> {
    match event {
        Event::Take(worker, service) => {
            let name = name_of(names, service);
            format!(in alloc; "take {worker} {name}")
        }
        Event::Done(worker, service, outcome) => {
            done_line(alloc, worker, name_of(names, service), outcome)
        }
        Event::Stop(worker, moment) => format!(in alloc; "stop {worker} {moment}"),
    }
}

/// Returns the end of a transition as a line of a script, without its newline.
fn done_line(alloc: Global, worker: u8, name: &str, outcome: Outcome) -> Result<String, NoMem> {
    match outcome {
        Outcome::Ok => format!(in alloc; "done {worker} {name} ok"),
        Outcome::Failed(status) => format!(in alloc; "done {worker} {name} failed {status}"),
        Outcome::TimedOut => format!(in alloc; "done {worker} {name} timeout"),
        Outcome::NotStarted => format!(in alloc; "done {worker} {name} nostart"),
    }
}

/// Returns the name of a service, or an empty text if it has none.
fn name_of(names: &Names, service: u16) -> &str {
    if service < names.len() {
        names.name_of(service).text()
    } else {
        ""
    }
}

/// Returns true if a line has no newline and states the given event.
fn tells_event(alloc: Global, names: &Names, line: &[u8], event: Event) -> Result<bool, NoMem>
    ensures { IfOk result (λ tells. IsTrue tells → (Contains line.now 10 → ⊥)
        × IsItem names.now line.now (Happens event)) }
{
    if line.contains(&b'\n') {
        return Ok(false);
    }
    let SessionLine::Wrong = read_line(alloc, line)? else {
        return Ok(false);
    };
    match event_of(alloc, names, line)? {
        Some(told) => Ok(told == event),
        None => Ok(false),
    }
}

/// Appends a newline to a line.
pub(crate) fn ended(line: String) -> Result<Option<String>, NoMem>
    ensures { IfOk result (λ text. IfSome text (λ text.
        string_bytes text ≡ string_bytes line ++ 10 ∷ [])) }
{
    let mut text = line;
    text.push_str("\n")?;
    Ok(Some(text))
}
