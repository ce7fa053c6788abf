//! The files of `-b` and `-l`, the programs of `-r` and `-c`, and the directory of `-o`, if the
//! arguments name none: the environment's UNDORC_DB, UNDORC_LIVE, UNDORC_RUNNER, UNDORC_CONTROLLER
//! and UNDORC_OUTPUT.
use rc_args::{Defaults, Invocation, Making, Once, SessionCommand, Verbosity};
use rc_script::SessionLine;
use rc_session::Command;
use std::env::{self, VarError};
use std::io::{self, ErrorKind};

/// What was read of these variables.
#[derive(Drop)]
pub struct DefaultTexts {
    base: Result<String, VarError>,
    live: Result<String, VarError>,
    runner: Result<String, VarError>,
    controller: Result<String, VarError>,
    output: Result<String, VarError>,
}

impl DefaultTexts {
    /// Returns the texts that the variables name. For a variable that is no text, its own name
    /// stands behind a NUL, which no argument has. `unread_in` then finds whether an invocation
    /// uses it.
    pub fn texts(&self) -> io::Result<Defaults<'_>> {
        Ok(Defaults {
            base: named(&self.base, "\0UNDORC_DB")?,
            live: named(&self.live, "\0UNDORC_LIVE")?,
            runner: named(&self.runner, "\0UNDORC_RUNNER")?,
            controller: named(&self.controller, "\0UNDORC_CONTROLLER")?,
            output: named(&self.output, "\0UNDORC_OUTPUT")?,
        })
    }
}

/// Reads the variables of the defaults.
pub fn defaults_at(rt: &HostRuntime) -> DefaultTexts {
    DefaultTexts {
        base: env::var(rt, "UNDORC_DB"),
        live: env::var(rt, "UNDORC_LIVE"),
        runner: env::var(rt, "UNDORC_RUNNER"),
        controller: env::var(rt, "UNDORC_CONTROLLER"),
        output: env::var(rt, "UNDORC_OUTPUT"),
    }
}

/// Returns the text that a variable names. An empty variable names nothing.
fn named<'a>(
    read: &'a Result<String, VarError>,
    unread: &'static str,
) -> io::Result<Option<&'a str>> {
    match read {
        Ok(text) if text.is_empty() => Ok(None),
        Ok(text) => Ok(Some(text.as_str())),
        Err(VarError::NotPresent) => Ok(None),
        Err(VarError::NotUnicode) => Ok(Some(unread)),
        Err(VarError::OutOfMemory) => Err(io::Error::from(ErrorKind::OutOfMemory)),
    }
}

/// Returns a variable that an invocation uses and that is no text, if there is one.
pub fn unread_in(invocation: &Invocation<'_>) -> Option<&'static str> {
    match invocation {
        Invocation::Compile(_) | Invocation::Version => None,
        Invocation::Db(request, base) => unread(*base).or(unread(request.live)),
        Invocation::Plan(_, base) | Invocation::Replay(base) => unread(*base),
        Invocation::Session(command, base) => unread_of(command, *base),
        Invocation::Cancel(_, live) => unread(*live),
    }
}

/// Returns a variable that a command on a session uses and that is no text, if there is one.
fn unread_of(command: &SessionCommand<'_>, base: Option<&str>) -> Option<&'static str> {
    let (runner, controller) = programs_of(command);
    unread(base)
        .or(unread(command.session().live))
        .or(unread(runner))
        .or(unread(controller))
        .or(unread(output_of(command)))
}

/// Returns the directory of outputs that a command may use, as its options or the environment name
/// it.
pub fn output_of<'a>(command: &SessionCommand<'a>) -> Option<&'a str> {
    let session = command.session();
    if let Making::Table(_) = &session.making {
        return None;
    }
    match command {
        SessionCommand::Status(_) if session.verbosity == Verbosity::Transitions => session.output,
        _ if runs_scripts(command) => session.output,
        _ => None,
    }
}

/// Returns the runner and the controller that a command may start, as its options or the
/// environment name them.
pub fn programs_of<'a>(command: &SessionCommand<'a>) -> (Option<&'a str>, Option<&'a str>) {
    let Making::Programs(programs) = &command.session().making else {
        return (None, None);
    };
    match command {
        SessionCommand::Check(request) if !request.repairs => (None, programs.controller),
        _ if runs_scripts(command) => (programs.runner, programs.controller),
        _ => (None, None),
    }
}

/// Returns true if a command may run scripts.
fn runs_scripts(command: &SessionCommand<'_>) -> bool {
    match command {
        SessionCommand::Lines(_) | SessionCommand::Restart(_) => true,
        SessionCommand::Line(request) => is_run(&request.once),
        SessionCommand::Update(request) => !request.dry,
        SessionCommand::Check(request) => request.repairs,
        SessionCommand::Seal(_) | SessionCommand::Status(_) => false,
    }
}

/// Returns true if a line may run scripts.
fn is_run(once: &Once) -> bool {
    matches!(
        once,
        Once::Line(SessionLine::Command(Command::Change(_) | Command::Undo(_) | Command::Redo(_)))
    )
}

/// Returns the variable that stands in a place, if it is no text.
fn unread(named: Option<&str>) -> Option<&'static str> {
    match named? {
        "\0UNDORC_DB" => Some("UNDORC_DB"),
        "\0UNDORC_LIVE" => Some("UNDORC_LIVE"),
        "\0UNDORC_RUNNER" => Some("UNDORC_RUNNER"),
        "\0UNDORC_CONTROLLER" => Some("UNDORC_CONTROLLER"),
        "\0UNDORC_OUTPUT" => Some("UNDORC_OUTPUT"),
        _ => None,
    }
}
