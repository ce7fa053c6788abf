//! What a gate logs of a run while it is under way, so that a command that is cut short is not
//! forgotten.
ghost use Rattle.std.specs.Prelude.{◌≡◌, ◌++◌, ℕ, List, false, IfOk, IfSome};
ghost use Rattle.rc_session.specs.Commands.{plain_of};
ghost use Rattle.rc_livetext.specs.Spelling.{spelling};
ghost use Rattle.rc_script.specs.RunLines.{IsHead};

use crate::copy::table_of;
use rc_core::Event;
use rc_db::{Db, NoMem};
use rc_livetext::write_live;
use rc_model::Mode;
use rc_names::Names;
use rc_script::{Process, event_line, head_line, process_line};
use rc_session::{Command, Session};
use rc_streams::run_file::{Room, RunFile};
use std::alloc::Global;

/// The log of a run: the text of the session from which it began, its step, a comment that marks it
/// if the command has several steps, a line for each event, and a comment for each program. So it
/// is the text of a session, and a script after it.
#[derive(Drop)]
pub(crate) struct RunLog<'a> {
    alloc: Global,
    file: &'a RunFile,
    names: Names,
    /// Whether the runs are those of a command of several steps.
    is_step: bool,
}

impl<'a> RunLog<'a> {
    /// Creates the log of the runs of a database in a file, and says whether they are those of a
    /// command of several steps.
    pub(crate) fn new(
        alloc: Global,
        file: &'a RunFile,
        db: &Db,
        is_step: bool,
    ) -> Result<RunLog<'a>, NoMem>
        ensures file { IfOk result (λ run_log. run_log.file.now ≡ file.now) }
        ensures names { IfOk result (λ run_log. run_log.names ≡ db.now.names) }
        ensures step { IfOk result (λ run_log. run_log.is_step ≡ is_step) }
    {
        let names = table_of(alloc, db.names())?;
        Ok(RunLog {
            alloc,
            file,
            names,
            is_step,
        })
    }

    /// Begins the log of a command with the text of the session before it, and reserves room for
    /// all of the command's lines. A change that only lowers continues without that room. An edit
    /// has no run, and no log.
    pub(crate) fn begin(&self, session: &Session, command: &Command)
        requires { session.now.begun ≡ false }
    {
        if let Ok(Some(head)) = head_of(self.alloc, session, command, self.is_step) {
            self.file.begin(&head, room_for(command, &self.names));
            drop(head);
        }
    }

    /// Logs an event, and returns whether it was logged.
    pub(crate) fn log(&self, event: Event) -> bool {
        match event_line(self.alloc, &self.names, event) {
            Ok(Some(line)) => {
                let logged = self.file.append(line.as_bytes());
                drop(line);
                logged
            }
            Ok(None) | Err(_) => false,
        }
    }

    /// Notes which program was started for the transition of a service.
    pub(crate) fn note(&self, name: &str, process: Process) {
        if let Ok(Some(line)) = process_line(self.alloc, name, process) {
            self.file.note(line.as_bytes());
            drop(line);
        }
    }

    /// Empties the log of a run that is over.
    pub(crate) fn end(&self) {
        let _ = self.file.clear();
    }
}

/// Returns the room for the run of a command on services with the given names.
fn room_for(command: &Command, names: &Names) -> Room {
    let room = room_of(names);
    if only_lowers(command) {
        room.if_there()
    } else {
        room
    }
}

/// Returns true if a command is a change that brings no service up: a machine must go down on a
/// full disk, too.
fn only_lowers(command: &Command) -> bool {
    match command {
        Command::Change(request) => matches!(request.mode, Mode::Down | Mode::DownAll),
        _ => false,
    }
}

/// Returns the room for the runs of services with the given names.
fn room_of(names: &Names) -> Room {
    let mut length: u64 = 0;
    for service in 0..names.len() {
        length = length.saturating_add(names.name_of(service).text().len() as u64);
    }
    Room::of(names.len() as u64, length)
}

/// Returns the text of a session followed by the line of a command, which is marked if the command
/// is one of several steps. Returns none if the command has no run.
fn head_of(
    alloc: Global,
    session: &Session,
    command: &Command,
    is_step: bool,
) -> Result<Option<Vec<u8>>, NoMem>
    requires { session.now.begun ≡ false }
    ensures { IfOk result (λ made. IfSome made (λ head. (line : List ℕ)
        × IsHead (plain_of command.now) is_step line
        × (head.items ≡ spelling session.now.database session.now.line ++ line))) }
{
    let Some(line) = head_line(alloc, command, is_step)? else {
        return Ok(None);
    };
    match write_live(alloc, session) {
        Ok(text) => {
            let head = joined(text, line.as_bytes());
            drop(line);
            Ok(Some(head?))
        }
        Err(fault) => {
            drop(line);
            Err(fault)
        }
    }
}

/// Appends bytes to a text, and returns it.
fn joined(text: Vec<u8>, bytes: &[u8]) -> Result<Vec<u8>, NoMem>
    ensures { IfOk result (λ joined. joined.items ≡ text.items ++ bytes.now) }
{
    let mut joined = text;
    joined.extend_from_slice(bytes)?;
    Ok(joined)
}
