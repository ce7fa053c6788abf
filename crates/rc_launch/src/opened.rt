//! A command whose files are opened.
ghost use Rattle.std.specs.Prelude.{◌≡◌, option_map};
ghost use Rattle.rc_launch.specs.Loading.{session_in};

use crate::borders::{goes_back_inside, goes_on_behind};
use crate::loading::Loaded;
use crate::recovered::Recovery;
use crate::runs::Runs;
use crate::texts::{FileText, LiveText, LogText};
use rc_args::{Once, SessionCommand, SessionRequest};
use rc_script::SessionLine;
use rc_session::Command;
use std::alloc::Global;

/// What was found beside the file of a session.
#[derive(Drop)]
pub enum Note<'a> {
    /// Nothing.
    Nothing,
    /// A command is under way.
    UnderWay,
    /// A command was cut short. What it has moved is not entered yet.
    Cut,
    /// The run log, which was read before the file. If a command ends in between, the file has a
    /// new text that the log does not fit.
    Logged(SeenLog<'a>),
    /// The file is locked, and this came of its run log.
    Locked(Recovery<'a>),
}

/// A run log that was read without its lock.
#[derive(Drop)]
pub struct SeenLog<'a> {
    pub log: LogText<'a>,
    /// Whether no command had the lock then. One that has left transitions under way in the log was
    /// cut short.
    pub is_cut: bool,
}

/// A command whose files are opened. Only opening them makes one, so the request, the databases and
/// what stood in the file of the session belong together.
#[derive(Drop)]
pub struct Opened<'a> {
    pub(crate) loaded: Loaded<'a>,
    pub(crate) live: LiveText<'a>,
    pub(crate) note: Note<'a>,
    pub(crate) runs: Option<Runs<'a>>,
    pub(crate) moves: bool,
}

impl<'a> Opened<'a> {
    /// Returns the session request of the command.
    pub fn session(&self) -> &SessionRequest<'a>
        ensures { result.now ≡ session_in self.now.loaded }
    {
        self.loaded.session()
    }

    /// Returns true if the command does something, and not only shows it.
    pub fn moves(&self) -> bool
        ensures { result ≡ self.now.moves }
    {
        self.moves
    }

    /// Returns the command.
    pub fn command(&self) -> &SessionCommand<'a>
        ensures { result.now ≡ self.now.loaded.command }
    {
        &self.loaded.command
    }

    /// Returns the database of the session, or else the file of `-b`, if one is named.
    pub fn base(&self) -> Option<&FileText<'a>>
        ensures { option_map (λ text. text.now) result ≡ self.now.loaded.base }
    {
        self.loaded.base.as_ref()
    }

    /// Returns the file of `-b`, if the session has another database.
    pub fn unused_base(&self) -> Option<&'a str>
        ensures { result ≡ self.now.loaded.other }
    {
        self.loaded.other
    }

    /// Returns true if the session stands on a state that was only passed, and the command goes on
    /// from there: it neither takes back what was cut short nor is an undo or a redo.
    pub fn goes_on_from_passed(&self, alloc: Global) -> bool {
        let Some(history) = self.live.history() else {
            return false;
        };
        let passed = goes_on_behind(alloc, history, false).unwrap_or(false);
        match &self.loaded.command {
            SessionCommand::Update(_) | SessionCommand::Status(_) => false,
            SessionCommand::Check(request) if !request.repairs => false,
            SessionCommand::Restart(_) | SessionCommand::Check(_) => {
                passed && !goes_back_inside(alloc, history).unwrap_or(true)
            }
            SessionCommand::Line(request) => passed && is_new_state(&request.once),
            SessionCommand::Lines(_) | SessionCommand::Seal(_) => passed,
        }
    }

    /// Returns the file of the new database of an update.
    pub fn new_base(&self) -> Option<&FileText<'a>>
        ensures { option_map (λ text. text.now) result ≡ self.now.loaded.new }
    {
        self.loaded.new.as_ref()
    }

    /// Returns the text that stood in the file of the session.
    pub fn live(&self) -> &LiveText<'a>
        ensures { result.now ≡ self.now.live }
    {
        &self.live
    }

    /// Returns the files of the runs of the command, if it has any.
    pub fn runs(&self) -> Option<&Runs<'a>>
        ensures { option_map (λ runs. runs.now) result ≡ self.now.runs }
    {
        self.runs.as_ref()
    }

    /// Returns the note on what was found beside the file of the session.
    pub fn note(&self) -> &Note<'a>
        ensures { result.now ≡ self.now.note }
    {
        &self.note
    }
}

// Returns true if a line leads on to a new state.
fn is_new_state(once: &Once) -> bool {
    match once {
        Once::Line(SessionLine::Command(command)) => {
            matches!(
                command,
                Command::Change(_) | Command::Add(..) | Command::Delete(..)
            )
        }
        _ => false,
    }
}
