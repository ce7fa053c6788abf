//! What the program decides of the files of a session, as functions of values.
ghost use Rattle.std.specs.Prelude.{◌≡◌, ◌↔◌, option_map, IsTrue, IfOk, OnErr};
ghost use Rattle.rc_args.specs.OnceAsked.{once_saying_of};
ghost use Rattle.rc_cli.specs.Deciding.{IsFound, Moves, level_by};
ghost use Rattle.rc_cli.specs.Filing.{IsUnread};
ghost use Rattle.log.specs.Handle.{max_level};
ghost use Rattle.rc_args.specs.SessionAsked.{session_ask_of};

use crate::sessions::keeping::LiveFile;
use log::{LevelFilter, Logged};
use rc_args::{Once, SessionRequest, Verbosity};
use rc_script::SessionLine;
use rc_serve::KeepFault;
use rc_streams::messages::Messages;
use std::io::{self, ErrorKind};

/// Returns true if a session is to do something, and not only to show it. A session of many lines
/// may do something. A session of one line does if the line says a command.
pub fn moves(once: Option<&Once>) -> bool
    ensures { IsTrue result ↔ Moves (option_map (λ one. once_saying_of one.now) once.entry) }
{
    match once {
        Some(Once::Line(SessionLine::Command(_))) => true,
        Some(_) => false,
        None => true,
    }
}

/// Returns what stood in the file of `-l`, as it was read.
pub fn live_file(read: &io::Result<Option<Vec<u8>>>) -> LiveFile<'_>
    ensures found { IfOk read.now (λ found.
        IsFound (option_map (λ bytes. bytes.items) found) result) }
    ensures unread { OnErr read.now (IsUnread result) }
{
    match read {
        Ok(Some(bytes)) => LiveFile::Text(bytes),
        Ok(None) => LiveFile::Missing,
        Err(error) => LiveFile::Unread(keep_fault(error)),
    }
}

/// Returns the fault of a file that could not be read or written.
pub fn keep_fault(error: &io::Error) -> KeepFault {
    if error.kind() == ErrorKind::OutOfMemory {
        return KeepFault::Memory;
    }
    KeepFault::Io
}

/// Creates the log of a session, which writes messages about the transitions that it reports to
/// standard error.
pub fn log_for<'h>(
    host: &'h HostRuntime,
    request: &SessionRequest<'_>,
) -> Logged<&'h HostRuntime, Messages<&'h HostRuntime>>
    ensures { max_level result ≡ level_by (session_ask_of request.now).verbosity }
{
    Logged::new(host, level_of(request.verbosity), Messages(host))
}

// Returns the level up to which messages are written.
fn level_of(verbosity: Verbosity) -> LevelFilter
    ensures { result ≡ level_by verbosity }
{
    match verbosity {
        Verbosity::Quiet => LevelFilter::Off,
        Verbosity::Failures => LevelFilter::Warn,
        Verbosity::Transitions => LevelFilter::Info,
    }
}
