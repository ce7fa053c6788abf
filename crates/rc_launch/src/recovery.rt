//! Enters what a command that was cut short has moved.
ghost use Rattle.std.specs.Prelude.{◌≡◌, IfOk};
ghost use Rattle.rc_launch.specs.Beside.{IsEnteredFirst, IsLogOf, IsLookedAt, IsSeen};
ghost use Rattle.rc_launch.specs.Recovered.{ComesBy, ComesFor, IsCut, IsRecovered, files_read};
ghost use Rattle.rc_launch.specs.Held.{IsUnwritten, files_held};

use crate::asking::ask_first;
use crate::fault::OpenFault;
use crate::fronts::is_of;
use crate::held_files::HeldFiles;
use crate::loading::Loaded;
use crate::opened::{Note, SeenLog};
use crate::recovered::{Came, Recovery};
use crate::recovering::{Unrecovered, recover_by};
use crate::texts::{LiveText, LogText, ReadFiles};
use rc_args::SessionCommand;
use rc_cli::remember;
use rc_recovery::TwoFiles;
use rc_streams::{live_lock, run_file, stop_file};
use std::io::ErrorKind;

/// Returns the note on what stands beside the file of a session that is not locked: the run log for
/// `status`, and for other commands whether one is under way or was cut short.
pub(crate) fn look<'a>(
    rt: &'a HostRuntime,
    live: Option<&'a str>,
    command: &SessionCommand<'_>,
) -> Result<Note<'a>, OpenFault<'a>>
    ensures { IfOk result (IsLookedAt command.now live.entry) }
{
    let Some(path) = live else {
        return Ok(Note::Nothing);
    };
    match command {
        SessionCommand::Status(_) => seen(rt, path),
        _ => Ok(cut_note(rt, path)),
    }
}

// Reads the run log of a session for `status`. A command that begins or ends meanwhile is not cut
// short.
fn seen<'a>(rt: &'a HostRuntime, path: &'a str) -> Result<Note<'a>, OpenFault<'a>>
    ensures { IfOk result (IsLogOf path.entry) }
{
    let was_free = match is_free(rt, path) {
        Ok(free) => free,
        Err(fault) => return Err(fault),
    };
    let log = match LogText::read(rt, path) {
        Ok(log) => log,
        Err(fault) => return Err(fault),
    };
    match is_free(rt, path) {
        Ok(free) => {
            let is_cut = was_free && free;
            Ok(Note::Logged(SeenLog { log, is_cut }))
        }
        Err(fault) => {
            drop(log);
            Err(fault)
        }
    }
}

// Returns true if no program has the lock of a session. If that can't be asked, one may have it.
fn is_free<'a>(rt: &HostRuntime, path: &str) -> Result<bool, OpenFault<'a>> {
    match live_lock::is_held(rt, path) {
        Ok(held) => Ok(!held),
        Err(error) if error.kind() == ErrorKind::OutOfMemory => Err(OpenFault::Memory),
        Err(_) => Ok(false),
    }
}

/// Enters what a command that was cut short has moved. The file of the session is locked.
pub(crate) fn recover_first<'a>(
    rt: &'a HostRuntime,
    live: Option<&'a str>,
    loaded: &Loaded<'_>,
) -> Result<Note<'a>, OpenFault<'a>>
    ensures { IfOk result (IsEnteredFirst loaded.now live.entry) }
{
    let Some(path) = live else {
        return Ok(Note::Nothing);
    };
    match recover(rt, path, loaded) {
        Ok(recovery) => Ok(Note::Locked(recovery)),
        Err(fault) => Err(fault),
    }
}

// Reads the run log of a session, and enters what it leaves, after the controller was asked about
// what is under way in it. Also gives back the room that is reserved in the log, and removes what
// calls off other commands.
fn recover<'a>(
    rt: &'a HostRuntime,
    path: &'a str,
    loaded: &Loaded<'_>,
) -> Result<Recovery<'a>, OpenFault<'a>>
    ensures { IfOk result (IsRecovered loaded.now path.entry) }
{
    let _ = run_file::give_room(rt, path);
    let log = match LogText::read(rt, path) {
        Ok(log) => log,
        Err(fault) => return Err(fault),
    };
    let _ = stop_file::clear_others(rt, path, loaded.is_of_lines());
    if log.bytes().is_empty() {
        return Ok(Recovery::Bare(log));
    }
    let read = match ReadFiles::read(rt, log) {
        Ok(read) => read,
        Err(fault) => return Err(fault),
    };
    match ask_first(rt, loaded, read) {
        Ok(read) => recover_read(rt, loaded, read),
        Err(fault) => Err(fault),
    }
}

// Enters what the log leaves, once both files were read. A log that leaves nothing is removed, so
// that it never fits a later text.
fn recover_read<'a>(
    rt: &'a HostRuntime,
    loaded: &Loaded<'_>,
    read: ReadFiles<'a>,
) -> Result<Recovery<'a>, OpenFault<'a>>
    ensures { IfOk result (IsRecovered loaded.now read.entry.logged.path) }
{
    let Ok(mut held) = HeldFiles::new(rt, &read) else {
        drop(read);
        return Err(OpenFault::Memory);
    };
    if read.is_cut() {
        return recover_cut(rt, loaded, read, held);
    }
    match held.empty_log() {
        Ok(()) => Ok(Recovery::Made(read, held, Came::Stale)),
        Err(_) => Err(log_fault(read, held)),
    }
}

// Enters what the log of a command that was cut short leaves, and first its ends into the failures
// of the session.
fn recover_cut<'a>(
    rt: &HostRuntime,
    loaded: &Loaded<'_>,
    read: ReadFiles<'a>,
    mut held: HeldFiles<'a>,
) -> Result<Recovery<'a>, OpenFault<'a>>
    requires cut { IsCut read }
    requires held { files_held held ≡ files_read read }
    requires unwritten { IsUnwritten held }
    ensures { IfOk result (IsRecovered loaded.now read.entry.logged.path) }
{
    remember(rt, read.path(), read.log());
    match recovered(rt, loaded, &mut held) {
        Ok(came) => Ok(Recovery::Made(read, held, came)),
        Err(fault) => Err(unrecovered(read, held, fault)),
    }
}

// Recovers the files by the database of the session. The fault is `None` if there is no database.
fn recovered(
    rt: &HostRuntime,
    loaded: &Loaded<'_>,
    held: &mut HeldFiles<'_>,
) -> Result<Came, Option<Unrecovered>>
    requires { IsUnwritten held.old }
    ensures { IfOk result (ComesFor loaded.now (files_held held.old) (files_held held.new)) }
{
    let Some(base) = &loaded.base else {
        return Err(None);
    };
    match recovered_by(rt, base.bytes(), held) {
        Ok(came) => Ok(came),
        Err(fault) => Err(Some(fault)),
    }
}

// Recovers the files by the text of a database.
fn recovered_by(
    rt: &HostRuntime,
    base: &[u8],
    held: &mut HeldFiles<'_>,
) -> Result<Came, Unrecovered>
    requires { IsUnwritten held.old }
    ensures came { IfOk result (ComesBy base.now (files_held held.old) (files_held held.new)) }
{
    match recover_by(rt.alloc(), base, held) {
        Ok(Some(report)) => Ok(Came::Entered(report)),
        Ok(None) => Ok(Came::Nothing),
        Err(Unrecovered::Database) => Ok(Came::NoDatabase),
        Err(fault) => Err(fault),
    }
}

// Returns the fault for a log that is not entered.
fn unrecovered<'a>(
    read: ReadFiles<'a>,
    held: HeldFiles<'a>,
    fault: Option<Unrecovered>,
) -> OpenFault<'a> {
    let path = read.path();
    let error = held.into_error();
    drop(read);
    match (fault, error) {
        (None, _) => OpenFault::NoBase(path),
        (Some(Unrecovered::Log), _) => OpenFault::OtherBase(path),
        (Some(Unrecovered::Io), Some(error)) => OpenFault::File(path, error),
        _ => OpenFault::Memory,
    }
}

// Returns the fault for a log that is not removed.
fn log_fault<'a>(read: ReadFiles<'a>, held: HeldFiles<'a>) -> OpenFault<'a> {
    let path = read.path();
    drop(read);
    match held.into_error() {
        Some(error) => OpenFault::Log(path, error),
        None => OpenFault::Memory,
    }
}

// Returns the note on what stands beside the file of a session, for a command that only shows it.
fn cut_note<'a>(rt: &HostRuntime, path: &str) -> Note<'a>
    ensures { IsSeen result }
{
    let Ok(log) = LogText::read(rt, path) else {
        return Note::Nothing;
    };
    let Ok(live) = LiveText::read(rt, Some(path)) else {
        drop(log);
        return Note::Nothing;
    };
    let is_cut = match live.bytes() {
        Some(text) => is_of(text, log.bytes()),
        None => false,
    };
    drop((live, log));
    if !is_cut {
        return Note::Nothing;
    }
    match live_lock::is_held(rt, path) {
        Ok(true) => Note::UnderWay,
        Ok(false) => Note::Cut,
        Err(_) => Note::Nothing,
    }
}
