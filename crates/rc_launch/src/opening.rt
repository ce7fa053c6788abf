//! Opens the files of a command: locks the file of its session, reads its databases, enters what a
//! command that was cut short has moved, and reads what stands in the file. A command that may run
//! scripts is refused before that if the program can't run them.
ghost use Rattle.std.specs.Prelude.{◌≡◌, IfOk};
ghost use Rattle.rc_args.specs.Making.{making_ask_of};
ghost use Rattle.rc_launch.specs.Beside.{AreRunsOf, IsLocked, IsNoted};
ghost use Rattle.rc_launch.specs.Loading.{IsLoaded, session_in};
ghost use Rattle.rc_launch.specs.Opening.{AreOpened, IsOpenedAs, LocksFor, Replaces};

use crate::fault::OpenFault;
use crate::live_store::LiveStore;
use crate::loading::{Loaded, load, moves_by, runs_scripts};
use crate::opened::{Note, Opened};
use crate::recovered::Recovery;
use crate::recovery::{look, recover_first};
use crate::runs::RunsFault;
use crate::texts::LiveText;
use rc_args::SessionCommand;
use rc_streams::inherited::unfit_for_scripts;
use rc_streams::live_lock::LockFault;
use rc_streams::output_folder;

/// Opens the files of a command. If its session has no database, the database is the given file.
/// The file of the session is locked if the command does something, and not if it only shows that.
pub fn open<'a>(
    rt: &'a HostRuntime,
    command: SessionCommand<'a>,
    file: Option<&'a str>,
) -> Result<(Opened<'a>, LiveStore<'a>), OpenFault<'a>>
    ensures { IfOk result (λ opened. AreOpened command.entry file.entry opened.0 opened.1) }
{
    let moves = moves_by(&command);
    if let Some(fault) = unfit_for(rt, &command, moves) {
        drop(command);
        return Err(fault);
    }
    let (live, waits) = (command.session().live, command.session().waits);
    let is_of_lines = matches!(&command, SessionCommand::Lines(_));
    match LiveStore::open(rt, live, moves, waits, is_of_lines) {
        Ok(store) => match open_on(rt, command, file, &store, moves) {
            Ok(opened) => Ok((opened, store)),
            Err(fault) => {
                drop(store);
                Err(fault)
            }
        },
        Err(fault) => {
            drop(command);
            Err(lock_fault(live.unwrap_or(""), fault))
        }
    }
}

// Returns the reason why the scripts of a command can't be run, if it runs any: what the program
// inherits, or the directory that is to keep what they write.
fn unfit_for<'a>(
    rt: &HostRuntime,
    command: &SessionCommand<'a>,
    moves: bool,
) -> Option<OpenFault<'a>> {
    if !moves || !runs_scripts(command) {
        return None;
    }
    if let Some(unfit) = unfit_for_scripts(rt) {
        return Some(OpenFault::Unfit(unfit));
    }
    let session = command.session();
    let folder = session.output?;
    match output_folder::check(rt, folder, session.live) {
        Ok(()) => None,
        Err(error) => Some(OpenFault::Output(folder, error)),
    }
}

// Opens the other files of a command, whether the file of the session is locked or not.
fn open_on<'a>(
    rt: &'a HostRuntime,
    command: SessionCommand<'a>,
    file: Option<&'a str>,
    store: &LiveStore<'a>,
    moves: bool,
) -> Result<Opened<'a>, OpenFault<'a>>
    ensures { IfOk result (IsOpenedAs command.entry file.entry moves store.now) }
{
    if store.is_locked() {
        open_to_move(rt, command, file, store, moves)
    } else {
        open_to_look(rt, command, file, store, moves)
    }
}

// Opens the other files of a command while the file of its session is locked. Enters first what a
// command that was cut short has moved.
fn open_to_move<'a>(
    rt: &'a HostRuntime,
    command: SessionCommand<'a>,
    file: Option<&'a str>,
    store: &LiveStore<'a>,
    moves: bool,
) -> Result<Opened<'a>, OpenFault<'a>>
    requires locked { IsLocked store.now }
    ensures { IfOk result (IsOpenedAs command.entry file.entry moves store.now) }
{
    let (loaded, seen) = match load_on(rt, command, file) {
        Ok(loaded) => loaded,
        Err(fault) => return Err(fault),
    };
    let note = match recover_first(rt, loaded.session().live, &loaded) {
        Ok(note) => note,
        Err(fault) => {
            drop((loaded, seen));
            return Err(fault);
        }
    };
    match read_behind(rt, seen, &note) {
        Ok(live) => with_runs(store, loaded, live, note, moves),
        Err(fault) => {
            drop((loaded, note));
            Err(fault)
        }
    }
}

// Opens the other files of a command while the file of its session is not locked. What stands
// beside that file is read before it.
fn open_to_look<'a>(
    rt: &'a HostRuntime,
    command: SessionCommand<'a>,
    file: Option<&'a str>,
    store: &LiveStore<'a>,
    moves: bool,
) -> Result<Opened<'a>, OpenFault<'a>>
    requires free { IsLocked store.now → ⊥ }
    ensures { IfOk result (IsOpenedAs command.entry file.entry moves store.now) }
{
    let note = match look(rt, command.session().live, &command) {
        Ok(note) => note,
        Err(fault) => {
            drop(command);
            return Err(fault);
        }
    };
    match load_on(rt, command, file) {
        Ok((loaded, live)) => with_runs(store, loaded, live, note, moves),
        Err(fault) => {
            drop(note);
            Err(fault)
        }
    }
}

// Reads the file of the session of a command, and its databases.
fn load_on<'a>(
    rt: &'a HostRuntime,
    command: SessionCommand<'a>,
    file: Option<&'a str>,
) -> Result<(Loaded<'a>, LiveText<'a>), OpenFault<'a>>
    ensures loaded { IfOk result (λ read.
        IsLoaded command.entry file.entry read.1 read.0) }
    ensures path { IfOk result (λ read. read.1.path ≡ (session_in read.0).live) }
{
    let seen = match LiveText::read(rt, command.session().live) {
        Ok(seen) => seen,
        Err(fault) => {
            drop(command);
            return Err(fault);
        }
    };
    match load(rt, command, file, &seen) {
        Ok(loaded) => Ok((loaded, seen)),
        Err(fault) => {
            drop(seen);
            Err(fault)
        }
    }
}

// Returns the text of the file of a session after a recovery. Reads the file again if the recovery
// may have replaced it.
fn read_behind<'a>(
    rt: &'a HostRuntime,
    seen: LiveText<'a>,
    note: &Note<'_>,
) -> Result<LiveText<'a>, OpenFault<'a>>
    ensures { IfOk result (λ live. live.path ≡ seen.entry.path) }
{
    match note {
        Note::Locked(Recovery::Made(..)) => {
            let path = seen.path();
            drop(seen);
            LiveText::read(rt, path)
        }
        _ => Ok(seen),
    }
}

// Creates an opened command from the files that were read, with the files of its runs.
fn with_runs<'a>(
    store: &LiveStore<'a>,
    loaded: Loaded<'a>,
    live: LiveText<'a>,
    note: Note<'a>,
    moves: bool,
) -> Result<Opened<'a>, OpenFault<'a>>
    ensures loaded { IfOk result (λ opened. opened.loaded ≡ loaded.entry) }
    ensures live { IfOk result (λ opened. opened.live ≡ live.entry) }
    ensures note { IfOk result (λ opened. opened.note ≡ note.entry) }
    ensures moves { IfOk result (λ opened. opened.moves ≡ moves) }
    ensures runs { IfOk result (λ opened. AreRunsOf
        (making_ask_of (session_in loaded.entry).making) store.now opened.runs) }
{
    match store.runs(&loaded) {
        Ok(runs) => Ok(Opened {
            loaded,
            live,
            note,
            runs,
            moves,
        }),
        Err(fault) => {
            let path = live.path().unwrap_or("");
            drop((loaded, live, note));
            Err(runs_fault(path, fault))
        }
    }
}

// Returns the fault for files of the runs of a session that are not opened.
fn runs_fault<'a>(path: &'a str, fault: RunsFault) -> OpenFault<'a> {
    match fault {
        RunsFault::Log(error) => OpenFault::Log(path, error),
        RunsFault::Stop(error) => OpenFault::Stop(path, error),
    }
}

// Returns the fault for the file of a session that is not locked.
fn lock_fault<'a>(path: &'a str, fault: LockFault) -> OpenFault<'a> {
    match fault {
        LockFault::Busy(owner) => OpenFault::Busy(path, owner),
        LockFault::Failed(error) => OpenFault::Lock(path, error),
    }
}
