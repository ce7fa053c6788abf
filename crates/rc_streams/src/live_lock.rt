//! The lock of the file in which a session is kept, so that one program at a time continues the
//! session. The lock is on a file beside that file, which is created if it is missing, and stays.
//! Only its owner may open it. It names the program that locked it last.

use crate::beside_file::{Access, RIGHTS, check_folder, open_own, refused, stands_at};
use crate::messages::{MESSAGE, Messages};
use crate::process_start::{is_running, own_start};
use crate::replaced_file::{beside, check_plain, folder_of, place};
use crate::stop_file::is_signal_waiting;
use log::info;
use std::fs::{self, File, Permissions, TryLockError};
use std::io::{self, ErrorKind, Write};
use std::os::unix::fs::{FileExt, PermissionsExt};
use std::path::PathBuf;
use std::time::Duration;
use std::{process, thread};
use thiserror::Error;

/// The ending that follows the path of a session's file in the path of its lock.
const ENDING: &str = ".lock";

/// How long a program that waits for a lock pauses before it tries again, in milliseconds.
const PAUSE: u64 = 10;

/// The number of pauses after which it reports what it waits for.
const ROUNDS_BEFORE_WORD: u64 = 100;

/// How often the file of a lock may be replaced by another while it is taken.
const MOST_FILES: u32 = 100;

/// How often a program that looks for the owner of a lock pauses until the owner has signed it.
const ROUNDS_BEFORE_OWNER: u64 = 100;

/// The text after the name of a program that serves the lines of an input.
const LINES: &str = " lines";

/// How often programs that only look may delay one that takes a lock, and how long it waits for
/// each, in milliseconds.
const MOST_LOOKS: u32 = 1_000;

const LOOK: u64 = 1;

/// Why a lock was not taken.
#[derive(Debug, Drop, Error)]
pub enum LockFault {
    /// Another program has it, of this process id where the file holds one.
    #[error("another program has the lock")]
    Busy(Option<u32>),
    #[error(transparent)]
    Failed(#[from] io::Error),
}

/// The name of a program that has a lock.
#[derive(Clone, Copy, PartialEq, Eq, Debug)]
pub struct Owner {
    pub id: u32,
    /// When it was started, in ticks since the system was; 0 where that can't be seen.
    pub started: u64,
    /// Whether it serves the lines of an input.
    pub is_of_lines: bool,
}

impl Owner {
    /// Returns the name of this program.
    pub(crate) fn own(rt: &HostRuntime, is_of_lines: bool) -> Owner {
        Owner {
            id: process::id(rt.process()),
            started: own_start(rt).unwrap_or(0),
            is_of_lines,
        }
    }

    /// Returns true if the program still runs.
    fn is_alive(&self, rt: &HostRuntime) -> bool {
        is_running(rt, rt.alloc(), u64::from(self.id), self.started)
    }
}

/// A lock, held until it is dropped, or the program ends, in whatever way. Programs that it starts
/// do not have it.
#[derive(Drop)]
pub struct LiveLock {
    file: File,
}

impl LiveLock {
    /// Takes the lock of the session in the file at `path` for this program alone. `is_of_lines`
    /// says whether this program serves the lines of an input. Returns none if a device or a
    /// directory stands there, in which no session is kept.
    pub fn take(
        rt: &HostRuntime,
        path: &str,
        waits: bool,
        is_of_lines: bool,
    ) -> Result<Option<LiveLock>, LockFault> {
        if !keeps_session(rt, path)? {
            return Ok(None);
        }
        let place = place(rt, path)?;
        let taken = take_at(rt, &place, path, waits, is_of_lines);
        drop(place);
        match taken {
            Ok(lock) => Ok(Some(lock)),
            Err(fault) => Err(fault),
        }
    }
}

/// Takes the lock of the session at a place. Fails if others may create files in its directory.
fn take_at(
    rt: &HostRuntime,
    place: &PathBuf,
    path: &str,
    waits: bool,
    is_of_lines: bool,
) -> Result<LiveLock, LockFault> {
    check_folder(rt, folder_of(place))?;
    let beside = beside(rt, place, ENDING)?;
    let taken = take_file(rt, beside.as_str(), path, waits, is_of_lines);
    drop(beside);
    taken
}

/// Takes the lock on the file at `beside`. If another file has replaced it meanwhile, for example
/// because a cleaner of the directory removed it, locks that one. Fails if that happens again and
/// again.
fn take_file(
    rt: &HostRuntime,
    beside: &str,
    path: &str,
    waits: bool,
    is_of_lines: bool,
) -> Result<LiveLock, LockFault> {
    for _ in 0..MOST_FILES {
        let file = open_lock(rt, beside)?;
        let locked = if waits {
            wait_for(rt, &file, path)
        } else {
            lock(rt, &file)
        };
        if let Err(fault) = locked {
            drop(file);
            return Err(fault);
        }
        if stands_at(rt, beside, &file) {
            sign(&file, Owner::own(rt, is_of_lines));
            return Ok(LiveLock { file });
        }
        drop(file);
    }
    Err(LockFault::Failed(refused("is replaced by another again and again")))
}

/// Returns true if a program continues the session of a file. If none does, shares the lock for a
/// moment. A program that takes the lock waits for that.
pub fn is_held(rt: &HostRuntime, path: &str) -> io::Result<bool> {
    let place = place(rt, path)?;
    let beside = beside(rt, &place, ENDING);
    drop(place);
    let beside = beside?;
    let held = look_at(rt, beside.as_str());
    drop(beside);
    Ok(held?.is_held)
}

/// Returns the program that continues the session of a file, or none if no program does. Waits for
/// one that has the lock and has not signed it yet. If the program that signed last cannot be seen,
/// for example because it is in another container, returns that one.
pub(crate) fn owner_at(rt: &HostRuntime, path: &str) -> io::Result<Option<Owner>> {
    let place = place(rt, path)?;
    let beside = beside(rt, &place, ENDING);
    drop(place);
    let beside = beside?;
    let owner = owner_in(rt, beside.as_str());
    drop(beside);
    owner
}

/// Returns the program that has the lock at the path of a lock, or none if no program has it. Fails
/// if that program does not sign the lock in time.
fn owner_in(rt: &HostRuntime, beside: &str) -> io::Result<Option<Owner>> {
    let mut signed = None;
    for _ in 0..ROUNDS_BEFORE_OWNER {
        let found = look_at(rt, beside)?;
        if !found.is_held {
            return Ok(None);
        }
        signed = found.owner;
        if let Some(owner) = found.owner {
            if owner.is_alive(rt) {
                return Ok(Some(owner));
            }
        }
        thread::sleep(rt, Duration::from_millis(PAUSE));
    }
    match signed {
        Some(owner) => Ok(Some(owner)),
        None => Err(refused("is held by a program that has not signed its lock")),
    }
}

/// What is seen of a lock: whether a program has it, and which one signed it last.
#[derive(Clone, Copy)]
struct Look {
    is_held: bool,
    owner: Option<Owner>,
}

/// Looks at the file of a lock. A missing file is not locked.
fn look_at(rt: &HostRuntime, path: &str) -> io::Result<Look> {
    check_plain(rt, path)?;
    let file = match File::open(rt, path) {
        Ok(file) => file,
        Err(error) if error.kind() == ErrorKind::NotFound => {
            return Ok(Look {
                is_held: false,
                owner: None,
            });
        }
        Err(error) => return Err(error),
    };
    let shared = is_shared(&file);
    let owner = owner_of(&file);
    drop(file);
    match shared {
        Ok(shared) => Ok(Look {
            is_held: !shared,
            owner,
        }),
        Err(error) => Err(error),
    }
}

/// Locks a file, or fails with `Busy` if another program has the lock. Programs that only look
/// share the lock for a moment, and do not count: a lock that one program has alone cannot be
/// shared.
fn lock(rt: &HostRuntime, file: &File) -> Result<(), LockFault> {
    for _ in 0..MOST_LOOKS {
        match file.try_lock() {
            Ok(()) => return Ok(()),
            Err(TryLockError::Error(error)) => return Err(LockFault::Failed(error)),
            Err(TryLockError::WouldBlock) => {}
        }
        if !is_shared(file)? {
            break;
        }
        thread::sleep(rt, Duration::from_millis(LOOK));
    }
    Err(LockFault::Busy(id_of(owner_of(file))))
}

/// Returns true if the lock of a file can be shared, so that no program has it alone.
fn is_shared(file: &File) -> io::Result<bool> {
    match file.try_lock_shared() {
        Ok(()) => {
            file.unlock()?;
            Ok(true)
        }
        Err(TryLockError::WouldBlock) => Ok(false),
        Err(TryLockError::Error(error)) => Err(error),
    }
}

/// Writes the name of this program into the file of a lock that it has. If that fails, no owner is
/// known, but the lock still holds.
fn sign(file: &File, owner: Owner) {
    let (id, started) = (owner.id, owner.started);
    let behind = if owner.is_of_lines { LINES } else { "" };
    if file.set_len(0).is_err() {
        return;
    }
    let mut out = file;
    let _ = write!(out, "{id} {started}{behind}\n");
}

/// Reads the program that the file of a lock names, if the file holds the whole name.
fn owner_of(file: &File) -> Option<Owner> {
    let mut buffer = [0; 64];
    let count = file.read_at(&mut buffer, 0).ok()?;
    owner_named(str::from_utf8(&buffer[..count.min(64)]).ok()?)
}

/// Returns the process id of an owner.
fn id_of(owner: Option<Owner>) -> Option<u32> {
    Some(owner?.id)
}

/// Parses the name of a program.
fn owner_named(text: &str) -> Option<Owner> {
    let line = text.strip_suffix('\n')?;
    let name = line.strip_suffix(LINES).unwrap_or(line);
    let (id, started) = name.split_once(' ')?;
    Some(Owner {
        id: id.parse().ok()?,
        started: started.parse().ok()?,
        is_of_lines: line.len() > name.len(),
    })
}

/// Waits until a file can be locked, or fails with `Busy` once a signal that calls this program off
/// is pending. Reports after a second what it waits for.
fn wait_for(rt: &HostRuntime, file: &File, path: &str) -> Result<(), LockFault> {
    for round in 0..u64::MAX {
        match lock(rt, file) {
            Err(LockFault::Busy(_)) if !is_signal_waiting(rt) => {}
            locked => return locked,
        }
        if round == ROUNDS_BEFORE_WORD {
            info!(Messages(rt); target: MESSAGE, "waits for the command that has {path}");
        }
        thread::sleep(rt, Duration::from_millis(PAUSE));
    }
    Err(LockFault::Busy(None))
}

/// Returns true if a session can be kept in a file: a plain file stands there, or none. Fails if
/// the path is empty.
fn keeps_session(rt: &HostRuntime, path: &str) -> io::Result<bool> {
    if path.is_empty() {
        return Err(io::Error::from(ErrorKind::NotFound));
    }
    match fs::metadata(rt, path) {
        Ok(found) => Ok(found.is_file()),
        Err(error) if error.kind() == ErrorKind::NotFound => Ok(true),
        Err(error) => Err(error),
    }
}

/// Opens the file that is locked, and creates it if it is missing. Only its owner may open it:
/// anyone else who could would be able to hold up every command.
fn open_lock(rt: &HostRuntime, path: &str) -> io::Result<File> {
    let file = open_own(rt, path, Access::Append)?;
    let _ = file.set_permissions(Permissions::from_mode(RIGHTS));
    Ok(file)
}
