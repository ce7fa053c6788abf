//! Files beside that of a session, whose paths are its path and an ending.
//!
//! They belong to the user who runs the program. What stands there is tested on the open file: a
//! link, or a file of another user, that is put there in between is refused, and nothing of it is
//! written or cut.

use crate::replaced_file::{beside, check_plain, folder_of, place};
use crate::whole_file;
use std::fs::{self, File, Metadata, OpenOptions};
use std::io::{self, ErrorKind};
use std::os::unix::fs::{MetadataExt, OpenOptionsExt};
use std::path::PathBuf;

/// The rights of a file that is made: its owner's alone.
pub(crate) const RIGHTS: u32 = 0o600;

/// How a file is opened: to read and append, or to read and write at any place.
#[derive(Clone, Copy)]
pub(crate) enum Access {
    Append,
    Write,
}

/// How often a file is opened or made while another program makes or removes it.
const MOST_TRIES: u32 = 100;

/// Returns the path of the file beside a session's file that has the given ending.
pub(crate) fn path_beside(rt: &HostRuntime, path: &str, ending: &str) -> io::Result<String> {
    let place = place(rt, path)?;
    let beside = beside(rt, &place, ending);
    drop(place);
    beside
}

/// Opens the file beside a session's file that has the given ending, to read and append. Creates it
/// if it is missing.
pub(crate) fn open_to_append(rt: &HostRuntime, path: &str, ending: &str) -> io::Result<File> {
    open_beside(rt, path, ending, Access::Append)
}

/// Opens the file beside a session's file that has the given ending, to read and write at any
/// place. Creates it if it is missing.
pub(crate) fn open_to_write(rt: &HostRuntime, path: &str, ending: &str) -> io::Result<File> {
    open_beside(rt, path, ending, Access::Write)
}

/// Opens the file beside a session's file that has the given ending, and creates it if it is
/// missing.
fn open_beside(rt: &HostRuntime, path: &str, ending: &str, access: Access) -> io::Result<File> {
    let beside = path_beside(rt, path, ending)?;
    let opened = open_own(rt, beside.as_str(), access);
    drop(beside);
    opened
}

/// Opens a file of this user, and creates it if it is missing. The file is no stream of the
/// program, even if one of those was closed: its number is above theirs.
pub(crate) fn open_own(rt: &HostRuntime, path: &str, access: Access) -> io::Result<File> {
    for _ in 0..MOST_TRIES {
        match open_or_make(rt, path, access) {
            // Another program has made it or removed it in between.
            Err(error) if is_passing(error.kind()) => {}
            opened => return opened,
        }
    }
    open_or_make(rt, path, access)
}

/// Opens a file, or creates it if it is missing.
fn open_or_make(rt: &HostRuntime, path: &str, access: Access) -> io::Result<File> {
    match open_there(rt, path, access) {
        Err(error) if error.kind() == ErrorKind::NotFound => make(rt, path, access),
        opened => opened,
    }
}

/// Returns true if an error comes from what another program does at the same moment.
fn is_passing(kind: ErrorKind) -> bool {
    matches!(kind, ErrorKind::AlreadyExists | ErrorKind::NotFound)
}

/// Opens an existing file of this user. Does not wait for a pipe, since it is opened to read as
/// well.
pub(crate) fn open_there(rt: &HostRuntime, path: &str, access: Access) -> io::Result<File> {
    check_plain(rt, path)?;
    let mut options = options_for(access);
    let opened = options.open(rt, path)?;
    match check_own(rt, path, &opened) {
        Ok(()) => above_streams(opened),
        Err(error) => {
            drop(opened);
            Err(error)
        }
    }
}

/// Creates a file. Fails if something already stands there.
fn make(rt: &HostRuntime, path: &str, access: Access) -> io::Result<File> {
    let mut options = options_for(access);
    options.create_new(true).mode(RIGHTS);
    above_streams(options.open(rt, path)?)
}

/// Returns the options with which a file is opened.
fn options_for(access: Access) -> OpenOptions {
    let mut options = File::options();
    match access {
        Access::Append => options.read(true).append(true),
        Access::Write => options.read(true).write(true),
    };
    options
}

/// Returns the same open file by a number that is none of the program's streams.
pub(crate) fn above_streams(opened: File) -> io::Result<File> {
    let file = opened.try_clone();
    drop(opened);
    file
}

/// Fails unless an open file is the plain file at a path, with no other name, and belongs to the
/// user who runs the program.
fn check_own(rt: &HostRuntime, path: &str, file: &File) -> io::Result<()> {
    let opened = file.metadata()?;
    check_there(rt, path, &opened)?;
    if opened.uid() == libc::geteuid() {
        Ok(())
    } else {
        Err(refused("belongs to another user"))
    }
}

/// Fails unless an open file is the plain file at a path, with no other name.
pub(crate) fn check_there(rt: &HostRuntime, path: &str, opened: &Metadata) -> io::Result<()> {
    let found = fs::symlink_metadata(rt, path)?;
    if !opened.is_file() || !is_same(opened, &found) {
        Err(refused("is no plain file"))
    } else if opened.nlink() > 1 {
        Err(refused("has another name"))
    } else {
        Ok(())
    }
}

/// Returns true if two metadata are of one file.
fn is_same(one: &Metadata, other: &Metadata) -> bool {
    one.dev() == other.dev() && one.ino() == other.ino()
}

/// Returns true if an open file still stands at a path.
pub(crate) fn stands_at(rt: &HostRuntime, path: &str, file: &File) -> bool {
    match (file.metadata(), fs::symlink_metadata(rt, path)) {
        (Ok(opened), Ok(found)) => is_same(&opened, &found),
        _ => false,
    }
}

/// Reads the file beside a session's file that has the given ending. Returns none if there is none.
/// Fails unless it belongs to the user who runs the program, to the owner of the session's file, or
/// to the owner of their directory: those may replace both.
pub(crate) fn read_beside(
    rt: &HostRuntime,
    path: &str,
    ending: &str,
) -> io::Result<Option<Vec<u8>>> {
    let place = place(rt, path)?;
    let bytes = match beside(rt, &place, ending) {
        Ok(beside) => {
            let bytes = read_there(rt, &place, beside.as_str());
            drop(beside);
            bytes
        }
        Err(error) => Err(error),
    };
    drop(place);
    match bytes {
        Ok(bytes) => Ok(Some(bytes)),
        Err(error) if error.kind() == ErrorKind::NotFound => Ok(None),
        Err(error) => Err(error),
    }
}

/// Reads the file at `beside`, which is beside the session's file at `place`. Does not wait for a
/// pipe.
fn read_there(rt: &HostRuntime, place: &PathBuf, beside: &str) -> io::Result<Vec<u8>> {
    check_plain(rt, beside)?;
    let file = File::open(rt, beside)?;
    match check_readable(rt, place, beside, &file) {
        Ok(()) => whole_file::read_all(rt, file),
        Err(error) => {
            drop(file);
            Err(error)
        }
    }
}

/// Fails unless an open file is the plain file at `beside`, with no other name, and belongs to a
/// user who may replace it.
fn check_readable(rt: &HostRuntime, place: &PathBuf, beside: &str, file: &File) -> io::Result<()> {
    let opened = file.metadata()?;
    check_there(rt, beside, &opened)?;
    let owner = opened.uid();
    if owner == libc::geteuid()
        || owns(rt, owner, place.as_str())
        || owns(rt, owner, folder_of(place))
    {
        Ok(())
    } else {
        Err(refused("belongs to another user"))
    }
}

/// Returns true if what a path leads to belongs to a user.
fn owns(rt: &HostRuntime, user: u32, path: &str) -> bool {
    match fs::metadata(rt, path) {
        Ok(found) => found.uid() == user,
        Err(_) => false,
    }
}

/// Fails if others than root and the user who runs the program may create files in a directory:
/// they could put a file there that the program takes for its own.
pub(crate) fn check_folder(rt: &HostRuntime, folder: &str) -> io::Result<()> {
    let found = fs::metadata(rt, folder)?;
    let user = libc::geteuid();
    if found.uid() != user && found.uid() != 0 {
        Err(refused("its directory belongs to another user"))
    } else if found.mode() & 0o002 != 0 {
        Err(refused("everyone may write into its directory"))
    } else if found.mode() & 0o020 != 0 && !is_own_group(found.gid()) {
        Err(refused("its group may write into its directory"))
    } else {
        Ok(())
    }
}

/// Returns true if a group is that of the user who runs the program alone: it has the user's own
/// number.
fn is_own_group(group: u32) -> bool {
    group == libc::getegid() && group == libc::geteuid()
}

/// Creates the error for a file that is refused.
pub(crate) fn refused(why: &str) -> io::Error {
    io::Error::new(ErrorKind::InvalidInput, why)
}
