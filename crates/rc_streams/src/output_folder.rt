//! A directory of outputs: a file for each service, which holds what its last script wrote.
//!
//! A script writes into the file itself, so no program has to wait at a pipe for what a script
//! leaves behind.

ghost use Rattle.std.specs.Prelude.{◌≡◌};

use crate::beside_file::{Access, check_folder, check_there, open_own, refused};
use crate::replaced_file::{check_plain, folder_of, place};
use crate::tail::last_lines;
use std::fs::{self, File, Metadata};
use std::io::{self, ErrorKind};
use std::os::unix::fs::{FileExt, MetadataExt};

/// How many bytes of a file are looked at for its last lines, from its end.
const MOST: usize = 65_536;

/// A directory that holds what the last script of each service wrote, in a file of its name.
#[derive(Clone, Copy)]
pub struct OutputFolder<'a> {
    rt: &'a HostRuntime,
    path: &'a str,
}

/// Fails unless outputs can be kept in the directory at a path: it belongs to the user who runs the
/// program, no other user may create files there, and the file of the session, if there is one, is
/// in another directory. A service may have the name of that file.
pub fn check(rt: &HostRuntime, path: &str, live: Option<&str>) -> io::Result<()> {
    let found = fs::metadata(rt, path)?;
    check_own_folder(rt, path, &found)?;
    match live {
        Some(live) => check_apart(rt, live, &found),
        None => Ok(()),
    }
}

impl<'a> OutputFolder<'a> {
    /// Creates the directory of outputs at a path, which `check` has found fit.
    pub fn at(rt: &'a HostRuntime, path: &'a str) -> OutputFolder<'a>
        ensures { result.path ≡ path.entry }
    {
        OutputFolder { rt, path }
    }

    /// Opens the file of a service, which is empty then. Creates it if it is missing. Fails for
    /// what is no plain file of this user.
    pub fn begin(&self, name: &str) -> io::Result<File> {
        let path = self.path_of(name)?;
        let opened = open_own(self.rt, path.as_str(), Access::Append);
        drop(path);
        let file = opened?;
        match file.set_len(0) {
            Ok(()) => Ok(file),
            Err(error) => {
                drop(file);
                Err(error)
            }
        }
    }

    /// Reads the last lines of the file of a service, at most so many. A file that is missing has
    /// none. Of a file that is too long, only its end is looked at.
    pub fn last_lines(&self, name: &str, count: usize) -> io::Result<Vec<u8>> {
        let path = self.path_of(name)?;
        let opened = open_to_read(self.rt, path.as_str());
        drop(path);
        match opened {
            Ok(file) => {
                let lines = lines_at_end(self.rt, &file, count);
                drop(file);
                lines
            }
            Err(error) if error.kind() == ErrorKind::NotFound => Ok(Vec::new(self.rt.alloc())),
            Err(error) => Err(error),
        }
    }

    /// Returns the path of the directory.
    pub fn path(&self) -> &'a str
        ensures { result ≡ self.now.path }
    {
        self.path
    }

    /// Returns the path of the file of a service.
    fn path_of(&self, name: &str) -> io::Result<String> {
        let folder = self.path;
        Ok(format!(in self.rt.alloc(); "{folder}/{name}")?)
    }
}

/// Fails unless a directory belongs to the user who runs the program, and no other user may create
/// files there.
fn check_own_folder(rt: &HostRuntime, path: &str, found: &Metadata) -> io::Result<()> {
    if !found.is_dir() {
        return Err(io::Error::from(ErrorKind::NotADirectory));
    }
    if found.uid() != libc::geteuid() {
        return Err(refused("belongs to another user"));
    }
    check_folder(rt, path)
}

/// Fails if the file of a session is in the directory with the given metadata.
fn check_apart(rt: &HostRuntime, live: &str, folder: &Metadata) -> io::Result<()> {
    let place = place(rt, live)?;
    let other = fs::metadata(rt, folder_of(&place));
    drop(place);
    match other {
        Ok(other) if other.dev() == folder.dev() && other.ino() == folder.ino() => {
            Err(refused("the file of the session is in it"))
        }
        _ => Ok(()),
    }
}

/// Opens a file to read it. Fails for what is no plain file, or has another name.
fn open_to_read(rt: &HostRuntime, path: &str) -> io::Result<File> {
    check_plain(rt, path)?;
    let file = File::open(rt, path)?;
    match check_read(rt, path, &file) {
        Ok(()) => Ok(file),
        Err(error) => {
            drop(file);
            Err(error)
        }
    }
}

/// Fails unless an open file is the plain file at a path, with no other name.
fn check_read(rt: &HostRuntime, path: &str, file: &File) -> io::Result<()> {
    let opened = file.metadata()?;
    check_there(rt, path, &opened)
}

/// Reads the last lines of a file, at most so many.
fn lines_at_end(rt: &HostRuntime, file: &File, count: usize) -> io::Result<Vec<u8>> {
    let length = file.metadata()?.len();
    let from = length.saturating_sub(MOST as u64);
    let mut bytes = vec![in rt.alloc(); 0; MOST]?;
    let read = file.read_at(&mut bytes, from);
    let lines = match read {
        Ok(read) => Vec::from_slice(rt.alloc(), last_lines(&bytes[..read.min(MOST)], count)),
        Err(error) => {
            drop(bytes);
            return Err(error);
        }
    };
    drop(bytes);
    Ok(lines?)
}
