//! The file of the failures of a session: `FILE.failed` beside `FILE`. The program that has the
//! lock of `FILE` replaces it whole.

use crate::beside_file::{path_beside, read_beside};
use crate::replaced_file::{clear, put_at};
use std::fs::{self, Permissions};
use std::io;
use std::path::PathBuf;

/// The ending that follows the path of a session's file in the path of its failures.
const ENDING: &str = ".failed";

/// Returns true if something stands where the failures of a session are remembered.
pub fn is_there(rt: &HostRuntime, path: &str) -> bool {
    let Ok(beside) = path_beside(rt, path, ENDING) else {
        return false;
    };
    let is_there = fs::symlink_metadata(rt, beside.as_str()).is_ok();
    drop(beside);
    is_there
}

/// Reads the failures of a session. Returns no bytes if there is no such file. Fails unless that is
/// a plain file with no other name, of a user whose files are read there.
pub fn read(rt: &HostRuntime, path: &str) -> io::Result<Vec<u8>> {
    match read_beside(rt, path, ENDING)? {
        Some(bytes) => Ok(bytes),
        None => Ok(Vec::new(rt.alloc())),
    }
}

/// Replaces the failures of a session. Removes the file if there is nothing to say. The file gets
/// the permissions of the session's file, so that the same users may read it.
pub fn replace(rt: &HostRuntime, path: &str, text: &[u8]) -> io::Result<()> {
    let beside = path_beside(rt, path, ENDING)?;
    let replaced = if text.is_empty() {
        clear(rt, beside.as_str())
    } else {
        put(rt, beside.as_str(), rights_of(rt, path), text)
    };
    drop(beside);
    replaced
}

/// Replaces the file at a path with a text, or creates it.
fn put(rt: &HostRuntime, path: &str, rights: Option<Permissions>, text: &[u8]) -> io::Result<()> {
    let place = PathBuf::from_str(rt.alloc(), path)?;
    let put = put_at(rt, &place, rights, text);
    drop(place);
    put
}

/// Returns the permissions of the file at a path, and none if it is missing.
fn rights_of(rt: &HostRuntime, path: &str) -> Option<Permissions> {
    match fs::metadata(rt, path) {
        Ok(found) => Some(found.permissions()),
        Err(_) => None,
    }
}
