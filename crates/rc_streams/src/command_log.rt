//! The log of the commands that altered a session: `FILE.log` beside `FILE`.

use crate::beside_file::{Access, open_own, open_there, path_beside};
use crate::whole_file;
use std::fs::File;
use std::io::{self, ErrorKind};

/// The ending that follows the path of a session's file in the path of its log.
const ENDING: &str = ".log";

/// Opens the log to append to it. If there is no log, creates it if `makes`, and returns none
/// otherwise.
pub fn open(rt: &HostRuntime, path: &str, makes: bool) -> io::Result<Option<File>> {
    let beside = path_beside(rt, path, ENDING)?;
    let opened = if makes {
        open_own(rt, beside.as_str(), Access::Append)
    } else {
        open_there(rt, beside.as_str(), Access::Append)
    };
    drop(beside);
    match opened {
        Ok(file) => Ok(Some(file)),
        Err(error) if error.kind() == ErrorKind::NotFound => Ok(None),
        Err(error) => Err(error),
    }
}

/// Reads the bytes of the log. Returns none if there is no log.
pub fn read(rt: &HostRuntime, path: &str) -> io::Result<Option<Vec<u8>>> {
    let beside = path_beside(rt, path, ENDING)?;
    let read = whole_file::read_optional(rt, Some(beside.as_str()));
    drop(beside);
    read
}
