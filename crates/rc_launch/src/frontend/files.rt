//! The file of `-b`, read whole.
use rc_streams::whole_file;
use std::io;

/// Reads the file of `-b`, if one is named.
pub fn base_at(rt: &HostRuntime, file: Option<&str>) -> io::Result<Option<Vec<u8>>> {
    match file {
        Some(path) => Ok(Some(whole_file::read(rt, path)?)),
        None => Ok(None),
    }
}
