//! Files that are read whole.
use std::fs::{self, File};
use std::io::{self, ErrorKind, Read};

/// The most bytes for which room is taken before a byte is read: a size may be wrong.
const MAX_ROOM: u64 = 67_108_864;

/// Reads the bytes of a file into a buffer of its size. Reads what has no size, such as a pipe, in
/// pieces.
pub fn read(rt: &HostRuntime, path: &str) -> io::Result<Vec<u8>> {
    read_all(rt, File::open(rt, path)?)
}

/// Reads the bytes of an open file.
pub(crate) fn read_all(rt: &HostRuntime, file: File) -> io::Result<Vec<u8>> {
    let mut file = file;
    let size = file.metadata()?.len();
    // One byte more, so that the read that finds the end has room.
    let room = size.min(MAX_ROOM) as usize + 1;
    let mut bytes = Vec::with_capacity(rt.alloc(), room)?;
    file.read_to_end(&mut bytes)?;
    Ok(bytes)
}

/// Reads the bytes of a file, if one is named. Returns none if none is named or the file does not
/// exist. Fails for a pipe or a device.
pub fn read_optional(rt: &HostRuntime, file: Option<&str>) -> io::Result<Option<Vec<u8>>> {
    let Some(path) = file else {
        return Ok(None);
    };
    // A pipe would be waited for, and a device may have no end.
    if let Ok(found) = fs::metadata(rt, path) {
        if !found.is_file() && !found.is_dir() {
            return Err(io::Error::from(ErrorKind::InvalidInput));
        }
    }
    match read(rt, path) {
        Ok(bytes) => Ok(Some(bytes)),
        Err(error) => {
            if error.kind() == ErrorKind::NotFound {
                return Ok(None);
            }
            Err(error)
        }
    }
}
