//! Files that are replaced whole. A reader finds the old bytes or the new ones at any moment, also
//! after the program was killed. Until a new file has its bytes, only its owner may read it.
use crate::beside_file::{RIGHTS, refused};
use crate::umask::new_rights;
use std::fs::{self, File, Metadata, OpenFile, Permissions};
use std::io::{self, ErrorKind, Write};
use std::os::fd::AsRawFd;
use std::os::unix::fs::{FileExt, MetadataExt, OpenOptionsExt};
use std::path::PathBuf;

/// The number of bytes for which a disk must have room before anything is done.
const ROOM: usize = 4096;

/// The mark of a directory in which only the owner of a file may remove it.
const STICKY: u32 = 0o1000;

/// The directory of the system's descriptions of open files, and the text there before the number
/// of a file's mount.
const DESCRIBED: &str = "/proc/self/fdinfo/";

const MOUNT: &[u8] = b"mnt_id:";

/// The most links that are followed from a path to a file.
const MAX_LINKS: usize = 40;

/// Replaces the file at a path with the given bytes, or creates it. Follows links. Writes a device
/// or a pipe as it is.
pub fn replace(rt: &HostRuntime, path: &str, bytes: &[u8]) -> io::Result<()> {
    match fs::metadata(rt, path) {
        Ok(found) => {
            if found.is_file() {
                return put(rt, path, Some(found.permissions()), bytes);
            }
            write_through(rt, path, bytes)
        }
        Err(error) => {
            if error.kind() == ErrorKind::NotFound {
                return put(rt, path, None, bytes);
            }
            Err(error)
        }
    }
}

/// Checks that the file at a path can be replaced: nothing visible forbids it, and a file beside it
/// can be created, filled with some bytes and removed.
pub fn probe(rt: &HostRuntime, path: &str) -> io::Result<()> {
    let place = place(rt, path)?;
    if let Err(error) = check_replaceable(rt, &place) {
        drop(place);
        return Err(error);
    }
    let beside = beside(rt, &place, ".new");
    drop(place);
    let beside = beside?;
    let made = make_anew(rt, beside.as_str());
    let cleared = clear(rt, beside.as_str());
    drop(beside);
    made?;
    cleared
}

/// Fails if no file may be renamed over the one at a place: it is mounted there, or cannot be
/// altered, or belongs to another user in a sticky directory.
fn check_replaceable(rt: &HostRuntime, place: &PathBuf) -> io::Result<()> {
    let found = match fs::symlink_metadata(rt, place) {
        Ok(found) => found,
        Err(error) if error.kind() == ErrorKind::NotFound => return Ok(()),
        Err(error) => return Err(error),
    };
    let folder = fs::metadata(rt, folder_of(place))?;
    if is_sticky_for(&folder, &found) {
        return Err(refused("it belongs to another user, and its directory is sticky"));
    }
    if is_unalterable(rt, place) {
        return Err(refused("it is immutable, or can only be appended to"));
    }
    if is_mounted(rt, place) {
        return Err(refused("it is mounted by itself; mount its directory"));
    }
    Ok(())
}

/// Returns true if a directory is sticky, neither it nor the file in it belongs to the user who
/// runs the program, and that user is not root.
fn is_sticky_for(folder: &Metadata, found: &Metadata) -> bool {
    let user = libc::geteuid();
    folder.mode() & STICKY != 0 && user != 0 && folder.uid() != user && found.uid() != user
}

/// Returns true if an attribute of a file forbids all writes, or all but those at its end. Its
/// permissions do not count, since they do not matter if the file is replaced.
fn is_unalterable(rt: &HostRuntime, place: &PathBuf) -> bool {
    match File::options().write(true).open(rt, place) {
        Ok(file) => {
            drop(file);
            false
        }
        Err(error) => error.raw_os_error() == Some(libc::EPERM),
    }
}

/// Returns true if a file is on another mount than its directory. Returns false if the system does
/// not say so.
fn is_mounted(rt: &HostRuntime, place: &PathBuf) -> bool {
    match (mount_at(rt, place.as_str()), mount_at(rt, folder_of(place))) {
        (Some(file), Some(folder)) => file != folder,
        _ => false,
    }
}

/// Returns the number of the mount that a file or a directory is on.
fn mount_at(rt: &HostRuntime, path: &str) -> Option<u64> {
    let file = File::open(rt, path).ok()?;
    let mount = mount_of(rt, &file);
    drop(file);
    mount
}

/// Returns the number of the mount that an open file is on, by the system's description of that
/// file.
fn mount_of(rt: &HostRuntime, file: &File) -> Option<u64> {
    let number = file.as_raw_fd();
    let path = format!(in rt.alloc(); "{DESCRIBED}{number}").ok()?;
    let opened = File::open(rt, path.as_str());
    drop(path);
    let described = opened.ok()?;
    let mut buffer = [0; 1024];
    let count = described.read_at(&mut buffer, 0);
    drop(described);
    mount_in(&buffer[..count.ok()?.min(1024)])
}

/// Parses the number of a mount from the system's description of an open file.
fn mount_in(text: &[u8]) -> Option<u64> {
    for line in text.split(|byte| *byte == b'\n') {
        if let Some(number) = line.strip_prefix(MOUNT) {
            return str::from_utf8(number).ok()?.trim().parse().ok();
        }
    }
    None
}

/// Creates a file of some bytes in place of what stands there.
fn make_anew(rt: &HostRuntime, path: &str) -> io::Result<()> {
    clear(rt, path)?;
    let file = create(rt, path)?;
    let written = write_room(&file);
    drop(file);
    written
}

/// Creates a file for its owner alone. Fails if something already stands there.
fn create(rt: &HostRuntime, path: &str) -> io::Result<File> {
    let mut options = File::options();
    options.write(true).create_new(true).mode(RIGHTS);
    options.open(rt, path)
}

/// Writes as many bytes as a disk must have room for before anything is done.
fn write_room(file: &File) -> io::Result<()> {
    let mut out = file;
    out.write_all(&[b'\n'; ROOM])
}

/// Writes bytes into what already stands at a path.
fn write_through(rt: &HostRuntime, path: &str, bytes: &[u8]) -> io::Result<()> {
    let mut file = File::options().write(true).open(rt, path)?;
    file.write_all(bytes)
}

/// Puts a file with the given bytes and permissions at a path, in place of the one that is there,
/// if any. Without permissions, the file gets those of a new file.
fn put(rt: &HostRuntime, path: &str, rights: Option<Permissions>, bytes: &[u8]) -> io::Result<()> {
    let place = place(rt, path)?;
    let put = put_at(rt, &place, rights, bytes);
    drop(place);
    put
}

/// Replaces the file at a place with the given bytes and permissions, or creates it. Does not
/// follow a link. Without permissions, the file gets those of a new file.
pub(crate) fn put_at(
    rt: &HostRuntime,
    place: &PathBuf,
    rights: Option<Permissions>,
    bytes: &[u8],
) -> io::Result<()> {
    let beside = beside(rt, place, ".new")?;
    let path = beside.as_str();
    let mut put = clear(rt, path);
    if put.is_ok() {
        put = rename_over(rt, place, path, rights, bytes);
        if put.is_err() {
            let _ = clear(rt, path);
        }
    }
    drop(beside);
    put
}

/// Returns the path of the file beside a place with the given ending.
pub(crate) fn beside(rt: &HostRuntime, place: &PathBuf, ending: &str) -> io::Result<String> {
    let front = place.as_str();
    Ok(format!(in rt.alloc(); "{front}{ending}")?)
}

/// Returns the path to which a path leads through links. Fails if there are too many of them.
pub(crate) fn place(rt: &HostRuntime, path: &str) -> io::Result<PathBuf> {
    let mut place = PathBuf::from_str(rt.alloc(), path)?;
    match follow_all(rt, &mut place) {
        Ok(()) => Ok(place),
        Err(error) => {
            drop(place);
            Err(error)
        }
    }
}

/// Fails if something other than a plain file stands at a path. Does not follow a link, and does
/// not wait for a pipe.
pub(crate) fn check_plain(rt: &HostRuntime, path: &str) -> io::Result<()> {
    match fs::symlink_metadata(rt, path) {
        Ok(found) if !found.is_file() => Err(refused("is no plain file")),
        Ok(_) => Ok(()),
        Err(error) if error.kind() == ErrorKind::NotFound => Ok(()),
        Err(error) => Err(error),
    }
}

/// Follows the links at a place.
fn follow_all(rt: &HostRuntime, place: &mut PathBuf) -> io::Result<()> {
    for _ in 0..MAX_LINKS {
        if !is_link(rt, place)? {
            return Ok(());
        }
        follow(rt, place)?;
    }
    Err(io::Error::from(ErrorKind::InvalidInput))
}

/// Follows the link at a place.
fn follow(rt: &HostRuntime, place: &mut PathBuf) -> io::Result<()> {
    let next = place.read_link(rt)?;
    place.pop();
    let pushed = place.push(&next);
    drop(next);
    Ok(pushed?)
}

/// Returns true if a link stands at a path. Fails if that cannot be seen, so that what stands there
/// is not replaced.
fn is_link(rt: &HostRuntime, path: &PathBuf) -> io::Result<bool> {
    match fs::symlink_metadata(rt, path) {
        Ok(found) => Ok(found.is_symlink()),
        Err(error) => {
            if error.kind() == ErrorKind::NotFound {
                return Ok(false);
            }
            Err(error)
        }
    }
}

/// Removes a file, if it is there.
pub(crate) fn clear(rt: &HostRuntime, path: &str) -> io::Result<()> {
    match fs::remove_file(rt, path) {
        Ok(()) => Ok(()),
        Err(error) => {
            if error.kind() == ErrorKind::NotFound {
                return Ok(());
            }
            Err(error)
        }
    }
}

/// Writes the bytes beside the place, and renames the file over it.
fn rename_over(
    rt: &HostRuntime,
    place: &PathBuf,
    beside: &str,
    rights: Option<Permissions>,
    bytes: &[u8],
) -> io::Result<()> {
    let rights = match rights {
        Some(rights) => rights,
        None => new_rights(rt),
    };
    let mut file = create(rt, beside)?;
    let written = write_whole(&mut file, rights, bytes);
    drop(file);
    written?;
    fs::rename(rt, beside, place)?;
    sync_folder(rt, place)
}

/// Writes bytes and then permissions to a file, and syncs both to the disk.
fn write_whole(file: &mut File, rights: Permissions, bytes: &[u8]) -> io::Result<()> {
    file.write_all(bytes)?;
    file.set_permissions(rights)?;
    file.sync_all()
}

/// Syncs the directory of a place, so that the new name of the file reaches the disk.
fn sync_folder(rt: &HostRuntime, place: &PathBuf) -> io::Result<()> {
    File::open(rt, folder_of(place))?.sync_all()
}

/// Returns the directory that a place is in.
pub(crate) fn folder_of(place: &PathBuf) -> &str {
    match place.parent() {
        Some(parent) if !parent.as_str().is_empty() => parent.as_str(),
        _ => ".",
    }
}
