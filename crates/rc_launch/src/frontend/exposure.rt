//! Who may read what sources say, and which of them stand elsewhere.

use log::warn;
use rc_names::NoMem;
use rc_streams::messages::{MESSAGE, Messages};
use std::fs::{self, DirEntry, File, Permissions};
use std::io::{self, ErrorKind};
use std::os::unix::fs::{OpenOptionsExt, PermissionsExt};

/// The rights to read: of the owner, of the group, and of all others.
const READING: u32 = 0o444;

/// The files of a service or a bundle whose bytes, or what they name, come into a database.
const READ: [&str; 5] = ["contents", "dependencies", "down", "type", "up"];

/// Makes the file at a path, or takes rights from the one that is there, so that nobody may read it
/// who may not read each of the sources. If everyone may read all sources, the file is left alone.
/// Returns true if the file was made.
pub fn restrict(rt: &HostRuntime, sources: &[String], path: &str) -> io::Result<bool> {
    let mut rights = READING;
    for source in sources {
        rights &= readable_in(rt, source.as_str())?;
    }
    if rights == READING {
        return Ok(false);
    }
    match fs::metadata(rt, path) {
        Ok(found) if found.is_file() => {
            let mode = found.permissions().mode() & (rights | !READING);
            fs::set_permissions(rt, path, Permissions::from_mode(mode))?;
            Ok(false)
        }
        Ok(_) => Ok(false),
        Err(error) if error.kind() == ErrorKind::NotFound => {
            make(rt, path, rights)?;
            Ok(true)
        }
        Err(error) => Err(error),
    }
}

/// Makes an empty file that its owner may write, and that has these rights to read.
fn make(rt: &HostRuntime, path: &str, rights: u32) -> io::Result<()> {
    let mut options = File::options();
    options.write(true).create_new(true).mode(0o200 | rights);
    drop(options.open(rt, path)?);
    Ok(())
}

/// Returns the rights to read that all entries of a source give.
fn readable_in(rt: &HostRuntime, source: &str) -> io::Result<u32> {
    let mut rights = READING;
    for entry in fs::read_dir(rt, source)? {
        rights &= readable_by(rt, entry)?;
    }
    Ok(rights)
}

/// Returns the rights to read that all files of an entry give, of those that come into a database.
fn readable_by(rt: &HostRuntime, entry: io::Result<DirEntry>) -> io::Result<u32> {
    let entry = entry?;
    let mut rights = READING;
    for file in READ {
        rights &= rights_at(rt, entry.path().as_str(), file)?;
    }
    Ok(rights)
}

/// Returns the rights that a file of an entry gives. If it is no plain file, everyone may read it.
fn rights_at(rt: &HostRuntime, entry: &str, file: &str) -> Result<u32, NoMem> {
    let path = format!(in rt.alloc(); "{entry}/{file}")?;
    let found = fs::metadata(rt, path.as_str());
    drop(path);
    match found {
        Ok(found) if found.is_file() => Ok(found.permissions().mode()),
        _ => Ok(READING),
    }
}

/// Warns of entries and of their files that are links to somewhere outside of their sources. Users
/// who may write there decide what runs.
pub fn warn_of_links(rt: &HostRuntime, sources: &[String]) -> io::Result<()> {
    for source in sources {
        let source = source.as_str();
        let root = fs::canonicalize(rt, source)?;
        let warned = warn_in(rt, root.as_str(), source);
        drop(root);
        warned?;
    }
    Ok(())
}

/// Warns of the entries of a source and of their files.
fn warn_in(rt: &HostRuntime, root: &str, source: &str) -> io::Result<()> {
    for entry in fs::read_dir(rt, source)? {
        warn_of_entry(rt, root, entry)?;
    }
    Ok(())
}

/// Warns of an entry and of its files.
fn warn_of_entry(rt: &HostRuntime, root: &str, entry: io::Result<DirEntry>) -> io::Result<()> {
    let entry = entry?;
    let entry = entry.path().as_str();
    warn_of(rt, root, entry)?;
    for file in READ {
        warn_of_file(rt, root, entry, file)?;
    }
    Ok(())
}

/// Warns of a file of an entry.
fn warn_of_file(rt: &HostRuntime, root: &str, entry: &str, file: &str) -> io::Result<()> {
    let path = format!(in rt.alloc(); "{entry}/{file}")?;
    let warned = warn_of(rt, root, path.as_str());
    drop(path);
    warned
}

/// Warns of a path, if a link stands there that leads out of a directory.
fn warn_of(rt: &HostRuntime, root: &str, path: &str) -> io::Result<()> {
    match fs::symlink_metadata(rt, path) {
        Ok(found) if found.is_symlink() => {
            let target = fs::canonicalize(rt, path)?;
            warn_outside(rt, root, path, target.as_str());
            drop(target);
            Ok(())
        }
        _ => Ok(()),
    }
}

/// Warns of a link, if it leads out of a directory.
fn warn_outside(rt: &HostRuntime, root: &str, path: &str, target: &str) {
    if !is_within(target, root) {
        warn!(Messages(rt); target: MESSAGE,
            "{path} is a link out of its source, to {target}");
    }
}

/// Returns true if a path leads to something in a directory.
fn is_within(path: &str, root: &str) -> bool {
    match path.strip_prefix(root) {
        Some(rest) => rest.starts_with('/') || root.ends_with('/'),
        None => false,
    }
}
