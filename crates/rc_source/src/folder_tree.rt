ghost use Rattle.std.specs.Prelude.{◌≡◌, ◌≤◌, IfErr, OnOk};
ghost use Rattle.rc_source.specs.TreeFaults.{IsCallFault};

use crate::tree::{MAX_FILE, Tree, TreeFault, first_part, path_to};
use rc_names::NoMem;
use std::alloc::Global;
use std::fs::Metadata;
use std::io::{ErrorKind, Read};
use std::rt::Files;
use std::{fs, io};

// The bytes that one read of a file or a listing asks for. Clearing a larger buffer, as the kit
// does for each path, costs more instructions than reading a small file.
const PIECE: usize = 1024;

// The most reads of the names in a service directory.
const MAX_READS: u64 = 64;

// The most reads of a file: more than it may have bytes, since a read may be interrupted.
const MAX_TRIES: u64 = 70_000;

/// A tree in a file system: the subdirectories of a directory. No contract can say what it holds.
///
/// A service directory is listed once, and a file that is not in the listing is not looked up. If
/// the directory can't be listed, each of its files is looked up. A look-up takes one call, or two
/// if a link stands at the path.
#[derive(Drop)]
pub struct FolderTree<R: Files + AllocGlobal + Clone + Drop> {
    rt: R,
    root: String,
    failures: u64,
    has_links: bool,
    seen: Option<Seen>,
}

// What was seen in the service directory that was looked up last.
#[derive(Drop)]
struct Seen {
    service: String,
    // The names, each followed by a byte 0. None if the directory could not be listed in whole.
    names: Option<Vec<u8>>,
}

impl<R: Files + AllocGlobal + Clone + Drop> FolderTree<R> {
    /// Creates the tree of a directory, which keeps the runtime. Reads nothing yet.
    pub fn open(rt: R, alloc: Global, root: &str) -> Result<FolderTree<R>, NoMem> {
        let root = String::from_str(alloc, root)?;
        Ok(FolderTree {
            rt,
            root,
            failures: 0,
            has_links: false,
            seen: None,
        })
    }

    /// Returns true if a link was met in the place of a service directory or a file.
    pub fn has_links(&self) -> bool {
        self.has_links
    }

    // Returns the path of a file of a service directory.
    fn path(&self, alloc: Global, service: &str, file: &str) -> Result<String, NoMem> {
        path_in(alloc, self.root.as_str(), service, file)
    }
}

impl<R: Files + AllocGlobal + Clone + Drop> Tree for FolderTree<R> {
    ghost failed = { λ tree. tree.failures };

    fn failures(&self) -> u64 {
        self.failures
    }

    fn entries(&mut self, alloc: Global) -> Result<Vec<String>, TreeFault> {
        noted(
            &mut self.failures,
            subdirectories(&self.rt, alloc, self.root.as_str(), &mut self.has_links),
        )
    }

    fn listing(
        &mut self,
        alloc: Global,
        service: &str,
        folder: &str,
    ) -> Result<Option<Vec<String>>, TreeFault> {
        if lacks(
            &self.rt,
            alloc,
            self.root.as_str(),
            &mut self.seen,
            service,
            folder,
        )? {
            return Ok(None);
        }
        let path = self.path(alloc, service, folder)?;
        noted(&mut self.failures, names_at(&self.rt, alloc, path.as_str()))
    }

    fn bytes(
        &mut self,
        alloc: Global,
        service: &str,
        file: &str,
    ) -> Result<Option<Vec<u8>>, TreeFault> {
        if lacks(
            &self.rt,
            alloc,
            self.root.as_str(),
            &mut self.seen,
            service,
            file,
        )? {
            return Ok(None);
        }
        let path = self.path(alloc, service, file)?;
        let bytes = noted(
            &mut self.failures,
            if_there(first_bytes(&self.rt, alloc, path.as_str(), &mut self.has_links)),
        )?;
        match bytes {
            Some(bytes) if bytes.len() > MAX_FILE => Err(TreeFault::TooLong),
            bytes => Ok(bytes),
        }
    }

    fn has(&mut self, alloc: Global, service: &str, file: &str) -> Result<bool, TreeFault> {
        if lacks(
            &self.rt,
            alloc,
            self.root.as_str(),
            &mut self.seen,
            service,
            file,
        )? {
            return Ok(false);
        }
        let path = self.path(alloc, service, file)?;
        let found = noted(
            &mut self.failures,
            if_there(metadata_at(&self.rt, path.as_str(), &mut self.has_links)),
        )?;
        Ok(found.is_some())
    }
}

// Returns the path of a file of a service directory below a root. Allocates once.
fn path_in(alloc: Global, root: &str, service: &str, file: &str) -> Result<String, NoMem> {
    let room = root
        .len()
        .saturating_add(service.len())
        .saturating_add(file.len())
        .saturating_add(2);
    let mut path = String::with_capacity(alloc, room)?;
    for part in [root, "/", service, "/", file] {
        path.push_str(part)?;
    }
    Ok(path)
}

// Returns true if a service directory can be listed and has nothing of this name. Lists the
// directory, unless it was looked up last.
fn lacks<R: Files>(
    rt: &R,
    alloc: Global,
    root: &str,
    seen: &mut Option<Seen>,
    service: &str,
    file: &str,
) -> Result<bool, NoMem> {
    if !is_of(seen, service) {
        let path = path_in(alloc, root, service, "")?;
        let names = names_seen(rt, alloc, path.as_str())?;
        let service = String::from_str(alloc, service)?;
        *seen = Some(Seen { service, names });
    }
    Ok(is_unseen(seen, file))
}

// Returns true if this is what was seen in the given service directory.
fn is_of(seen: &Option<Seen>, service: &str) -> bool {
    match seen {
        Some(seen) => seen.service.as_str() == service,
        None => false,
    }
}

// Returns true if a directory was listed and has nothing of this name. Only the part of the name
// before its first slash counts.
fn is_unseen(seen: &Option<Seen>, file: &str) -> bool {
    let name = first_part(file).as_bytes();
    match seen {
        Some(
            Seen {
                names: Some(names),
                ..
            },
        ) => !names.split(|byte| *byte == 0).any(|seen| seen == name),
        _ => false,
    }
}

// Reads the names in a directory, each followed by a byte 0. Returns None if the directory can't be
// listed or holds more names than are worth a look.
fn names_seen<R: Files>(rt: &R, alloc: Global, path: &str) -> Result<Option<Vec<u8>>, NoMem> {
    let mut names = Vec::new(alloc);
    let Ok(mut directory) = rt.open_dir(path) else {
        return Ok(None);
    };
    let mut buffer = [0u8; PIECE];
    for _ in 0..MAX_READS {
        match directory.read(&mut buffer) {
            Ok(0) => return Ok(Some(names)),
            Ok(count) => names.extend_from_slice(&buffer[..count])?,
            Err(_) => return Ok(None),
        }
    }
    Ok(None)
}

// Returns the answer of a device. Counts each failure except running out of memory.
fn noted<X>(failures: &mut u64, answer: io::Result<X>) -> Result<X, TreeFault>
    ensures fault { IfErr result (IsCallFault failures.old failures.new) }
    ensures count { failures.old ≤ failures.new }
    ensures quiet { OnOk result (failures.new ≡ failures.old) }
{
    match answer {
        Ok(value) => Ok(value),
        Err(fault) if fault.kind() == ErrorKind::OutOfMemory => Err(TreeFault::Memory),
        Err(_) => {
            *failures = failures.saturating_add(1);
            Err(TreeFault::Io)
        }
    }
}

// Returns the value of an answer, or None if the path leads nowhere.
fn if_there<X>(answer: io::Result<X>) -> io::Result<Option<X>> {
    match answer {
        Ok(value) => Ok(Some(value)),
        Err(fault) if leads_nowhere(fault.kind()) => Ok(None),
        Err(fault) => Err(fault),
    }
}

// Returns true if a path is refused because it leads nowhere: a name is missing, or a link leads
// through a file or back to itself.
fn leads_nowhere(kind: ErrorKind) -> bool {
    matches!(
        kind,
        ErrorKind::NotFound | ErrorKind::NotADirectory | ErrorKind::FilesystemLoop
    )
}

// Returns the metadata of a path. If a link stands there, notes that and follows the link.
fn metadata_at<R: Files>(rt: &R, path: &str, has_links: &mut bool) -> io::Result<Metadata> {
    let found = rt.symlink_metadata(path)?;
    if !found.is_symlink() {
        return Ok(found);
    }
    *has_links = true;
    rt.metadata(path)
}

// Returns the names in a directory, or None if nothing is there. Fails if a file is there.
fn names_at<R: Files + AllocGlobal + Clone + Drop>(
    rt: &R,
    alloc: Global,
    path: &str,
) -> io::Result<Option<Vec<String>>> {
    match if_there(rt.metadata(path))? {
        Some(_) => Ok(Some(names_in(rt, alloc, path)?)),
        None => Ok(None),
    }
}

// Returns the names in a directory.
fn names_in<R: Files + AllocGlobal + Clone + Drop>(
    rt: &R,
    alloc: Global,
    path: &str,
) -> io::Result<Vec<String>> {
    let mut names = Vec::new(alloc);
    for entry in fs::read_dir(rt, path)? {
        let entry = entry?;
        names.push(String::from_str(alloc, entry.file_name())?)?;
    }
    Ok(names)
}

// Returns the names of the subdirectories of a directory, except hidden ones. A link to a directory
// counts as one.
fn subdirectories<R: Files + AllocGlobal + Clone + Drop>(
    rt: &R,
    alloc: Global,
    path: &str,
    has_links: &mut bool,
) -> io::Result<Vec<String>> {
    let mut names = Vec::new(alloc);
    for name in names_in(rt, alloc, path)? {
        if !name.starts_with('.') && is_directory(rt, alloc, path, name.as_str(), has_links)? {
            names.push(name)?;
        }
    }
    Ok(names)
}

// Returns true if a name in a directory leads to a directory. A link that leads nowhere does not.
fn is_directory<R: Files>(
    rt: &R,
    alloc: Global,
    path: &str,
    name: &str,
    has_links: &mut bool,
) -> io::Result<bool> {
    let path = path_to(alloc, path, name)?;
    Ok(match if_there(metadata_at(rt, path.as_str(), has_links))? {
        Some(metadata) => metadata.is_dir(),
        None => false,
    })
}

// Reads the beginning of a file, up to one byte more than a file may have. Fails if the path is not
// a plain file, since opening a pipe would wait for whoever writes into it.
fn first_bytes<R: Files>(
    rt: &R,
    alloc: Global,
    path: &str,
    has_links: &mut bool,
) -> io::Result<Vec<u8>> {
    if !metadata_at(rt, path, has_links)?.is_file() {
        return Err(io::Error::from(ErrorKind::InvalidInput));
    }
    let mut file = fs::open(rt, path)?;
    read_first(alloc, &mut file)
}

// Reads the beginning of a file in pieces, since `read_to_end` clears a byte at a time.
fn read_first<F: Read>(alloc: Global, file: &mut F) -> io::Result<Vec<u8>> {
    let mut bytes = Vec::new(alloc);
    let mut piece = [0u8; PIECE];
    for _ in 0..MAX_TRIES {
        match file.read(&mut piece) {
            Ok(0) => return Ok(bytes),
            Ok(count) => bytes.extend_from_slice(&piece[..count])?,
            Err(fault) if fault.kind() == ErrorKind::Interrupted => {}
            Err(fault) => return Err(fault),
        }
        if bytes.len() > MAX_FILE {
            return Ok(bytes);
        }
    }
    Err(io::Error::from(ErrorKind::Interrupted))
}
