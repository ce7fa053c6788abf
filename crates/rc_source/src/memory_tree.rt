ghost use Rattle.std.specs.Prelude.{◌≡◌, [], OnOk, OnErr, IfOk, Some};
ghost use Rattle.std.specs.Prelude.{map, option_map, string_bytes};
ghost use Rattle.rc_names.specs.Names.{Adds};
ghost use Rattle.std.specs.BTreeMap.{keys};
ghost use Rattle.std.specs.List.{filter_map};
ghost use Rattle.rc_source.specs.Tree.{IsPutAt, path_of, next_name};
ghost use Rattle.rc_source.specs.Shown.{shown_files};

use crate::sets;
use crate::tree::{MAX_FILE, Tree, TreeFault, first_part, path_to};
use rc_names::NoMem;
use std::alloc::{AllocError, Global};
use std::collections::{BTreeMap, BTreeSet};
use std::marker::Model;

/// A tree in memory, whose device never fails.
#[derive(Drop)]
pub struct MemoryTree {
    alloc: Global,
    entries: BTreeSet<String>,
    files: BTreeMap<String, Vec<u8>>,
}

impl Model for MemoryTree {
    ghost use Rattle.std.specs.Prelude.{map, string_bytes};
    ghost use Rattle.rc_source.specs.Tree.{Source};
    ghost use Rattle.rc_source.specs.Shown.{shown_files};

    ghost Value = { Source };

    ghost view = { λ tree. record {
      entries = map string_bytes tree.entries.keys;
      files = shown_files tree.files.entries;
    } };
}

impl MemoryTree {
    /// Creates a tree without directories, which keeps the allocator.
    pub fn new(alloc: Global) -> MemoryTree
        ensures { result ≡ record { entries = []; files = [] } }
    {
        MemoryTree {
            alloc,
            entries: BTreeSet::new(alloc),
            files: BTreeMap::new(alloc),
        }
    }

    /// Makes a service directory, unless it is there.
    pub fn folder(&mut self, service: &str) -> Result<(), NoMem>
        ensures entries { OnOk result (Adds self.old.entries service.now self.new.entries) }
        ensures files { self.new.files ≡ self.old.files }
        ensures err { OnErr result (self.new ≡ self.old) }
    {
        sets::add(self.alloc, &mut self.entries, service)?;
        Ok(())
    }

    /// Writes a file, in place of the one that is there. Makes its service directory if that is
    /// missing.
    pub fn put(&mut self, service: &str, path: &str, bytes: &[u8]) -> Result<(), NoMem>
        ensures entries { OnOk result (Adds self.old.entries service.now self.new.entries) }
        ensures files { OnOk result (IsPutAt self.old.files
            (path_of service.now path.now) bytes.now self.new.files) }
        ensures err { OnErr result (self.new ≡ self.old) }
    {
        let path = path_to(self.alloc, service, path)?;
        let bytes = Vec::from_slice(self.alloc, bytes)?;
        let service = String::from_str(self.alloc, service)?;
        put_file(&mut self.entries, &mut self.files, service, path, bytes)
    }
}

impl Tree for MemoryTree {
    ghost use Rattle.std.specs.Prelude.{Some};

    ghost held = { λ tree. Some tree };

    ghost failed = { λ _. 0 };

    fn failures(&self) -> u64 {
        0
    }

    fn entries(&mut self, alloc: Global) -> Result<Vec<String>, TreeFault> {
        let _count = self.files.len();
        Ok(sets::texts(alloc, &self.entries)?)
    }

    fn listing(
        &mut self,
        alloc: Global,
        service: &str,
        folder: &str,
    ) -> Result<Option<Vec<String>>, TreeFault> {
        let folder = path_to(alloc, service, folder)?;
        let beginning = path_to(alloc, folder.as_str(), "")?;
        let names = next_names(alloc, &self.files, beginning.as_str())?;
        if names.is_empty() {
            return Ok(None);
        }
        Ok(Some(names))
    }

    fn bytes(
        &mut self,
        alloc: Global,
        service: &str,
        file: &str,
    ) -> Result<Option<Vec<u8>>, TreeFault> {
        let path = path_to(alloc, service, file)?;
        let Some(bytes) = self.files.get(path.as_str()) else {
            return Ok(None);
        };
        if bytes.len() > MAX_FILE {
            return Err(TreeFault::TooLong);
        }
        Ok(Some(Vec::from_slice(alloc, bytes)?))
    }

    fn has(&mut self, alloc: Global, service: &str, file: &str) -> Result<bool, TreeFault> {
        let path = path_to(alloc, service, file)?;
        Ok(self.files.contains_key(path.as_str()))
    }
}

// Adds a file, and its directory if that is missing. If this fails, neither is added.
fn put_file(
    entries: &mut BTreeSet<String>,
    files: &mut BTreeMap<String, Vec<u8>>,
    service: String,
    path: String,
    bytes: Vec<u8>,
) -> Result<(), NoMem>
    ensures entries { OnOk result (Adds (map string_bytes entries.old.keys) (string_bytes service)
        (map string_bytes entries.new.keys)) }
    ensures files { OnOk result (IsPutAt (shown_files files.old.entries)
        (string_bytes path) bytes.items (shown_files files.new.entries)) }
    ensures entries_stay { OnErr result (entries.new.keys ≡ entries.old.keys) }
    ensures files_stay { OnErr result (files.new.entries ≡ files.old.entries) }
{
    if entries.contains(service.as_str()) {
        files.insert(path, bytes)?;
        return Ok(());
    }
    let name = service.clone()?;
    entries.insert(name)?;
    match files.insert(path, bytes) {
        Ok(_) => Ok(()),
        Err(fault) => {
            entries.remove(&service);
            Err(AllocError::from(fault))
        }
    }
}

// Returns the names that follow a beginning, in all paths that have it.
fn next_names(
    alloc: Global,
    files: &BTreeMap<String, Vec<u8>>,
    beginning: &str,
) -> Result<Vec<String>, NoMem>
    ensures { IfOk result (λ names. map string_bytes names.items
        ≡ filter_map (next_name beginning.now) (map string_bytes (keys files.now))) }
{
    let mut names = Vec::new(alloc);
    for path in files.keys() {
        if let Some(name) = next_name_of(beginning, path.as_str()) {
            names.push(String::from_str(alloc, name)?)?;
        }
    }
    Ok(names)
}

// Returns the name that follows a beginning in a path, if the path has it.
fn next_name_of<'a>(beginning: &str, path: &'a str) -> Option<&'a str>
    ensures { option_map (λ name. name.now) result ≡ next_name beginning.now path.now }
{
    match path.strip_prefix(beginning) {
        Some(rest) => Some(first_part(rest)),
        None => None,
    }
}
