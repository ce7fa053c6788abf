ghost use Rattle.std.specs.Prelude.{◌≡◌, ◌==◌, ◌≤◌, ◌↔◌, ℕ, Option, None, IfOk};
ghost use Rattle.std.specs.Prelude.{IfErr, IfSome, OnOk, IsTrue, IsSome, map, option_map};
ghost use Rattle.std.specs.Prelude.{string_bytes, vec_len};
ghost use Rattle.rc_source.specs.Tree.{Source, IsSource, file_at, path_of, IsListing, AreEntries};
ghost use Rattle.std.specs.List.{before_first};
ghost use Rattle.rc_source.specs.TreeFaults.{IsCallFault, IsReadFault};

use rc_names::NoMem;
use std::alloc::{AllocError, AllocFailed, Global};
use std::fmt;
use thiserror::Error;

/// The most bytes of a file that is read.
pub const MAX_FILE: usize = 65536;

/// Why a tree does not answer.
#[derive(Clone, Copy, PartialEq, Eq, Debug, Error)]
pub enum TreeFault {
    Io = 1,
    TooLong = 2,
    Memory = 3,
}

// Returns the message of a fault.
fn told_of(fault: &TreeFault) -> &'static str {
    match fault {
        TreeFault::Io => "the device failed",
        TreeFault::TooLong => "a file is too long",
        TreeFault::Memory => "out of memory",
    }
}

impl fmt::Display for TreeFault {
    fn fmt<W: fmt::Write>(&self, f: &mut fmt::Formatter<W>) -> fmt::Result {
        f.write_str(told_of(self))
    }
}

impl From<AllocError> for TreeFault {
    ghost use Rattle.rc_source.specs.declared.tree.TreeFault.TheVariants.{Memory};

    ghost from_gives = { λ _ fault. fault ≡ Memory };

    fn from(_fault: AllocError) -> TreeFault {
        TreeFault::Memory
    }
}

impl<T: Drop> From<AllocFailed<T>> for TreeFault {
    ghost use Rattle.rc_source.specs.declared.tree.TreeFault.TheVariants.{Memory};

    ghost from_gives = { λ _ fault. fault ≡ Memory };

    fn from(_fault: AllocFailed<T>) -> TreeFault {
        TreeFault::Memory
    }
}

/// Service directories with their files. A call changes nothing but the
/// count of the device's failures.
pub trait Tree {
    /// Returns the entries and files that the tree holds, or None if the tree does not say.
    ghost held: { Self → Option Source } = { λ _. None };

    /// Returns the number of failures of the device.
    ghost failed: { Self → ℕ };

    /// Returns the number of failures of the device. The count stays at its largest value.
    fn failures(&self) -> u64
        ensures { result ≡ failed self.now };

    /// Returns the names of the service directories, in any order.
    fn entries(&mut self, alloc: Global) -> Result<Vec<String>, TreeFault>
        ensures names { IfOk result (λ names. (source : Source) → held self.old ≡ Some source
            → IsSource source × AreEntries source (map string_bytes names.items)) }
        ensures fault { IfErr result (IsCallFault (failed self.old) (failed self.new)) }
        ensures same { held self.new ≡ held self.old }
        ensures count { failed self.old ≤ failed self.new }
        ensures quiet { OnOk result (failed self.new ≡ failed self.old) };

    /// Returns the names in a folder of a service directory, in any order, if the folder is there.
    fn listing(
        &mut self,
        alloc: Global,
        service: &str,
        folder: &str,
    ) -> Result<Option<Vec<String>>, TreeFault>
        ensures names { IfOk result (λ names. (source : Source) → held self.old ≡ Some source
            → IsListing source service.now folder.now
            (option_map (λ names. map string_bytes names.items) names)) }
        ensures fault { IfErr result (IsCallFault (failed self.old) (failed self.new)) }
        ensures same { held self.new ≡ held self.old }
        ensures count { failed self.old ≤ failed self.new }
        ensures quiet { OnOk result (failed self.new ≡ failed self.old) };

    /// Returns the bytes of a file of a service directory, if the file is there.
    fn bytes(
        &mut self,
        alloc: Global,
        service: &str,
        file: &str,
    ) -> Result<Option<Vec<u8>>, TreeFault>
        ensures file { IfOk result (λ bytes. (source : Source) → held self.old ≡ Some source
            → file_at source service.now file.now ≡ option_map (λ bytes. bytes.items) bytes) }
        ensures short { IfOk result (λ bytes. IfSome bytes (λ bytes. vec_len bytes ≤ 65536)) }
        ensures fault { IfErr result (IsReadFault (failed self.old) (failed self.new)
            (held self.old) service.now file.now) }
        ensures same { held self.new ≡ held self.old }
        ensures count { failed self.old ≤ failed self.new }
        ensures quiet { OnOk result (failed self.new ≡ failed self.old) };

    /// Returns true if a file of a service directory is there.
    fn has(&mut self, alloc: Global, service: &str, file: &str) -> Result<bool, TreeFault>
        ensures there { IfOk result (λ there. (source : Source) → held self.old ≡ Some source
            → (IsTrue there ↔ IsSome (file_at source service.now file.now))) }
        ensures fault { IfErr result (IsCallFault (failed self.old) (failed self.new)) }
        ensures same { held self.new ≡ held self.old }
        ensures count { failed self.old ≤ failed self.new }
        ensures quiet { OnOk result (failed self.new ≡ failed self.old) };
}

// Returns the path of a name in a directory.
pub(crate) fn path_to(alloc: Global, directory: &str, name: &str) -> Result<String, NoMem>
    ensures { IfOk result (λ path. string_bytes path ≡ path_of directory.now name.now) }
{
    let mut path = String::from_str(alloc, directory)?;
    path.push_str("/")?;
    path.push_str(name)?;
    Ok(path)
}

// Returns the part of a path before its first slash, or all of it if there is no slash.
pub(crate) fn first_part(path: &str) -> &str
    ensures { result.now ≡ before_first (λ byte. byte == 47) path.now }
{
    match path.split_once('/') {
        Some((part, _)) => part,
        None => path,
    }
}
