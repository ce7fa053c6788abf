//! Small sets.

ghost use Rattle.std.specs.Prelude.{◌≡◌, ◌≤◌, length, IfOk};

use rc_set::{NoMem, Set};
use std::alloc::Global;

/// The services of the sample, in the order of their names.
pub const DB: u16 = 0;

pub const LOG: u16 = 1;

pub const NET: u16 = 2;

pub const ROOT: u16 = 3;

pub const WEB: u16 = 4;

/// Returns the set of the given ids, without those that are not below the bound.
pub fn set_of(alloc: Global, bound: u16, ids: &[u16]) -> Result<Set, NoMem>
    requires { bound ≤ 4096 }
    ensures { IfOk result (λ set. length set ≡ bound) }
{
    let mut set = Set::empty(alloc, bound)?;
    for id in ids {
        if *id < set.bound() {
            set.insert(*id);
        }
    }
    Ok(set)
}

/// Returns true if the given ids are those of a set, ascending.
pub fn has_ids(alloc: Global, set: &Set, ids: &[u16]) -> Result<bool, NoMem> {
    let found = set.ids(alloc)?;
    Ok(found.as_slice() == ids)
}
