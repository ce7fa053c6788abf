// Names shown in place of their ids.
ghost use Rattle.std.specs.Prelude.{◌≡◌, ◌<◌, [], length, map, slice_index_or, All, IfOk};

use rc_names::{Name, Names};
use rc_set::NoMem;
use std::alloc::{AllocError, Global};

/// Returns the names at some places of a table, in the order of the places.
pub fn names_at(alloc: Global, names: &Names, ids: &[u16]) -> Result<Vec<Name>, NoMem>
    requires { All (λ s. s < length names.now) ids.now }
    ensures { IfOk result (λ shown. shown.items
        ≡ map (λ s. slice_index_or names.now s []) ids.now) }
{
    let mut shown = Vec::with_capacity(alloc, ids.len())?;
    for id in ids {
        shown.push(copy_of(alloc, names.name_of(*id))?)?;
    }
    Ok(shown)
}

// Returns a copy of a name.
fn copy_of(alloc: Global, name: &Name) -> Result<Name, NoMem>
    ensures { IfOk result (λ copy. copy ≡ name.now) }
{
    match Name::read(alloc, name.text()) {
        Ok(name) => Ok(name),
        Err(_) => Err(AllocError),
    }
}
