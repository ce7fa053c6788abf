// The bundles with their sets.
ghost use Rattle.std.specs.Prelude.{◌≡◌, ◌<◌, ℕ, List, [], length, Some, IfOk};
ghost use Rattle.std.specs.Prelude.{OnOk, slice_get, slice_index_or};
ghost use Rattle.rc_compile.specs.Joining.{AllWithin};
ghost use Rattle.rc_model.specs.Line.{IsChangedAt};
ghost use Rattle.rc_model.specs.Database.{HaveBound, IsTable, names_of, value_of};

use rc_db::Table;
use rc_names::{Name, Names};
use rc_set::{NoMem, Set};
use std::alloc::Global;

// Creates the table of names, each with the set at its place.
pub(crate) fn table_of(alloc: Global, names: &Names, sets: &[Set]) -> Result<Table, NoMem>
    requires { length sets.now ≡ length names.now }
    ensures names { IfOk result (λ table. names_of table ≡ names.now) }
    ensures sets { IfOk result (λ table.
        (b : ℕ) (name : List ℕ) → slice_get names.now b ≡ Some name →
        value_of table name ≡ Some (slice_index_or sets.now b [])) }
    ensures bounds { IfOk result (λ table.
        (bound : ℕ) → AllWithin bound sets.now → HaveBound bound table) }
{
    let mut table = Table::new(alloc);
    for place in 0..names.len() {
        put(
            alloc,
            &mut table,
            names.name_of(place),
            &sets[place as usize],
        )?;
    }
    Ok(table)
}

// Adds a bundle to a table that has room.
fn put(alloc: Global, table: &mut Table, name: &Name, set: &Set) -> Result<(), NoMem>
    requires { length table.old < 4096 }
    ensures changed { OnOk result (IsChangedAt table.old name.now (Some set.now) table.new) }
    ensures table { OnOk result (IsTable table.new) }
{
    table.set(name, set.copy(alloc)?)?;
    let _count = table.len();
    Ok(())
}
