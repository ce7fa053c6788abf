// What definitions list, by the places of names in tables.
ghost use Rattle.std.specs.Prelude.{◌≡◌, ◌⊎◌, ◌↔◌, ℕ, List, [], length, replicate, map, Contains};
ghost use Rattle.std.specs.Prelude.{Some, slice_get, IfOk, OnOk};
ghost use Rattle.std.specs.Option.{option_to_list};
ghost use Rattle.rc_model.specs.Names.{IsInByteOrder};
ghost use Rattle.rc_model.specs.Graph.{Needs};
ghost use Rattle.rc_compile.specs.Rows.{rows};
ghost use Rattle.rc_source.specs.Said.{meaning_of};
ghost use Rattle.rc_compile.specs.Mirror.{HasListed, Mirrors, listed_of};

use rc_names::{Name, Names};
use rc_set::NoMem;
use rc_source::Definition;
use std::alloc::Global;

/// A list of a definition.
#[derive(Clone, Copy, Debug, PartialEq, Eq)]
pub enum Listed {
    /// What a service needs.
    Dependencies,
    /// The longruns whose writing it reads.
    Consumers,
    /// What a bundle holds.
    Contents,
    /// The longrun that reads what it writes: one, or none.
    Producer,
}

/// Returns, for each name of the first table, the places in the second table of what its definition
/// lists. Skips definitions that are not in the first table, and names that are not in the second.
pub fn rows_of(
    alloc: Global,
    definitions: &[Definition],
    which: Listed,
    from: &Names,
    to: &Names,
) -> Result<Vec<Vec<u16>>, NoMem>
    ensures { IfOk result (λ lists. Mirrors
        (HasListed which (map meaning_of definitions.now)) from.now to.now (rows lists.items)) }
{
    let mut lists = empty_rows(alloc, from.len())?;
    for definition in definitions {
        add_row(&mut lists, definition, which, from, to)?;
    }
    Ok(lists)
}

// Creates as many empty lists as `count` says.
fn empty_rows(alloc: Global, count: u16) -> Result<Vec<Vec<u16>>, NoMem>
    ensures { IfOk result (λ lists. rows lists.items ≡ replicate count []) }
{
    let mut lists = Vec::with_capacity(alloc, count as usize)?;
    for _ in 0..count {
        lists.push(Vec::new(alloc))?;
    }
    Ok(lists)
}

// Adds the places of what a definition lists, if its name is in the first table.
fn add_row(
    lists: &mut [Vec<u16>],
    definition: &Definition,
    which: Listed,
    from: &Names,
    to: &Names,
) -> Result<(), NoMem>
    requires few { length lists.old ≡ length from.now }
    requires order { IsInByteOrder from.now }
    ensures few { length lists.new ≡ length lists.old }
    ensures rows { OnOk result ((s t : ℕ) → Needs (rows lists.new) s t ↔ (Needs (rows lists.old) s t
        ⊎ ((slice_get from.now s ≡ Some definition.now.name)
        × ((b : List ℕ) × (slice_get to.now t ≡ Some b)
        × Contains (listed_of which (meaning_of definition.now)) b)))) }
{
    if let Some(id) = from.find(definition.name.text()) {
        add_listed(&mut lists[id as usize], definition, which, to)?;
    }
    Ok(())
}

// Adds the places of what a definition lists.
fn add_listed(
    ids: &mut Vec<u16>,
    definition: &Definition,
    which: Listed,
    to: &Names,
) -> Result<(), NoMem>
    ensures { OnOk result ((t : ℕ) → Contains ids.new.items t ↔ (Contains ids.old.items t
        ⊎ ((b : List ℕ) × (slice_get to.now t ≡ Some b)
        × Contains (listed_of which (meaning_of definition.now)) b))) }
{
    match which {
        Listed::Dependencies => add_all(ids, &definition.dependencies, to),
        Listed::Consumers => add_all(ids, &definition.consumer_for, to),
        Listed::Contents => add_all(ids, &definition.contents, to),
        Listed::Producer => add_one(ids, &definition.producer_for, to),
    }
}

// Adds the place of a name, if there is one and it is in the table.
fn add_one(ids: &mut Vec<u16>, name: &Option<Name>, to: &Names) -> Result<(), NoMem>
    ensures { OnOk result ((t : ℕ) → Contains ids.new.items t ↔ (Contains ids.old.items t
        ⊎ ((b : List ℕ) × (slice_get to.now t ≡ Some b) × Contains (option_to_list name.now) b))) }
{
    match name {
        Some(name) => add_place(ids, name, to),
        None => Ok(()),
    }
}

// Adds the places of names that are in the table.
fn add_all(ids: &mut Vec<u16>, names: &[Name], to: &Names) -> Result<(), NoMem>
    ensures { OnOk result ((t : ℕ) → Contains ids.new.items t ↔ (Contains ids.old.items t
        ⊎ ((b : List ℕ) × (slice_get to.now t ≡ Some b) × Contains names.now b))) }
{
    for name in names {
        add_place(ids, name, to)?;
    }
    Ok(())
}

// Adds the place of a name, if it is in the table.
fn add_place(ids: &mut Vec<u16>, name: &Name, to: &Names) -> Result<(), NoMem>
    ensures { OnOk result ((t : ℕ) → Contains ids.new.items t
        ↔ (Contains ids.old.items t ⊎ (slice_get to.now t ≡ Some name.now))) }
{
    let _count = to.len();
    if let Some(id) = to.find(name.text()) {
        ids.push(id)?;
    }
    Ok(())
}
