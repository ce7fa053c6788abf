// Names in definitions that stand for nothing.
ghost use Rattle.std.specs.Prelude.{◌≡◌, ◌↔◌, ◌⊎◌, ℕ, List, Contains, Some, IsTrue, IfOk, OnOk};
ghost use Rattle.rc_source.specs.Said.{meaning_of};
ghost use Rattle.rc_compile.specs.CompileFaults.{Mentions};

use rc_db::has_name;
use rc_names::{Name, Names};
use rc_set::NoMem;
use rc_source::Definition;
use std::alloc::Global;

// Returns the names in a definition that are in neither table.
pub(crate) fn unknown_in(
    alloc: Global,
    services: &Names,
    bundles: &Names,
    definition: &Definition,
) -> Result<Vec<Name>, NoMem>
    ensures { IfOk result (λ unknown. (name : List ℕ) → Contains unknown.items name
        ↔ (Mentions (meaning_of definition.now) name
        × (Contains services.now name ⊎ Contains bundles.now name → ⊥))) }
{
    let mut unknown = Vec::new(alloc);
    add_unknown(
        alloc,
        &mut unknown,
        services,
        bundles,
        &definition.dependencies,
    )?;
    add_unknown(alloc, &mut unknown, services, bundles, &definition.contents)?;
    add_unknown(
        alloc,
        &mut unknown,
        services,
        bundles,
        &definition.consumer_for,
    )?;
    add_producer(alloc, &mut unknown, services, bundles, definition)?;
    Ok(unknown)
}

// Adds the name that a definition writes to, if it is in neither table.
fn add_producer(
    alloc: Global,
    unknown: &mut Vec<Name>,
    services: &Names,
    bundles: &Names,
    definition: &Definition,
) -> Result<(), NoMem>
    ensures { OnOk result ((name : List ℕ) → Contains unknown.new.items name
        ↔ (Contains unknown.old.items name
        ⊎ (((meaning_of definition.now).producer_for ≡ Some name)
        × (Contains services.now name ⊎ Contains bundles.now name → ⊥)))) }
{
    match &definition.producer_for {
        Some(name) => add_if_unknown(alloc, unknown, services, bundles, name),
        None => Ok(()),
    }
}

// Adds those names that are in neither table.
fn add_unknown(
    alloc: Global,
    unknown: &mut Vec<Name>,
    services: &Names,
    bundles: &Names,
    names: &[Name],
) -> Result<(), NoMem>
    ensures { OnOk result ((name : List ℕ) → Contains unknown.new.items name
        ↔ (Contains unknown.old.items name
        ⊎ (Contains names.now name × (Contains services.now name ⊎ Contains bundles.now name →
        ⊥)))) }
{
    for name in names {
        add_if_unknown(alloc, unknown, services, bundles, name)?;
    }
    Ok(())
}

// Adds a name if it is in neither table.
fn add_if_unknown(
    alloc: Global,
    unknown: &mut Vec<Name>,
    services: &Names,
    bundles: &Names,
    name: &Name,
) -> Result<(), NoMem>
    ensures { OnOk result ((other : List ℕ) → Contains unknown.new.items other
        ↔ (Contains unknown.old.items other
        ⊎ ((other ≡ name.now) × (Contains services.now other ⊎ Contains bundles.now other → ⊥)))) }
{
    if !is_known(services, bundles, name.text()) {
        unknown.push(name.copy(alloc)?)?;
    }
    Ok(())
}

// Returns true if a text is in one of two tables.
fn is_known(services: &Names, bundles: &Names, text: &str) -> bool
    ensures { IsTrue result ↔ (Contains services.now text.now ⊎ Contains bundles.now text.now) }
{
    has_name(services, text) || has_name(bundles, text)
}
