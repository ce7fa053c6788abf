// The names of services, and those of bundles and pipelines.
ghost use Rattle.std.specs.Prelude.{◌≡◌, ◌↔◌, ◌⊎◌, ℕ, List, Contains, map, false, IsTrue, IfOk};
ghost use Rattle.std.specs.Prelude.{IfSome, IfNone};
ghost use Rattle.rc_names.specs.Names.{Adds};
ghost use Rattle.rc_model.specs.Names.{AreNames};
ghost use Rattle.rc_source.specs.Said.{meaning_of};
ghost use Rattle.rc_compile.specs.CompileFaults.{AreTooMany};
ghost use Rattle.rc_compile.specs.Given.{Gives, IsNameOf, IsFull};

use crate::members::pipeline_name;
use rc_names::{Kind, MAX_NAMES, Name, Names};
use rc_set::NoMem;
use rc_source::Definition;
use std::alloc::Global;

// Whose names are wanted.
#[derive(Clone, Copy)]
pub(crate) enum Which {
    Services,
    Bundles,
}

// Creates the table of the names of services, or of bundles. Returns None if there are too many.
pub(crate) fn names_of(
    alloc: Global,
    definitions: &[Definition],
    which: Which,
) -> Result<Option<Names>, NoMem>
    ensures same { IfOk result (λ found.
        IfSome found (λ names. (name : List ℕ) → Contains names name
        ↔ IsNameOf which (map meaning_of definitions.now) name)) }
    ensures few { IfOk result (λ found.
        IfSome found (λ names. AreTooMany (IsNameOf which (map meaning_of definitions.now)) → ⊥)) }
    ensures many { IfOk result (λ found.
        IfNone found (AreTooMany (IsNameOf which (map meaning_of definitions.now)))) }
{
    let mut names = Names::new(alloc);
    for definition in definitions {
        if !add_given(alloc, &mut names, definition, which)? {
            drop(names);
            return Ok(None);
        }
    }
    let _count = names.len();
    Ok(Some(names))
}

// Adds the name that a definition gives, if it gives one. Returns false if there is no room for it.
fn add_given(
    alloc: Global,
    names: &mut Names,
    definition: &Definition,
    which: Which,
) -> Result<bool, NoMem>
    ensures adds { IfOk result (λ fits. IsTrue fits → (name : List ℕ) → Contains names.new name
        ↔ (Contains names.old name ⊎ Gives which (meaning_of definition.now) name)) }
    ensures full { IfOk result (λ fits.
        fits ≡ false → IsFull names.old (Gives which (meaning_of definition.now))) }
    ensures names { AreNames names.old }
{
    let _count = names.len();
    match given(definition, which) {
        Some(name) => add_name(alloc, names, name),
        None => Ok(true),
    }
}

// Returns the name that a definition gives, if it gives one.
pub(crate) fn given(definition: &Definition, which: Which) -> Option<&Name>
    ensures some { IfSome result (λ name. Gives which (meaning_of definition.now) name.now) }
    ensures none { IfNone result ((name : List ℕ) → Gives which (meaning_of definition.now) name →
        ⊥) }
{
    let is_bundle = definition.kind == Kind::Bundle;
    match which {
        Which::Services if is_bundle => None,
        Which::Services => Some(&definition.name),
        Which::Bundles if is_bundle => Some(&definition.name),
        Which::Bundles => pipeline_name(definition),
    }
}

// Adds a name, unless it is there. Returns false if there is no room for it.
fn add_name(alloc: Global, names: &mut Names, name: &Name) -> Result<bool, NoMem>
    ensures adds { IfOk result (λ fits. IsTrue fits → Adds names.old name.now names.new) }
    ensures full { IfOk result (λ fits.
        fits ≡ false → IsFull names.old (λ other. other ≡ name.now)) }
{
    let count = names.len();
    if count >= MAX_NAMES {
        return Ok(names.find(name.text()).is_some());
    }
    names.add(name.copy(alloc)?)?;
    Ok(true)
}
