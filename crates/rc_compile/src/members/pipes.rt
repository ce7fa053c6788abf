// The bundles of pipelines.
ghost use Rattle.std.specs.Prelude.{◌≡◌, ◌<◌, ◌⊎◌, ◌↔◌, ℕ, List, [], length, map, slice_get};
ghost use Rattle.std.specs.Prelude.{slice_index_or, Some, IfSome, IfNone, OnOk};
ghost use Rattle.rc_model.specs.Names.{Has};
ghost use Rattle.rc_model.specs.Graph.{AreServices};
ghost use Rattle.rc_compile.specs.Rows.{rows};
ghost use Rattle.rc_source.specs.Said.{meaning_of};
ghost use Rattle.rc_compile.specs.Pipelines.{NamesPipeline};
ghost use Rattle.rc_compile.specs.Joining.{AllWithin};
ghost use Rattle.rc_compile.specs.Sets.{HasPiped, IsPipedBy};

use crate::members::walk::reached;
use rc_names::{Kind, Name, Names};
use rc_set::{NoMem, Set};
use rc_source::Definition;
use std::alloc::Global;

/// Returns the name of the pipeline that a definition names. Only a longrun that reads from others
/// and writes to none names one.
pub fn pipeline_name(definition: &Definition) -> Option<&Name>
    ensures some { IfSome result (λ name. NamesPipeline (meaning_of definition.now) name.now) }
    ensures none { IfNone result ((name : List ℕ) → NamesPipeline (meaning_of definition.now) name →
        ⊥) }
{
    if definition.kind != Kind::Longrun
        || definition.consumer_for.is_empty()
        || definition.producer_for.is_some()
    {
        return None;
    }
    definition.pipeline_name.as_ref()
}

// Adds what each pipeline holds to the set of its bundle. The lists say which service reads from
// which.
pub(crate) fn add_pipelines(
    alloc: Global,
    sets: &mut [Set],
    definitions: &[Definition],
    services: &Names,
    bundles: &Names,
    readers: &[Vec<u16>],
) -> Result<(), NoMem>
    requires few { length sets.old ≡ length bundles.now }
    requires bounds { AllWithin (length services.now) sets.old }
    requires readers { length readers.now ≡ length services.now }
    requires known { AreServices (rows readers.now) }
    ensures few { length sets.new ≡ length sets.old }
    ensures bounds { AllWithin (length services.now) sets.new }
    ensures sets { OnOk result ((b s : ℕ) →
        Has (slice_index_or sets.new b []) s ↔ (Has (slice_index_or sets.old b []) s
        ⊎ ((name : List ℕ) × (slice_get bundles.now b ≡ Some name)
        × HasPiped (map meaning_of definitions.now) services.now (rows readers.now) name s))) }
{
    for definition in definitions {
        add_pipeline(alloc, sets, definition, services, bundles, readers)?;
    }
    Ok(())
}

// Adds what the pipeline of a definition holds to the set of its bundle, if it names one.
fn add_pipeline(
    alloc: Global,
    sets: &mut [Set],
    definition: &Definition,
    services: &Names,
    bundles: &Names,
    readers: &[Vec<u16>],
) -> Result<(), NoMem>
    requires few { length sets.old ≡ length bundles.now }
    requires bounds { AllWithin (length services.now) sets.old }
    requires readers { length readers.now ≡ length services.now }
    requires known { AreServices (rows readers.now) }
    ensures few { length sets.new ≡ length sets.old }
    ensures bounds { AllWithin (length services.now) sets.new }
    ensures sets { OnOk result ((b s : ℕ) →
        Has (slice_index_or sets.new b []) s ↔ (Has (slice_index_or sets.old b []) s
        ⊎ ((name : List ℕ) × (slice_get bundles.now b ≡ Some name)
        × IsPipedBy (meaning_of definition.now) services.now (rows readers.now) name s))) }
{
    let _count = services.len();
    let Some(name) = pipeline_name(definition) else {
        return Ok(());
    };
    let Some(id) = services.find(definition.name.text()) else {
        return Ok(());
    };
    let set = reached(alloc, readers, id)?;
    add_set(sets, bundles, name, &set);
    Ok(())
}

// Adds a set to that of a bundle, if the name is that of one.
fn add_set(sets: &mut [Set], bundles: &Names, name: &Name, set: &Set)
    requires few { length sets.old ≡ length bundles.now }
    requires bounds { AllWithin (length set.now) sets.old }
    ensures few { length sets.new ≡ length sets.old }
    ensures bounds { AllWithin (length set.now) sets.new }
    ensures sets { (b s : ℕ) → Has (slice_index_or sets.new b []) s
        ↔ (Has (slice_index_or sets.old b []) s
        ⊎ ((slice_get bundles.now b ≡ Some name.now) × Has set.now s)) }
{
    let _count = bundles.len();
    if let Some(b) = bundles.find(name.text()) {
        sets[b as usize].join(set);
    }
}
