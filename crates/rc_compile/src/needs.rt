// Which service needs which: by its dependencies, by the bundles among
// them, and by what it writes to.
ghost use Rattle.std.specs.Prelude.{◌≡◌, ◌<◌, ◌↔◌, ◌⊎◌, ℕ, List, [], length, slice_index_or};
ghost use Rattle.std.specs.Prelude.{OnOk, IfOk, IfErr, All, Contains, map};
ghost use Rattle.rc_model.specs.Names.{Has};
ghost use Rattle.rc_model.specs.Graph.{Needs};
ghost use Rattle.rc_compile.specs.Rows.{rows};
ghost use Rattle.rc_source.specs.Meaning.{AreMeanings};
ghost use Rattle.rc_source.specs.Said.{meaning_of};
ghost use Rattle.rc_compile.specs.Along.{IsShownCycle};
ghost use Rattle.rc_compile.specs.Pipelines.{IsService};
ghost use Rattle.rc_compile.specs.Standing.{IsBundle, StandsFor, NeedsNamed};
ghost use Rattle.rc_compile.specs.Mirror.{HasListed, Mirrors};
ghost use Rattle.rc_compile.specs.Joining.{AllWithin};
ghost use Rattle.rc_compile.specs.Sets.{AreSetsOf};
ghost use Rattle.rc_compile.specs.CycleFaults.{IsCycleFault};

use crate::members::{CycleFault, Listed, need_all, need_listed, rows_of, shown_cycle};
use rc_graph::{Draft, Graph, GraphFault};
use rc_names::Names;
use rc_set::{NoMem, Set};
use rc_source::Definition;
use std::alloc::Global;

// Records that a service needs each member of the sets in a list.
fn need_sets(
    alloc: Global,
    draft: &mut Draft,
    service: u16,
    list: &[u16],
    sets: &[Set],
) -> Result<(), NoMem>
    requires service { service < length draft.old }
    requires known { All (λ b. b < length sets.now) list.now }
    requires bounds { All (λ set. length set ≡ length draft.old) sets.now }
    ensures bound { length draft.new ≡ length draft.old }
    ensures pairs { OnOk result ((s t : ℕ) → Needs draft.new s t ↔
        (Needs draft.old s t ⊎ ((s ≡ service)
        × ((b : ℕ) × Contains list.now b × Has (slice_index_or sets.now b []) t)))) }
{
    for b in list {
        let members = sets[*b as usize].ids(alloc)?;
        need_all(draft, service, &members)?;
    }
    Ok(())
}

// Records that services need the members of the sets of the bundles in their lists.
pub(crate) fn need_bundles(
    alloc: Global,
    draft: &mut Draft,
    lists: &[Vec<u16>],
    sets: &[Set],
) -> Result<(), NoMem>
    requires bound { length lists.now ≡ length draft.old }
    requires known { (s b : ℕ) → Needs (rows lists.now) s b → b < length sets.now }
    requires bounds { All (λ set. length set ≡ length draft.old) sets.now }
    ensures bound { length draft.new ≡ length draft.old }
    ensures pairs { OnOk result ((s t : ℕ) → Needs draft.new s t ↔
        (Needs draft.old s t ⊎ ((b : ℕ) × Needs (rows lists.now) s b
        × Has (slice_index_or sets.now b []) t))) }
{
    for s in 0..draft.len() {
        need_sets(alloc, draft, s, lists[s as usize].as_slice(), sets)?;
    }
    Ok(())
}

// Records that services need what the bundles among their dependencies stand for.
fn need_in_bundles(
    alloc: Global,
    draft: &mut Draft,
    definitions: &[Definition],
    services: &Names,
    bundles: &Names,
    sets: &[Set],
) -> Result<(), NoMem>
    requires bound { length draft.old ≡ length services.now }
    requires few { length sets.now ≡ length bundles.now }
    requires bounds { AllWithin (length services.now) sets.now }
    ensures bound { length draft.new ≡ length draft.old }
    ensures pairs { OnOk result ((lists : List (List ℕ))
        × Mirrors (HasListed Listed.Dependencies
        (map meaning_of definitions.now)) services.now bundles.now lists
        × ((s t : ℕ) → Needs draft.new s t
        ↔ (Needs draft.old s t ⊎ ((b : ℕ) × Needs lists s b
        × Has (slice_index_or sets.now b []) t)))) }
{
    let lists = rows_of(alloc, definitions, Listed::Dependencies, services, bundles)?;
    need_bundles(alloc, draft, &lists, sets)
}

// Returns the needs of services, as the definitions give them by name.
fn needs_of(
    alloc: Global,
    definitions: &[Definition],
    services: &Names,
    bundles: &Names,
    sets: &[Set],
) -> Result<Draft, NoMem>
    requires meanings { AreMeanings (map meaning_of definitions.now) }
    requires services { (name : List ℕ) →
        Contains services.now name ↔ IsService (map meaning_of definitions.now) name }
    requires bundles { (name : List ℕ) →
        Contains bundles.now name ↔ IsBundle (map meaning_of definitions.now) name }
    requires few { length sets.now ≡ length bundles.now }
    requires bounds { AllWithin (length services.now) sets.now }
    requires sets { AreSetsOf (StandsFor
        (map meaning_of definitions.now)) bundles.now services.now sets.now }
    ensures { IfOk result (λ draft. Mirrors
        (NeedsNamed (map meaning_of definitions.now)) services.now services.now draft) }
{
    let mut draft = Draft::new(alloc, services.len())?;
    need_listed(
        alloc,
        &mut draft,
        definitions,
        Listed::Dependencies,
        services,
    )?;
    need_in_bundles(alloc, &mut draft, definitions, services, bundles, sets)?;
    need_listed(alloc, &mut draft, definitions, Listed::Producer, services)?;
    Ok(draft)
}

// Returns the graph of services. Fails with a cycle of services if there is one.
pub(crate) fn graph_of(
    alloc: Global,
    definitions: &[Definition],
    services: &Names,
    bundles: &Names,
    sets: &[Set],
) -> Result<Graph, CycleFault>
    requires meanings { AreMeanings (map meaning_of definitions.now) }
    requires services { (name : List ℕ) →
        Contains services.now name ↔ IsService (map meaning_of definitions.now) name }
    requires bundles { (name : List ℕ) →
        Contains bundles.now name ↔ IsBundle (map meaning_of definitions.now) name }
    requires few { length sets.now ≡ length bundles.now }
    requires bounds { AllWithin (length services.now) sets.now }
    requires sets { AreSetsOf (StandsFor
        (map meaning_of definitions.now)) bundles.now services.now sets.now }
    ensures graph { IfOk result (λ graph.
        Mirrors (NeedsNamed (map meaning_of definitions.now)) services.now services.now graph) }
    ensures free { OnOk result ((names : List (List ℕ)) →
        IsShownCycle (NeedsNamed (map meaning_of definitions.now)) names → ⊥) }
    ensures fault { IfErr result (IsCycleFault (NeedsNamed (map meaning_of definitions.now))) }
{
    let _count = services.len();
    let draft = match needs_of(alloc, definitions, services, bundles, sets) {
        Ok(draft) => draft,
        Err(_) => return Err(CycleFault::Memory),
    };
    match draft.finish() {
        Ok(graph) => Ok(graph),
        Err(GraphFault::Cycle(cycle)) => Err(shown_cycle(alloc, services, &cycle)),
        Err(GraphFault::Memory) => Err(CycleFault::Memory),
    }
}
