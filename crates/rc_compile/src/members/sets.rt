// The services that the name of each bundle stands for.
ghost use Rattle.std.specs.Prelude.{◌≡◌, ◌<◌, ◌≤◌, ◌↔◌, ℕ, List, [], length, map};
ghost use Rattle.std.specs.Prelude.{slice_index_or, All, Contains, IfOk};
ghost use Rattle.rc_model.specs.Names.{Holds};
ghost use Rattle.rc_model.specs.Graph.{Needs};
ghost use Rattle.rc_compile.specs.Rows.{rows};
ghost use Rattle.rc_source.specs.Meaning.{AreMeanings};
ghost use Rattle.rc_source.specs.Said.{meaning_of};
ghost use Rattle.rc_compile.specs.Pipelines.{IsService};
ghost use Rattle.rc_compile.specs.Standing.{IsBundle, HasContent, HoldsName, StandsFor};
ghost use Rattle.rc_compile.specs.Mirror.{Mirrors};
ghost use Rattle.rc_compile.specs.Joining.{AllWithin};
ghost use Rattle.rc_compile.specs.Sets.{AreSetsOf, ArePiped, AreApart};

use crate::members::join::join_along;
use crate::members::pipes::add_pipelines;
use crate::members::rows::{Listed, rows_of};
use rc_graph::Graph;
use rc_names::Names;
use rc_set::{NoMem, Set};
use rc_source::Definition;
use std::alloc::Global;

/// Returns, for each bundle, including those of pipelines, the services that its name stands for. A
/// bundle or a service is its place among the names of its kind.
///
/// Time: grows with what the definitions list, and with the bundles and the
/// bundles in them times the services.
pub fn bundle_sets(
    alloc: Global,
    definitions: &[Definition],
    services: &Names,
    bundles: &Names,
    graph: &Graph,
) -> Result<Vec<Set>, NoMem>
    requires meanings { AreMeanings (map meaning_of definitions.now) }
    requires services { (name : List ℕ) →
        Contains services.now name ↔ IsService (map meaning_of definitions.now) name }
    requires bundles { (name : List ℕ) →
        Contains bundles.now name ↔ IsBundle (map meaning_of definitions.now) name }
    requires graph { Mirrors (HasContent
        (map meaning_of definitions.now)) bundles.now bundles.now graph.now }
    requires piped { ArePiped (map meaning_of definitions.now) }
    requires apart { AreApart (map meaning_of definitions.now) }
    ensures few { IfOk result (λ sets. length sets.items ≡ length bundles.now) }
    ensures bounds { IfOk result (λ sets. AllWithin (length services.now) sets.items) }
    ensures sets { IfOk result (λ sets.
        AreSetsOf
        (StandsFor (map meaning_of definitions.now)) bundles.now services.now sets.items) }
{
    let bound = services.len();
    let mut sets = held_sets(alloc, definitions, services, bundles)?;
    join_along(alloc, graph, &mut sets, bound)?;
    Ok(sets)
}

// Returns, for each bundle, the services that it holds itself, by its contents or as a pipeline.
fn held_sets(
    alloc: Global,
    definitions: &[Definition],
    services: &Names,
    bundles: &Names,
) -> Result<Vec<Set>, NoMem>
    requires meanings { AreMeanings (map meaning_of definitions.now) }
    requires services { (name : List ℕ) →
        Contains services.now name ↔ IsService (map meaning_of definitions.now) name }
    requires piped { ArePiped (map meaning_of definitions.now) }
    ensures few { IfOk result (λ sets. length sets.items ≡ length bundles.now) }
    ensures bounds { IfOk result (λ sets. AllWithin (length services.now) sets.items) }
    ensures sets { IfOk result (λ sets.
        AreSetsOf
        (HoldsName (map meaning_of definitions.now)) bundles.now services.now sets.items) }
{
    let _count = services.len();
    let mut sets = content_sets(alloc, definitions, services, bundles)?;
    let readers = rows_of(alloc, definitions, Listed::Consumers, services, services)?;
    add_pipelines(alloc, &mut sets, definitions, services, bundles, &readers)?;
    Ok(sets)
}

// Returns, for each bundle, the services in its contents.
fn content_sets(
    alloc: Global,
    definitions: &[Definition],
    services: &Names,
    bundles: &Names,
) -> Result<Vec<Set>, NoMem>
    ensures few { IfOk result (λ sets. length sets.items ≡ length bundles.now) }
    ensures bounds { IfOk result (λ sets. AllWithin (length services.now) sets.items) }
    ensures sets { IfOk result (λ sets.
        AreSetsOf
        (HasContent (map meaning_of definitions.now)) bundles.now services.now sets.items) }
{
    let bound = services.len();
    let contents = rows_of(alloc, definitions, Listed::Contents, bundles, services)?;
    sets_of(alloc, &contents, bound)
}

// Returns the sets of the ids in some lists.
fn sets_of(alloc: Global, lists: &[Vec<u16>], bound: u16) -> Result<Vec<Set>, NoMem>
    requires bound { bound ≤ 4096 }
    requires known { (s t : ℕ) → Needs (rows lists.now) s t → t < bound }
    ensures few { IfOk result (λ sets. length sets.items ≡ length lists.now) }
    ensures bounds { IfOk result (λ sets. AllWithin bound sets.items) }
    ensures sets { IfOk result (λ sets.
        (s : ℕ) → s < length lists.now →
        Holds (slice_index_or sets.items s []) (Needs (rows lists.now) s)) }
{
    let mut sets = Vec::new(alloc);
    for s in 0..lists.len() {
        let set = set_of(alloc, lists[s].as_slice(), bound)?;
        sets.push(set)?;
    }
    Ok(sets)
}

// Returns the set of the ids in a list.
fn set_of(alloc: Global, list: &[u16], bound: u16) -> Result<Set, NoMem>
    requires bound { bound ≤ 4096 }
    requires known { All (λ t. t < bound) list.now }
    ensures bound { IfOk result (λ set. length set ≡ bound) }
    ensures members { IfOk result (λ set. Holds set (Contains list.now)) }
{
    let mut set = Set::empty(alloc, bound)?;
    for t in list {
        set.insert(*t);
    }
    Ok(set)
}
