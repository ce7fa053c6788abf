// The graph of bundles in bundles, or a cycle of them.
ghost use Rattle.std.specs.Prelude.{◌≡◌, ◌<◌, ◌⊎◌, ◌↔◌, ℕ, List, [], length, map};
ghost use Rattle.std.specs.Prelude.{slice_index_or, All, Contains, IfOk, IfErr, OnOk};
ghost use Rattle.rc_model.specs.Graph.{Needs, AreServices};
ghost use Rattle.rc_compile.specs.Rows.{rows};
ghost use Rattle.rc_source.specs.Meaning.{AreMeanings};
ghost use Rattle.rc_source.specs.Said.{meaning_of};
ghost use Rattle.rc_compile.specs.Along.{IsShownCycle};
ghost use Rattle.rc_compile.specs.Standing.{IsBundle, HasContent};
ghost use Rattle.rc_compile.specs.Mirror.{AreAt, HasListed, Mirrors};
ghost use Rattle.rc_compile.specs.CycleFaults.{IsCycleFault, IsShownBy};

use crate::members::rows::{Listed, rows_of};
use crate::members::shown::names_at;
use rc_graph::{Cycle, Draft, Graph, GraphFault};
use rc_names::{Name, Names};
use rc_set::NoMem;
use rc_source::Definition;
use std::alloc::Global;
use thiserror::Error;

/// Why names have no graph.
#[derive(Debug, Drop, Error)]
pub enum CycleFault {
    /// Each name needs or holds the next one, and the last the first. The first is the least.
    #[error("names go round in a circle")]
    Cycle(Vec<Name>),
    /// There was no room for the graph.
    #[error("out of memory")]
    Memory,
}

/// Returns the graph of which bundle holds which by its contents. A bundle is its place among the
/// names of bundles, including those of pipelines.
pub fn bundle_graph(
    alloc: Global,
    definitions: &[Definition],
    bundles: &Names,
) -> Result<Graph, CycleFault>
    requires meanings { AreMeanings (map meaning_of definitions.now) }
    requires bundles { (name : List ℕ) →
        Contains bundles.now name ↔ IsBundle (map meaning_of definitions.now) name }
    ensures pairs { IfOk result (λ graph.
        Mirrors (HasContent (map meaning_of definitions.now)) bundles.now bundles.now graph) }
    ensures free { OnOk result ((names : List (List ℕ)) →
        IsShownCycle (HasContent (map meaning_of definitions.now)) names → ⊥) }
    ensures fault { IfErr result (IsCycleFault (HasContent (map meaning_of definitions.now))) }
{
    let _count = bundles.len();
    let draft = match content_draft(alloc, definitions, bundles) {
        Ok(draft) => draft,
        Err(_) => return Err(CycleFault::Memory),
    };
    match draft.finish() {
        Ok(graph) => Ok(graph),
        Err(GraphFault::Cycle(cycle)) => Err(shown_cycle(alloc, bundles, &cycle)),
        Err(GraphFault::Memory) => Err(CycleFault::Memory),
    }
}

// Returns the pairs of bundles of which one has the other in its contents.
fn content_draft(alloc: Global, definitions: &[Definition], bundles: &Names) -> Result<Draft, NoMem>
    ensures { IfOk result (λ draft. Mirrors
        (HasContent (map meaning_of definitions.now)) bundles.now bundles.now draft) }
{
    let mut draft = Draft::new(alloc, bundles.len())?;
    need_listed(alloc, &mut draft, definitions, Listed::Contents, bundles)?;
    Ok(draft)
}

/// Returns the fault that shows a cycle of ids by the names at their places.
pub fn shown_cycle(alloc: Global, names: &Names, cycle: &Cycle) -> CycleFault
    requires { All (λ s. s < length names.now) cycle.now }
    ensures { IsShownBy (map (λ s. slice_index_or names.now s []) cycle.now) result }
{
    match names_at(alloc, names, cycle.ids()) {
        Ok(names) => CycleFault::Cycle(names),
        Err(_) => CycleFault::Memory,
    }
}

/// Records that the ids of names need those of the names that their definitions list.
pub fn need_listed(
    alloc: Global,
    draft: &mut Draft,
    definitions: &[Definition],
    which: Listed,
    names: &Names,
) -> Result<(), NoMem>
    requires { length draft.old ≡ length names.now }
    ensures bound { length draft.new ≡ length draft.old }
    ensures pairs { OnOk result ((s t : ℕ) →
        Needs draft.new s t ↔ (Needs draft.old s t
        ⊎ AreAt (HasListed which (map meaning_of definitions.now)) names.now names.now s t)) }
{
    let lists = rows_of(alloc, definitions, which, names, names)?;
    need_lists(draft, &lists)
}

// Records that ids need those in their lists.
fn need_lists(draft: &mut Draft, lists: &[Vec<u16>]) -> Result<(), NoMem>
    requires bound { length lists.now ≡ length draft.old }
    requires known { AreServices (rows lists.now) }
    ensures bound { length draft.new ≡ length draft.old }
    ensures pairs { OnOk result ((s t : ℕ) →
        Needs draft.new s t ↔ (Needs draft.old s t ⊎ Needs (rows lists.now) s t)) }
{
    for s in 0..draft.len() {
        need_all(draft, s, lists[s as usize].as_slice())?;
    }
    Ok(())
}

/// Records that an id needs each id of a list.
pub fn need_all(draft: &mut Draft, id: u16, list: &[u16]) -> Result<(), NoMem>
    requires id { id < length draft.old }
    requires known { All (λ t. t < length draft.old) list.now }
    ensures bound { length draft.new ≡ length draft.old }
    ensures pairs { OnOk result ((s t : ℕ) →
        Needs draft.new s t ↔ (Needs draft.old s t ⊎ ((s ≡ id) × Contains list.now t))) }
{
    for t in list {
        draft.need(id, *t)?;
    }
    Ok(())
}
