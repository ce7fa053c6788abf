// The tests of definitions, in their order.
ghost use Rattle.std.specs.Prelude.{map, IfOk, IfErr, OnOk};
ghost use Rattle.rc_source.specs.Meaning.{AreMeanings};
ghost use Rattle.rc_source.specs.Said.{meaning_of};
ghost use Rattle.rc_compile.specs.Standing.{HasContent};
ghost use Rattle.rc_compile.specs.Mirror.{Mirrors};
ghost use Rattle.rc_compile.specs.Book.{IsBook};
ghost use Rattle.rc_compile.specs.CompileFaults.{AreFreeBefore, BundleCycle, Cycle, HaveFlaw};
ghost use Rattle.rc_compile.specs.CompileFaults.{IsCompileFault, TooMany, Unknown};

use crate::CompileFault;
use crate::book::Book;
use crate::flaws::entry_flaws;
use crate::members::{CycleFault, bundle_graph};
use crate::scan::{test_entries, test_unknown};
use rc_graph::Graph;
use rc_source::Definition;
use std::alloc::Global;

// Runs all tests but those for too many names and for a circle of services. Returns the graph of
// which bundle holds which.
pub(crate) fn test_all(
    alloc: Global,
    definitions: &[Definition],
    book: &Book,
) -> Result<Graph, CompileFault>
    requires meanings { AreMeanings (map meaning_of definitions.now) }
    requires book { IsBook (map meaning_of definitions.now) book.now }
    requires few { HaveFlaw (map meaning_of definitions.now) TooMany → ⊥ }
    ensures graph { IfOk result (Mirrors (HasContent (map meaning_of definitions.now))
        book.now.bundles book.now.bundles) }
    ensures before { OnOk result (AreFreeBefore (map meaning_of definitions.now) Cycle) }
    ensures fault { IfErr result (IsCompileFault (map meaning_of definitions.now)) }
{
    let graph = test_names(alloc, definitions, book)?;
    test_flaws(alloc, definitions, book)?;
    Ok(graph)
}

// Tests that each name stands for something and that no bundles hold one another in a circle.
#[tactic(auto, unfolding(crate::specs::CompileFaults::AreFreeBefore, crate::specs::CompileFaults::IsCompileFault))]
fn test_names(alloc: Global, definitions: &[Definition], book: &Book) -> Result<Graph, CompileFault>
    requires meanings { AreMeanings (map meaning_of definitions.now) }
    requires book { IsBook (map meaning_of definitions.now) book.now }
    requires few { HaveFlaw (map meaning_of definitions.now) TooMany → ⊥ }
    ensures graph { IfOk result (Mirrors (HasContent (map meaning_of definitions.now))
        book.now.bundles book.now.bundles) }
    ensures known { OnOk result (HaveFlaw (map meaning_of definitions.now) Unknown → ⊥) }
    ensures free { OnOk result (HaveFlaw (map meaning_of definitions.now) BundleCycle → ⊥) }
    ensures fault { IfErr result (IsCompileFault (map meaning_of definitions.now)) }
{
    test_unknown(alloc, definitions, book)?;
    match bundle_graph(alloc, definitions, &book.bundles) {
        Ok(graph) => Ok(graph),
        Err(CycleFault::Cycle(names)) => Err(CompileFault::BundleCycle(names)),
        Err(CycleFault::Memory) => Err(CompileFault::Memory),
    }
}

// Tests that no entry has a flaw, one flaw after the other.
fn test_flaws(alloc: Global, definitions: &[Definition], book: &Book) -> Result<(), CompileFault>
    requires meanings { AreMeanings (map meaning_of definitions.now) }
    requires book { IsBook (map meaning_of definitions.now) book.now }
    requires few { HaveFlaw (map meaning_of definitions.now) TooMany → ⊥ }
    requires known { HaveFlaw (map meaning_of definitions.now) Unknown → ⊥ }
    requires free { HaveFlaw (map meaning_of definitions.now) BundleCycle → ⊥ }
    ensures before { OnOk result (AreFreeBefore (map meaning_of definitions.now) Cycle) }
    ensures fault { IfErr result (IsCompileFault (map meaning_of definitions.now)) }
{
    for flaw in entry_flaws() {
        test_entries(alloc, definitions, book, *flaw)?;
    }
    Ok(())
}
