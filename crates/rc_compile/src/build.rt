// From definitions that have passed all tests but one to a database.
ghost use Rattle.std.specs.Prelude.{map, IfOk, IfErr, OnOk};
ghost use Rattle.rc_db.specs.Database.{IsWritable};
ghost use Rattle.rc_source.specs.Meaning.{AreMeanings};
ghost use Rattle.rc_source.specs.Said.{meaning_of};
ghost use Rattle.rc_compile.specs.Mirror.{Mirrors};
ghost use Rattle.rc_compile.specs.Standing.{HasContent};
ghost use Rattle.rc_compile.specs.Compiled.{IsDatabaseOf};
ghost use Rattle.rc_compile.specs.CompileFaults.{AreFreeBefore, Cycle, HaveNoFlaw, IsCompileFault};
ghost use Rattle.rc_compile.specs.Book.{IsBook};

use crate::CompileFault;
use crate::book::Book;
use crate::database::joined;
use crate::members::{CycleFault, bundle_sets};
use crate::needs::graph_of;
use rc_db::Db;
use rc_graph::Graph;
use rc_source::Definition;
use std::alloc::Global;

// Builds the database. Fails if services need one another in a circle.
#[tactic(auto, unfolding(crate::specs::CompileFaults::IsCompileFault))]
pub(crate) fn build(
    alloc: Global,
    definitions: &[Definition],
    book: Book,
    contents: &Graph,
) -> Result<Db, CompileFault>
    requires meanings { AreMeanings (map meaning_of definitions.now) }
    requires book { IsBook (map meaning_of definitions.now) book }
    requires contents { Mirrors (HasContent
        (map meaning_of definitions.now)) book.bundles book.bundles contents.now }
    requires before { AreFreeBefore (map meaning_of definitions.now) Cycle }
    ensures db { IfOk result (IsDatabaseOf (map meaning_of definitions.now)) }
    ensures writable { IfOk result (λ db. IsWritable db) }
    ensures free { OnOk result (HaveNoFlaw (map meaning_of definitions.now)) }
    ensures fault { IfErr result (IsCompileFault (map meaning_of definitions.now)) }
{
    let Ok(sets) = bundle_sets(alloc, definitions, &book.services, &book.bundles, contents) else {
        drop(book);
        return Err(CompileFault::Memory);
    };
    let graph = match graph_of(alloc, definitions, &book.services, &book.bundles, &sets) {
        Ok(graph) => graph,
        Err(CycleFault::Cycle(names)) => {
            drop((book, sets));
            return Err(CompileFault::Cycle(names));
        }
        Err(CycleFault::Memory) => {
            drop((book, sets));
            return Err(CompileFault::Memory);
        }
    };
    let db = joined(alloc, definitions, book, graph, &sets);
    drop(sets);
    Ok(db?)
}
