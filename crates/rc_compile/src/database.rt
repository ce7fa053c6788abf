// The database of definitions, once their needs and sets are known.
ghost use Rattle.std.specs.Prelude.{◌≡◌, ◌↔◌, ℕ, List, length, map, Contains, IfOk};
ghost use Rattle.rc_db.specs.Database.{IsWritable};
ghost use Rattle.rc_source.specs.Meaning.{AreMeanings};
ghost use Rattle.rc_source.specs.Said.{meaning_of};
ghost use Rattle.rc_compile.specs.Joining.{AllWithin};
ghost use Rattle.rc_compile.specs.Mirror.{Mirrors};
ghost use Rattle.rc_compile.specs.Pipelines.{IsService};
ghost use Rattle.rc_compile.specs.Sets.{AreSetsOf};
ghost use Rattle.rc_compile.specs.Standing.{NeedsNamed, StandsFor};
ghost use Rattle.rc_compile.specs.Compiled.{IsDatabaseOf};
ghost use Rattle.rc_compile.specs.CompileFaults.{HasTakenName, HasWrongType};
ghost use Rattle.rc_compile.specs.Placed.{AreAsDefined};
ghost use Rattle.rc_compile.specs.Book.{IsBook};

use crate::book::Book;
use crate::join::join;
use crate::services::{places_of, services_of};
use crate::table::table_of;
use rc_db::{Db, Service};
use rc_graph::Graph;
use rc_names::Names;
use rc_set::{NoMem, Set};
use rc_source::Definition;
use std::alloc::{AllocError, Global};

// Creates the database of definitions whose pipes are right. The graph says what each service
// needs, and the sets say what the names of bundles stand for.
pub(crate) fn joined(
    alloc: Global,
    definitions: &[Definition],
    book: Book,
    graph: Graph,
    sets: &[Set],
) -> Result<Db, NoMem>
    requires meanings { AreMeanings (map meaning_of definitions.now) }
    requires book { IsBook (map meaning_of definitions.now) book }
    requires graph { Mirrors (NeedsNamed
        (map meaning_of definitions.now)) book.services book.services graph }
    requires few { length sets.now ≡ length book.bundles }
    requires bounds { AllWithin (length book.services) sets.now }
    requires sets { AreSetsOf (StandsFor
        (map meaning_of definitions.now)) book.bundles book.services sets.now }
    requires types { (s : List ℕ) → HasWrongType (map meaning_of definitions.now) s → ⊥ }
    requires taken { (s : List ℕ) → HasTakenName (map meaning_of definitions.now) s → ⊥ }
    ensures db { IfOk result (IsDatabaseOf (map meaning_of definitions.now)) }
    ensures writable { IfOk result IsWritable }
{
    let Ok(table) = table_of(alloc, &book.bundles, sets) else {
        drop((book, graph));
        return Err(AllocError);
    };
    let Ok(services) = described(alloc, definitions, &book.services) else {
        drop((book, graph, table));
        return Err(AllocError);
    };
    let Book {
        services: names,
        bundles,
        shared,
        longruns,
        feeds,
        matched,
    } = book;
    drop((bundles, shared, longruns, feeds, matched));
    Ok(join(definitions, names, services, graph, table))
}

// Returns each service of a table, as the definitions describe it.
fn described(
    alloc: Global,
    definitions: &[Definition],
    names: &Names,
) -> Result<Vec<Service>, NoMem>
    requires meanings { AreMeanings (map meaning_of definitions.now) }
    requires names { (name : List ℕ) → Contains names.now name
        ↔ IsService (map meaning_of definitions.now) name }
    requires types { (s : List ℕ) → HasWrongType (map meaning_of definitions.now) s → ⊥ }
    ensures { IfOk result (λ services. AreAsDefined
        (map meaning_of definitions.now) names.now services.items) }
{
    let places = places_of(alloc, definitions, names)?;
    services_of(alloc, definitions, names, &places)
}
