// The database of parts that definitions gave.
ghost use Rattle.std.specs.Prelude.{◌≡◌, ◌↔◌, ℕ, Bool, List, length, map, Contains, Some};
ghost use Rattle.std.specs.Prelude.{slice_get};
ghost use Rattle.rc_model.specs.Names.{Has};
ghost use Rattle.rc_model.specs.Database.{HaveBound, names_of, value_of};
ghost use Rattle.rc_db.specs.Database.{IsWritable};
ghost use Rattle.rc_source.specs.Meaning.{AreMeanings};
ghost use Rattle.rc_source.specs.Said.{meaning_of};
ghost use Rattle.rc_compile.specs.Pipelines.{IsService};
ghost use Rattle.rc_compile.specs.Standing.{IsBundle, NeedsNamed, StandsFor};
ghost use Rattle.rc_compile.specs.Mirror.{Mirrors};
ghost use Rattle.rc_compile.specs.Compiled.{IsDatabaseOf};
ghost use Rattle.rc_compile.specs.CompileFaults.{HasTakenName, HasWrongType};
ghost use Rattle.rc_compile.specs.Placed.{AreAsDefined};

use rc_db::{Db, Parts, Service, Table};
use rc_graph::Graph;
use rc_names::Names;
use rc_source::Definition;

// Creates the database of names, services, needs and bundles, which fit together. The definitions
// only say what these are.
pub(crate) fn join(
    definitions: &[Definition],
    names: Names,
    services: Vec<Service>,
    graph: Graph,
    table: Table,
) -> Db
    requires meanings { AreMeanings (map meaning_of definitions.now) }
    requires names { (name : List ℕ) → Contains names name
        ↔ IsService (map meaning_of definitions.now) name }
    requires services { AreAsDefined (map meaning_of definitions.now) names services.items }
    requires graph { Mirrors (NeedsNamed (map meaning_of definitions.now)) names names graph }
    requires table { (name : List ℕ) → Contains (names_of table) name
        ↔ IsBundle (map meaning_of definitions.now) name }
    requires bounds { HaveBound (length names) table }
    requires sets { (name a : List ℕ) (set : List Bool) (s : ℕ) → value_of table name ≡ Some set →
        slice_get names s ≡ Some a → Has set s ↔ StandsFor (map meaning_of definitions.now) name a }
    requires types { (s : List ℕ) → HasWrongType (map meaning_of definitions.now) s → ⊥ }
    requires taken { (s : List ℕ) → HasTakenName (map meaning_of definitions.now) s → ⊥ }
    ensures db { IsDatabaseOf (map meaning_of definitions.now) result }
    ensures writable { IsWritable result }
{
    let _count = names.len();
    let _bundles = table.len();
    let parts = Parts {
        names,
        services,
        graph,
        table,
    };
    match Db::join(parts) {
        Ok(db) => db,
        Err(_) => unreachable!(),
    }
}
