// What the tests look things up in.
ghost use Rattle.std.specs.Prelude.{◌↔◌, ℕ, List, map, Contains, IfOk, IfErr, OnOk};
ghost use Rattle.rc_source.specs.Meaning.{AreMeanings};
ghost use Rattle.rc_source.specs.Said.{meaning_of};
ghost use Rattle.rc_compile.specs.Pipelines.{IsService};
ghost use Rattle.rc_compile.specs.Standing.{IsBundle};
ghost use Rattle.rc_compile.specs.CompileFaults.{HaveFlaw, IsCompileFault, TooMany};
ghost use Rattle.rc_compile.specs.Book.{IsBook};

use crate::CompileFault;
use crate::members::{Listed, rows_of};
use crate::pipes::{longruns_of, matched_of, shared_of};
use crate::tables::{Which, names_of};
use rc_names::Names;
use rc_set::{NoMem, Set};
use rc_source::Definition;
use std::alloc::Global;

// Tables of names, and services by their places among them.
#[derive(Drop)]
pub(crate) struct Book {
    // The names of services.
    pub(crate) services: Names,
    // The names of bundles, defined or of pipelines.
    pub(crate) bundles: Names,
    // The bundles whose name two definitions give.
    pub(crate) shared: Set,
    // The services that are longruns.
    pub(crate) longruns: Set,
    // For each service the one that it writes to.
    pub(crate) feeds: Vec<Vec<u16>>,
    // The services that write to one that also reads from them.
    pub(crate) matched: Set,
}

// Creates the tables and lists of definitions. Fails if there are too many names.
#[tactic(auto, unfolding(crate::specs::CompileFaults::AreFreeBefore, crate::specs::CompileFaults::IsCompileFault))]
pub(crate) fn book_of(alloc: Global, definitions: &[Definition]) -> Result<Book, CompileFault>
    requires { AreMeanings (map meaning_of definitions.now) }
    ensures book { IfOk result (IsBook (map meaning_of definitions.now)) }
    ensures few { OnOk result (HaveFlaw (map meaning_of definitions.now) TooMany → ⊥) }
    ensures fault { IfErr result (IsCompileFault (map meaning_of definitions.now)) }
{
    let Some(services) = names_of(alloc, definitions, Which::Services)? else {
        return Err(CompileFault::TooMany);
    };
    let Ok(found) = names_of(alloc, definitions, Which::Bundles) else {
        drop(services);
        return Err(CompileFault::Memory);
    };
    let Some(bundles) = found else {
        drop(services);
        return Err(CompileFault::TooMany);
    };
    Ok(filled(alloc, definitions, services, bundles)?)
}

// Creates a book from its tables of names, and fills in its lists.
fn filled(
    alloc: Global,
    definitions: &[Definition],
    services: Names,
    bundles: Names,
) -> Result<Book, NoMem>
    requires services { (name : List ℕ) →
        Contains services name ↔ IsService (map meaning_of definitions.now) name }
    requires bundles { (name : List ℕ) →
        Contains bundles name ↔ IsBundle (map meaning_of definitions.now) name }
    ensures { IfOk result (IsBook (map meaning_of definitions.now)) }
{
    match listed(alloc, definitions, &services, &bundles) {
        Ok((shared, longruns, feeds, matched)) => Ok(Book {
            services,
            bundles,
            shared,
            longruns,
            feeds,
            matched,
        }),
        Err(short) => {
            drop((services, bundles));
            Err(short)
        }
    }
}

// What a book lists beside the tables of names, in its order.
type Lists = (Set, Set, Vec<Vec<u16>>, Set);

// Creates the lists of a book with the given tables of names.
fn listed(
    alloc: Global,
    definitions: &[Definition],
    services: &Names,
    bundles: &Names,
) -> Result<Lists, NoMem>
    requires services { (name : List ℕ) →
        Contains services.now name ↔ IsService (map meaning_of definitions.now) name }
    requires bundles { (name : List ℕ) →
        Contains bundles.now name ↔ IsBundle (map meaning_of definitions.now) name }
    ensures { IfOk result (λ lists. IsBook (map meaning_of definitions.now) (record {
      services = services.now;
      bundles = bundles.now;
      shared = lists.0;
      longruns = lists.1;
      feeds = lists.2;
      matched = lists.3;
    })) }
{
    let _count = services.len();
    let shared = shared_of(alloc, definitions, bundles)?;
    let longruns = longruns_of(alloc, definitions, services)?;
    let feeds = rows_of(alloc, definitions, Listed::Producer, services, services)?;
    let matched = matched_of(alloc, definitions, services, &feeds)?;
    Ok((shared, longruns, feeds, matched))
}
